//! Too many keys: at which addresses they stand.

use crate::listing::line_at;
use flow_recover::Key;
use memory_plan::Plan;
use std::alloc::{AllocError, Global};
use std::collections::BTreeMap;
use viper_word::{Addr, Memory};

/// How many addresses are told of.
const MOST_TOLD: usize = 10;

/// An address, and how many keys stand there: the order is by how many.
#[derive(Clone, Copy, PartialEq, Eq, PartialOrd, Ord)]
struct Crowd {
    count: u32,
    addr: Addr,
}

/// How many keys stand at each address.
fn counted(alloc: Global, keys: &[Key]) -> Result<BTreeMap<Addr, u32>, AllocError> {
    let mut counts: BTreeMap<Addr, u32> = BTreeMap::new(alloc);
    for key in keys {
        match counts.get_mut(&key.addr) {
            Some(count) => *count = count.saturating_add(1),
            None => {
                counts.insert(key.addr, 1)?;
            }
        }
    }
    Ok(counts)
}

/// The addresses of keys, those with the most keys last.
fn crowds_of(alloc: Global, keys: &[Key]) -> Result<Vec<Crowd>, AllocError> {
    let counts = counted(alloc, keys)?;
    let mut crowds = Vec::new(alloc);
    for (addr, count) in counts.iter() {
        crowds.push(Crowd {
            count: *count,
            addr: *addr,
        })?;
    }
    crowds.sort()?;
    Ok(crowds)
}

/// Appends viper's line of too many keys, and the addresses at which most of them stand.
pub fn push_nodes(
    alloc: Global,
    text: &mut String,
    plan: &Plan,
    keys: &[Key],
) -> Result<(), Memory> {
    writeln!(text, "nodes {}", keys.len())?;
    let crowds = crowds_of(alloc, keys)?;
    writeln!(text, "at {} addresses; most contexts are at", crowds.len())?;
    for crowd in crowds.iter().rev().take(MOST_TOLD) {
        let line = line_at(alloc, plan, crowd.addr)?;
        writeln!(text, "{:>6}  {line}", crowd.count)?;
    }
    Ok(())
}
