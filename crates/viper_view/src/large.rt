//! A nest with a large number: its levels.

use crate::fact_words::Name;
use fix_solver::{Solved, solve};
use memory_plan::Plan;
use rank_nest::{Level, Nest};
use std::alloc::{AllocError, Global};
use std::collections::BTreeSet;
use val_dom::Val;
use viper_word::{Addr, Memory};

/// How many addresses of a level are told.
const MOST_TOLD: usize = 12;

/// The greatest value and total that a nest may have.
const MOST_VALUE: i128 = 0x4000_0000_0000_0000;

/// The greatest coefficient that a rank may have.
const MOST_COEFFICIENT: i128 = 0x100_0000_0000;

/// The addresses of the keys of a level.
fn addresses(
    alloc: Global,
    solved: &Solved<Val>,
    keys: &[u32],
) -> Result<BTreeSet<Addr>, AllocError> {
    let mut found = BTreeSet::new(alloc);
    for key in keys {
        if (*key as usize) < solved.len() {
            found.insert(solved.key(*key as usize).addr)?;
        }
    }
    Ok(found)
}

/// Appends the addresses of a level, the first of them.
fn push_addresses(
    alloc: Global,
    text: &mut String,
    solved: &Solved<Val>,
    keys: &[u32],
) -> Result<(), Memory> {
    let found = addresses(alloc, solved, keys)?;
    write!(text, "  at")?;
    for at in found.iter().take(MOST_TOLD) {
        write!(text, " {:05X}", at.get())?;
    }
    if found.len() > MOST_TOLD {
        write!(text, " and {} more", found.len() - MOST_TOLD)?;
    }
    writeln!(text, "")?;
    Ok(())
}

/// Appends what is large in the last level.
fn push_large_number(text: &mut String, level: &Level) -> Result<(), Memory> {
    if level.greatest > MOST_VALUE {
        writeln!(text, "  its greatest value is over 2^62")?;
    } else if level.weight > MOST_COEFFICIENT {
        writeln!(text, "  its weight is over 2^40")?;
    } else {
        writeln!(
            text,
            "  a form has more than eight terms, or a number over its limit"
        )?;
    }
    Ok(())
}

/// Appends a level.
fn push_level(
    alloc: Global,
    text: &mut String,
    solved: &Solved<Val>,
    level: &Level,
) -> Result<(), Memory> {
    match level.var {
        None => {
            writeln!(text, "graph: total {}", level.greatest)?;
        }
        Some(var) => {
            let name = Name {
                var,
                cells: solved.cells(),
            };
            let (way, end) = if level.down {
                ("down", "least")
            } else {
                ("up", "greatest")
            };
            write!(text, "level: {name} goes {way}, {end} {}, ", level.low)?;
            writeln!(
                text,
                "weight {}, greatest value {}",
                level.weight, level.greatest
            )?;
        }
    }
    push_addresses(alloc, text, solved, &level.keys)
}

/// Appends viper's line of a large number, and the levels of the nest up to it, inner ones first.
pub fn push_large(
    alloc: Global,
    text: &mut String,
    plan: &Plan,
    nest: &Nest,
) -> Result<(), Memory> {
    writeln!(text, "large")?;
    let Ok(solved) = solve::<Val>(alloc, plan) else {
        return Err(Memory);
    };
    for level in nest.levels.iter() {
        push_level(alloc, text, &solved, level)?;
    }
    match nest.levels.last() {
        Some(level) => push_large_number(text, level),
        None => Ok(()),
    }
}
