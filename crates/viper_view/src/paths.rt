//! The path from a marker on which its instructions are spent.

use crate::listing::line_at;
use crate::table::known;
use cert_format::Cert;
use memory_plan::Plan;
use rank_form::upper;
use std::alloc::Global;
use viper_word::{Addr, Memory};

/// How wide the numbers of a path are, in characters.
const WIDTH: usize = 8;

/// The greatest value of a node's rank over its fact; 0 of no node.
pub fn greatest(cert: &Cert, i: u32) -> i128 {
    if i >= cert.len() {
        return 0;
    }
    match known(cert, i) {
        Some(fact) => upper(&cert.rank(i), fact),
        None => 0,
    }
}

/// The node at the address whose rank may be greatest. None where none stands there.
fn first_at(cert: &Cert, at: Addr) -> Option<u32> {
    let mut found: Option<u32> = None;
    for i in 0..cert.len() {
        if cert.addr(i) == at {
            found = Some(higher(cert, found, i));
        }
    }
    found
}

/// The one of both nodes whose rank may be greater.
fn higher(cert: &Cert, found: Option<u32>, i: u32) -> u32 {
    match found {
        Some(other) if greatest(cert, other) >= greatest(cert, i) => other,
        _ => i,
    }
}

/// How a path goes on.
#[derive(Clone, Copy)]
enum Way {
    /// To a node that the path doesn't have yet; before that, it may go round from another that it
    /// has.
    On(u32, Option<u32>),
    /// Only to nodes that it has, as this one.
    Round(u32),
    /// To the marker at the address of this number; before that, it may go round.
    Marker(u32, Option<u32>),
    /// Nowhere.
    End,
}

/// Is the node on the path?
fn is_met(met: &[bool], i: u32) -> bool {
    match met.get(i as usize) {
        Some(is_met) => *is_met,
        None => true,
    }
}

/// The successor with the greatest rank among those at no marker that were met, or weren't.
fn best(plan: &Plan, cert: &Cert, met: &[bool], i: u32, wants_met: bool) -> Option<u32> {
    if i >= cert.len() {
        return None;
    }
    let mut found: Option<u32> = None;
    for number in cert.succ(i) {
        let next = *number;
        if next < cert.len() && !plan.is_marker(cert.addr(next)) && is_met(met, next) == wants_met {
            found = Some(higher(cert, found, next));
        }
    }
    found
}

/// The first marker that a node leads to.
fn marker_after(plan: &Plan, cert: &Cert, i: u32) -> Option<Addr> {
    if i >= cert.len() {
        return None;
    }
    for number in cert.succ(i) {
        if *number < cert.len() && plan.is_marker(cert.addr(*number)) {
            return Some(cert.addr(*number));
        }
    }
    None
}

/// How the path goes on from a node: to the successor with the greatest rank.
fn way_from(plan: &Plan, cert: &Cert, met: &[bool], i: u32) -> Way {
    let round = best(plan, cert, met, i, true);
    match best(plan, cert, met, i, false) {
        Some(next) => match round {
            Some(back) if greatest(cert, back) > greatest(cert, next) => Way::On(next, round),
            _ => Way::On(next, None),
        },
        None => match marker_after(plan, cert, i) {
            Some(marker) => Way::Marker(marker.get(), round),
            None => match round {
                Some(back) => Way::Round(back),
                None => Way::End,
            },
        },
    }
}

/// Appends what a path says of how it goes on, and answers the next node.
fn push_way(text: &mut String, way: Way) -> Result<Option<u32>, Memory> {
    match way {
        Way::On(next, None) => {
            writeln!(text, "")?;
            Ok(Some(next))
        }
        Way::On(next, Some(back)) => {
            writeln!(text, ", again to node {back}, at last to node {next}")?;
            Ok(Some(next))
        }
        Way::Marker(marker, None) => {
            writeln!(text, ", to marker {marker:05X}")?;
            Ok(None)
        }
        Way::Marker(marker, Some(back)) => {
            writeln!(
                text,
                ", again to node {back}, at last to marker {marker:05X}"
            )?;
            Ok(None)
        }
        Way::Round(back) => {
            writeln!(text, ", again to node {back}")?;
            Ok(None)
        }
        Way::End => {
            writeln!(text, ", to nowhere")?;
            Ok(None)
        }
    }
}

/// Appends the path from the marker: at each node the greatest value of its rank, which is how many
/// instructions are left there at the most, and the line; on to the successor with the greatest
/// rank. It ends where it comes to a marker (docs/VIEWING.md).
pub fn push_path(
    alloc: Global,
    text: &mut String,
    plan: &Plan,
    cert: &Cert,
    marker: Addr,
) -> Result<(), Memory> {
    let Some(first) = first_at(cert, marker) else {
        return Ok(());
    };
    let mut met = vec![in alloc; false; cert.len() as usize]?;
    let mut at = first;
    for _ in 0..cert.len() {
        if at >= cert.len() {
            return Ok(());
        }
        if let Some(place) = met.get_mut(at as usize) {
            *place = true;
        }
        let left = greatest(cert, at);
        let line = line_at(alloc, plan, cert.addr(at))?;
        write!(text, "{left:>WIDTH$}  node {at}: {line}")?;
        match push_way(text, way_from(plan, cert, &met, at))? {
            Some(next) => at = next,
            None => return Ok(()),
        }
    }
    Ok(())
}
