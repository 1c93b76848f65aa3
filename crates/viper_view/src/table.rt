//! A certificate as a table.

ghost use Rattle.std.specs.Prelude.{◌<◌, length, IfSome};
ghost use Rattle.cert_format.specs.Limits.{IsWithinLimits};

use crate::answer::Answer;
use crate::fact_words::FactWords;
use crate::form_words::FormWords;
use crate::listing::line_at;
use crate::paths::push_path;
use crate::verdicts::{push_bound, push_refusal};
use cert_checker::{Bound, Verdict, check, fill};
use cert_format::Cert;
use flag_relation::Fact;
use memory_plan::Plan;
use std::alloc::Global;
use val_dom::Val;
use viper_word::{Addr, Memory};

/// How wide a column may be at the most, in characters; a longer part pushes its row.
const WIDEST: usize = 40;

/// What is known at a node. None where it is bare, or no node.
pub fn known(cert: &Cert, i: u32) -> Option<&Fact<Val>>
    ensures there { IfSome result (λ _. i < length cert.now.nodes) }
{
    if i < cert.len() && !cert.is_bare(i) {
        Some(cert.fact(i))
    } else {
        None
    }
}

/// The rank of a node in words; of no node nothing.
pub fn rank_words(alloc: Global, cert: &Cert, i: u32) -> Result<String, Memory> {
    if i < cert.len() {
        let rank = cert.rank(i);
        let words = FormWords {
            form: &rank,
            cells: cert.cells(),
        };
        Ok(words.to_string(alloc)?)
    } else {
        Ok(String::new(alloc))
    }
}

/// The numbers of a node's successors in words.
fn next_words(alloc: Global, cert: &Cert, i: u32) -> Result<String, Memory> {
    let mut text = String::new(alloc);
    if i < cert.len() {
        for (place, number) in cert.succ(i).iter().enumerate() {
            write!(text, "{}{number}", if place == 0 { "" } else { ", " })?;
        }
    }
    Ok(text)
}

/// Appends a part, and spaces up to a width and one more.
fn push_wide(text: &mut String, part: &str, width: usize) -> Result<(), Memory> {
    write!(text, "{part}  ")?;
    for _ in part.len()..width {
        write!(text, " ")?;
    }
    Ok(())
}

/// How wide the columns are: of the lines, of the ranks, and of the successors.
#[derive(Clone, Copy)]
struct Widths {
    line: usize,
    rank: usize,
    next: usize,
}

/// The widths that the nodes need.
fn widths_of(alloc: Global, plan: &Plan, cert: &Cert) -> Result<Widths, Memory> {
    let mut widths = Widths {
        line: 4,
        rank: 4,
        next: 4,
    };
    for i in 0..cert.len() {
        let line = line_at(alloc, plan, cert.addr(i))?;
        widths.line = widths.line.max(line.len()).min(WIDEST);
        let rank = rank_words(alloc, cert, i)?;
        let next = next_words(alloc, cert, i)?;
        widths.rank = widths.rank.max(rank.len()).min(WIDEST);
        widths.next = widths.next.max(next.len()).min(WIDEST);
    }
    Ok(widths)
}

/// Appends the marks of a node: `>` of a start node, `*` at a marker, `~` where it is bare.
fn push_marks(text: &mut String, plan: &Plan, cert: &Cert, i: u32) -> Result<(), Memory> {
    let is_start = cert.starts().iter().any(|start| *start == i);
    let is_marked = i < cert.len() && plan.is_marker(cert.addr(i));
    let is_bare = i < cert.len() && cert.is_bare(i);
    write!(
        text,
        "{}{}{}",
        if is_start { ">" } else { " " },
        if is_marked { "*" } else { " " },
        if is_bare { "~" } else { " " }
    )?;
    Ok(())
}

/// Appends the row of a node. `full` is the certificate without bare nodes.
fn push_row(
    alloc: Global,
    text: &mut String,
    plan: &Plan,
    cert: &Cert,
    full: &Cert,
    i: u32,
    widths: Widths,
) -> Result<(), Memory> {
    if i >= full.len() {
        return Ok(());
    }
    push_marks(text, plan, cert, i)?;
    write!(text, "{i:>6}  ")?;
    push_wide(
        text,
        line_at(alloc, plan, full.addr(i))?.as_str(),
        widths.line,
    )?;
    push_wide(text, rank_words(alloc, full, i)?.as_str(), widths.rank)?;
    push_wide(text, next_words(alloc, full, i)?.as_str(), widths.next)?;
    if let Some(fact) = known(full, i) {
        let words = FactWords {
            fact,
            cells: full.cells(),
        };
        write!(text, "{words}")?;
    }
    writeln!(text, "")?;
    Ok(())
}

/// Appends the addresses of the cells, where there are some.
fn push_cells(text: &mut String, cert: &Cert) -> Result<(), Memory> {
    for (i, cell) in cert.cells().iter().enumerate() {
        write!(
            text,
            "{}{:05X}",
            if i == 0 { "cells " } else { ", " },
            cell.get()
        )?;
    }
    if !cert.cells().is_empty() {
        writeln!(text, "")?;
    }
    Ok(())
}

/// Appends the heading and a row for each node.
fn push_rows(
    alloc: Global,
    text: &mut String,
    plan: &Plan,
    cert: &Cert,
    full: &Cert,
) -> Result<(), Memory> {
    let widths = widths_of(alloc, plan, full)?;
    push_cells(text, full)?;
    writeln!(text, "nodes {} (> start, * marker, ~ bare)", full.len())?;
    write!(text, "     node  ")?;
    push_wide(text, "line", widths.line)?;
    push_wide(text, "rank", widths.rank)?;
    push_wide(text, "next", widths.next)?;
    writeln!(text, "fact")?;
    for i in 0..full.len() {
        push_row(alloc, text, plan, cert, full, i, widths)?;
    }
    Ok(())
}

/// Appends each marker with its bound and the path on which the instructions are spent.
fn push_markers(
    alloc: Global,
    text: &mut String,
    plan: &Plan,
    full: &Cert,
    bounds: &[(Addr, Bound)],
) -> Result<(), Memory> {
    for (marker, bound) in bounds {
        writeln!(text, "")?;
        push_bound(text, *marker, *bound)?;
        push_path(alloc, text, plan, full, *marker)?;
    }
    Ok(())
}

/// A certificate as a person reads it: a row for each node, as it is filled, and for each marker
/// its bound and the path on which the instructions are spent; or the first condition that fails
/// (docs/VIEWING.md).
pub fn table(alloc: Global, plan: &Plan, cert: &Cert) -> Result<Answer, Memory>
    requires { IsWithinLimits cert.now }
{
    let full = fill(alloc, plan, cert)?;
    let mut text = String::new(alloc);
    push_rows(alloc, &mut text, plan, cert, &full)?;
    match check(alloc, plan, cert)? {
        Verdict::Yes(bounds) => {
            push_markers(alloc, &mut text, plan, &full, &bounds)?;
            Ok(Answer { is_yes: true, text })
        }
        Verdict::No(refusal) => {
            writeln!(text, "")?;
            push_refusal(&mut text, &refusal)?;
            Ok(Answer {
                is_yes: false,
                text,
            })
        }
    }
}
