//! Why one of C8 to C11 fails at a node, with its numbers (docs/METHOD.md, "The whole checker").

use crate::differences::Both;
use crate::fact_words::{FactWords, Name};
use crate::form_words::FormWords;
use crate::listing::line_at;
use crate::number_words::Numbers;
use crate::paths::greatest;
use crate::steps::{change, includes, step};
use crate::table::known;
use abs_step::{Cond, Outcome, Post, Posts};
use cert_format::Cert;
use flag_relation::{Reg, Var};
use memory_plan::Plan;
use rank_form::lower;
use std::alloc::Global;
use val_dom::Val;
use viper_word::{Addr, Memory};

/// The first of the listed nodes that stands at the address.
fn successor(cert: &Cert, i: u32, at: Addr) -> Option<u32> {
    if i >= cert.len() {
        return None;
    }
    for number in cert.succ(i) {
        if *number < cert.len() && cert.addr(*number) == at {
            return Some(*number);
        }
    }
    None
}

/// Two listed nodes that stand at one address.
fn first_twins(cert: &Cert, i: u32) -> Option<(u32, u32)> {
    if i >= cert.len() {
        return None;
    }
    for number in cert.succ(i) {
        if *number < cert.len() {
            let first = successor(cert, i, cert.addr(*number))?;
            if first != *number {
                return Some((first, *number));
            }
        }
    }
    None
}

/// Appends why C8 fails over an outcome. False where it doesn't.
fn push_flow(text: &mut String, cert: &Cert, i: u32, out: &Outcome<Val>) -> Result<bool, Memory> {
    let at = out.target.get();
    let Some(next) = successor(cert, i, out.target) else {
        writeln!(
            text,
            "C8: the step leads to {at:05X}, where no listed node stands"
        )?;
        return Ok(true);
    };
    let Some(fact) = known(cert, next) else {
        return Ok(false);
    };
    if includes(fact, &out.after) {
        return Ok(false);
    }
    writeln!(text, "C8: the successor at {at:05X} is node {next}")?;
    let both = Both {
        cells: cert.cells(),
        fact,
        other: &out.after,
        has: "it",
        gives: "the step",
    };
    both.push_differences(text)?;
    Ok(true)
}

/// What becomes of a variable.
fn post_of(posts: &Posts, var: Var) -> Post {
    match var {
        Var::Reg(Reg::A) => posts.a,
        Var::Reg(Reg::X) => posts.x,
        Var::Reg(Reg::Y) => posts.y,
        Var::Cell(number) => match posts.cells.get(number as usize) {
            Some(post) => *post,
            None => Post::Same,
        },
    }
}

/// What is known of a variable after the step.
fn value_after(out: &Outcome<Val>, var: Var) -> Option<Val> {
    match var {
        Var::Reg(reg) => Some(out.after.reg(reg)),
        Var::Cell(number) => out.after.cells.get(number as usize).copied(),
    }
}

/// Appends what becomes of a variable over the step.
fn push_post(text: &mut String, cert: &Cert, out: &Outcome<Val>, var: Var) -> Result<(), Memory> {
    let cells = cert.cells();
    let name = Name { var, cells };
    match post_of(&out.posts, var) {
        Post::Same => writeln!(text, "  {name} stays")?,
        Post::Plus(var, number) => {
            let from = Name { var, cells };
            let sign = if number < 0 { "-" } else { "+" };
            writeln!(
                text,
                "  {name} becomes {from} {sign} {}",
                number.unsigned_abs()
            )?;
        }
        Post::Within => {
            if let Some(value) = value_after(out, var) {
                writeln!(text, "  {name} becomes {}", Numbers::of(&value))?;
            }
        }
    }
    Ok(())
}

/// Appends why C10 fails over an outcome. False where it doesn't.
fn push_rise(
    text: &mut String,
    plan: &Plan,
    cert: &Cert,
    i: u32,
    out: &Outcome<Val>,
) -> Result<bool, Memory> {
    let Some(next) = successor(cert, i, out.target) else {
        return Ok(false);
    };
    if i >= cert.len() || next >= cert.len() || plan.is_marker(out.target) {
        return Ok(false);
    }
    let here = cert.rank(i);
    let there = cert.rank(next);
    let by = change(&here, &there, out);
    if by <= -1 {
        return Ok(false);
    }
    let cells = cert.cells();
    let from = FormWords { form: &here, cells };
    let to = FormWords {
        form: &there,
        cells,
    };
    write!(
        text,
        "C10: the rank is {from} here and {to} at {:05X}, node {next}; ",
        out.target.get()
    )?;
    writeln!(
        text,
        "over the step it may change by {by}, and must fall by 1"
    )?;
    for (var, _) in there.terms() {
        push_post(text, cert, out, *var)?;
    }
    Ok(true)
}

/// Appends the first outcome over which C8 or C10 fails.
fn push_outcomes(
    text: &mut String,
    plan: &Plan,
    cert: &Cert,
    i: u32,
    outs: &[Outcome<Val>],
    cond: Cond,
) -> Result<(), Memory> {
    for out in outs {
        let is_told = if cond == Cond::C8 {
            push_flow(text, cert, i, out)?
        } else {
            push_rise(text, plan, cert, i, out)?
        };
        if is_told {
            return Ok(());
        }
    }
    Ok(())
}

/// Appends why C9 or C11 fails at a node.
fn push_bounds(text: &mut String, cert: &Cert, i: u32, cond: Cond) -> Result<(), Memory> {
    if i >= cert.len() {
        return Ok(());
    }
    let rank = cert.rank(i);
    let words = FormWords {
        form: &rank,
        cells: cert.cells(),
    };
    if cond == Cond::C11 {
        let most = greatest(cert, i);
        writeln!(text, "C11: the rank {words} may be {most}, over 2^63 - 1")?;
    } else if let Some(fact) = known(cert, i) {
        let least = lower(&rank, fact);
        writeln!(
            text,
            "C9: the rank {words} may be {least}, and must be at least 1"
        )?;
    }
    Ok(())
}

/// Appends why C8 or C10 fails at a node.
fn push_steps(
    alloc: Global,
    text: &mut String,
    plan: &Plan,
    cert: &Cert,
    i: u32,
    cond: Cond,
) -> Result<(), Memory> {
    if cond == Cond::C8 {
        if let Some((one, two)) = first_twins(cert, i) {
            writeln!(
                text,
                "C8: nodes {one} and {two} are listed, and stand at one address"
            )?;
            return Ok(());
        }
    }
    let Some(fact) = known(cert, i) else {
        return Ok(());
    };
    match step(alloc, plan, cert.cells(), cert.addr(i), fact)? {
        Ok(scratch) => push_outcomes(text, plan, cert, i, scratch.outcomes_in(), cond),
        Err(_) => Ok(()),
    }
}

/// Appends the line of a node, what is known there, and why the condition, of C8 to C11, fails.
pub fn push_flow_failure(
    alloc: Global,
    text: &mut String,
    plan: &Plan,
    cert: &Cert,
    i: u32,
    cond: Cond,
) -> Result<(), Memory> {
    let Some(fact) = known(cert, i) else {
        return Ok(());
    };
    let words = FactWords {
        fact,
        cells: cert.cells(),
    };
    writeln!(text, "{}", line_at(alloc, plan, cert.addr(i))?)?;
    writeln!(text, "known: {words}")?;
    match cond {
        Cond::C8 | Cond::C10 => push_steps(alloc, text, plan, cert, i, cond),
        _ => push_bounds(text, cert, i, cond),
    }
}
