//! Why `check` refuses a certificate.

ghost use Rattle.cert_format.specs.Limits.{IsWithinLimits};

use crate::answer::Answer;
use crate::conditions::push_failure;
use crate::differences::Both;
use crate::fact_words::FactWords;
use crate::flows::push_flow_failure;
use crate::operands::Spot;
use crate::steps::includes;
use crate::table::known;
use crate::verdicts::{push_bound, push_refusal};
use abs_step::{Cond, start_fact};
use cert_checker::{Place, Refusal, Verdict, check, fill};
use cert_format::Cert;
use flag_relation::{Fact, MOST_CELLS};
use memory_plan::{Plan, Start};
use std::alloc::Global;
use val_dom::Val;
use viper_word::Memory;

/// Appends why no listed node covers a start line.
fn push_start(
    alloc: Global,
    text: &mut String,
    plan: &Plan,
    cert: &Cert,
    start: &Start,
) -> Result<(), Memory> {
    let cells = cert.cells();
    if cells.len() > MOST_CELLS as usize {
        return Ok(());
    }
    let mut fact: Fact<Val> = Fact::new(alloc, cells.len() as u8)?;
    start_fact(plan, cells, start, &mut fact);
    writeln!(text, "known: {}", FactWords { fact: &fact, cells })?;
    let mut is_listed = false;
    for number in cert.starts() {
        if *number < cert.len() && cert.addr(*number) == start.at {
            is_listed = true;
            push_uncovered(text, cert, *number, &fact)?;
        }
    }
    if !is_listed {
        writeln!(text, "H2: no start node stands at {:05X}", start.at.get())?;
    }
    Ok(())
}

/// Appends where a start node doesn't include the start's fact.
fn push_uncovered(text: &mut String, cert: &Cert, i: u32, start: &Fact<Val>) -> Result<(), Memory> {
    let Some(fact) = known(cert, i) else {
        return Ok(());
    };
    if includes(fact, start) {
        return Ok(());
    }
    writeln!(text, "H2: the start node there is node {i}")?;
    let both = Both {
        cells: cert.cells(),
        fact,
        other: start,
        has: "it",
        gives: "the start line",
    };
    both.push_differences(text)
}

/// Appends why a condition fails at a node of a certificate without bare nodes.
fn push_node(
    alloc: Global,
    text: &mut String,
    plan: &Plan,
    cert: &Cert,
    i: u32,
    cond: Cond,
) -> Result<(), Memory> {
    match cond {
        Cond::C1 | Cond::C2 | Cond::C3 | Cond::C4 | Cond::C5 | Cond::C6 | Cond::C7 => match known(
            cert, i,
        ) {
            None => Ok(()),
            Some(fact) => {
                let spot = Spot {
                    plan,
                    cells: cert.cells(),
                    at: cert.addr(i),
                    fact,
                };
                push_failure(alloc, text, &spot, cond)
            }
        },
        Cond::H1 | Cond::H2 | Cond::C8 | Cond::C9 | Cond::C10 | Cond::C11 => {
            push_flow_failure(alloc, text, plan, cert, i, cond)
        }
    }
}

/// Appends why the first condition that fails does so. `cert` has no bare node.
fn push_reason(
    alloc: Global,
    text: &mut String,
    plan: &Plan,
    cert: &Cert,
    refusal: &Refusal,
) -> Result<(), Memory> {
    match refusal.place {
        Place::Cell(_) => {
            let at = refusal.addr.get();
            writeln!(text, "H1: {at:05X} is a cell, and no word of data")?;
            Ok(())
        }
        Place::Start(number) => {
            for (i, start) in plan.starts().iter().enumerate() {
                if i as u64 == number {
                    push_start(alloc, text, plan, cert, start)?;
                }
            }
            Ok(())
        }
        Place::Node(number) => match u32::try_from(number) {
            Ok(i) => push_node(alloc, text, plan, cert, i, refusal.cond),
            Err(_) => Ok(()),
        },
    }
}

/// Why `check` refuses a certificate: its own text, and the lines, facts and numbers behind it; or
/// that it says yes (docs/VIEWING.md).
pub fn judge(alloc: Global, plan: &Plan, cert: &Cert) -> Result<Answer, Memory>
    requires { IsWithinLimits cert.now }
{
    let mut text = String::new(alloc);
    match check(alloc, plan, cert)? {
        Verdict::Yes(bounds) => {
            writeln!(text, "yes")?;
            for (marker, bound) in bounds.iter() {
                push_bound(&mut text, *marker, *bound)?;
            }
            Ok(Answer { is_yes: true, text })
        }
        Verdict::No(refusal) => {
            let full = fill(alloc, plan, cert)?;
            push_refusal(&mut text, &refusal)?;
            push_reason(alloc, &mut text, plan, &full, &refusal)?;
            Ok(Answer {
                is_yes: false,
                text,
            })
        }
    }
}
