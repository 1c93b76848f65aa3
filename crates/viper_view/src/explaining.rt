//! Why `certify` refuses a plan.

ghost use Rattle.memory_plan.specs.WellFormed.{IsWellFormed};

use crate::answer::Answer;
use crate::conditions::push_failure;
use crate::crowds::push_nodes;
use crate::large::push_large;
use crate::listing::{KeyWords, line_at};
use crate::operands::Spot;
use crate::sweep::{Failing, first_failing};
use crate::unranked::push_unranked;
use crate::verdicts::push_bound;
use certifier::{Certified, CertifyFault, certify};
use memory_plan::Plan;
use std::alloc::Global;
use val_dom::Val;
use viper_word::Memory;

/// Appends that a plan has a certificate, and what a check of it says.
fn push_success(text: &mut String, made: &Certified<Val>) -> Result<(), Memory> {
    writeln!(text, "certify succeeds")?;
    writeln!(text, "nodes {}", made.cert.len())?;
    for (marker, bound) in made.bounds.iter() {
        push_bound(text, *marker, *bound)?;
    }
    Ok(())
}

/// Appends where a condition fails, what is known there, and why it fails.
fn push_failing(
    alloc: Global,
    text: &mut String,
    plan: &Plan,
    failing: &Failing,
) -> Result<(), Memory> {
    if let Some(from) = &failing.known.from {
        writeln!(text, "reached from {}", line_at(alloc, plan, from.addr)?)?;
    }
    let spot = Spot {
        plan,
        cells: &failing.cells,
        at: failing.key.addr,
        fact: &failing.known.fact,
    };
    push_failure(alloc, text, &spot, failing.cond)
}

/// Appends why there is no certificate.
fn push_fault(
    alloc: Global,
    text: &mut String,
    plan: &Plan,
    fault: &CertifyFault,
) -> Result<(), Memory>
    requires { IsWellFormed plan.now }
{
    match fault {
        CertifyFault::Undischarged(key, cond) => {
            writeln!(text, "undischarged {} {cond:?}", KeyWords { key })?;
            match first_failing(alloc, plan)? {
                Some(failing) => push_failing(alloc, text, plan, &failing),
                None => Ok(()),
            }
        }
        CertifyFault::Nodes(keys) => push_nodes(alloc, text, plan, keys),
        CertifyFault::Unranked(edges) => push_unranked(alloc, text, plan, edges),
        CertifyFault::Large(nest) => push_large(alloc, text, plan, nest),
        CertifyFault::Memory => Err(Memory),
    }
}

/// Why `certify` refuses a plan: its own text, and the lines, facts and numbers behind it; or that
/// it doesn't refuse (docs/VIEWING.md).
pub fn explain(alloc: Global, plan: &Plan) -> Result<Answer, Memory>
    requires { IsWellFormed plan.now }
{
    let mut text = String::new(alloc);
    match certify::<Val>(alloc, plan) {
        Ok(made) => {
            push_success(&mut text, &made)?;
            Ok(Answer { is_yes: true, text })
        }
        Err(fault) => {
            push_fault(alloc, &mut text, plan, &fault)?;
            Ok(Answer {
                is_yes: false,
                text,
            })
        }
    }
}
