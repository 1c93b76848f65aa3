//! The outcomes of the instruction at an address, or the first condition that fails there.

ghost use Rattle.std.specs.Prelude.{◌≡◌, [], length, MatchResult, Some, None};
ghost use Rattle.abs_step.specs.Conditions.{fault, outcomes};

use crate::faults::word_fields;
use crate::{Cond, Scratch};
use flag_relation::Fact;
use memory_plan::Plan;
use num_domain::NumDomain;
use viper_decode::{instruction, legal};
use viper_word::Addr;

/// Makes the outcomes of the instruction at the address from a fact: the skipped side first, then
/// the targets in ascending order. The error is the first of C1 to C7 that fails, and then `scratch`
/// holds no outcome. An empty fact has none. The cells are those of the fact, in ascending order.
/// Takes no memory. docs/METHOD.md, "Outcomes" and "Conditions".
pub fn outcomes<D: NumDomain>(
    plan: &Plan,
    cells: &[Addr],
    at: Addr,
    fact: &Fact<D>,
    scratch: &mut Scratch<D>,
) -> Result<(), Cond>
    requires cells { length cells.now ≡ length fact.now.cells }
    requires room { scratch.old.cells ≡ length fact.now.cells }
    ensures fault { MatchResult result
        (λ _. fault D.domain plan.now cells.now at fact.now ≡ None)
        (λ c. fault D.domain plan.now cells.now at fact.now ≡ Some c) }
    ensures outcomes { MatchResult result
        (λ _. scratch.new.outcomes ≡ outcomes D.domain plan.now cells.now at fact.now)
        (λ _. scratch.new.outcomes ≡ []) }
    ensures cells { scratch.new.cells ≡ scratch.old.cells }
{
    scratch.clear();
    let Some(fields) = word_fields(plan, at) else {
        return Err(Cond::C1);
    };
    if !legal(fields) {
        return Err(Cond::C2);
    }
    match scratch.step(plan, cells, at, &instruction(fields), fact) {
        None => Ok(()),
        Some(fault) => Err(fault),
    }
}
