//! What follows at an address from what is known at another.

ghost use Rattle.std.specs.Prelude.{◌≡◌, length};
ghost use Rattle.std.specs.List.{list_all};
ghost use Rattle.flag_relation.specs.Facts.{unknown};
ghost use Rattle.abs_step.specs.Places.{AllHaveCells};
ghost use Rattle.cert_checker.specs.Conditions.{is_data};
ghost use Rattle.cert_checker.specs.Filling.{arrivals, joined_on, joined, follows};

use abs_step::{Outcome, Scratch, outcomes};
use flag_relation::Fact;
use memory_plan::Plan;
use num_domain::NumDomain;
use viper_word::Addr;

/// Is each cell a word of data?
pub(crate) fn are_data(plan: &Plan, cells: &[Addr]) -> bool
    ensures { result ≡ list_all (λ c. is_data plan.now c) cells.now }
{
    match cells {
        [] => true,
        [first, others @ ..] => plan.data_range(*first).is_some() && are_data(plan, others),
    }
}

/// Joins what is known after each outcome that leads to the address.
fn join_arrivals<D: NumDomain>(at: Addr, outs: &[Outcome<D>], fact: &mut Fact<D>)
    requires { AllHaveCells (length fact.old.cells) outs.now }
    ensures joined { fact.new ≡ joined_on D.domain fact.old (arrivals at outs.now) }
    ensures count { length fact.new.cells ≡ length fact.old.cells }
{
    match outs {
        [] => (),
        [first, others @ ..] => {
            if first.target == at {
                fact.join_with(&first.after);
            }
            join_arrivals(at, others, fact);
        }
    }
}

/// Makes the fact the join of what is known after the outcomes that lead to the address, and `top`
/// where there is none.
pub(crate) fn arrive<D: NumDomain>(
    cells: &[Addr],
    at: Addr,
    outs: &[Outcome<D>],
    top: &Fact<D>,
    fact: &mut Fact<D>,
)
    requires top { top.now ≡ unknown D.domain (length cells.now) }
    requires outs { AllHaveCells (length fact.old.cells) outs.now }
    requires count { length fact.old.cells ≡ length top.now.cells }
    ensures joined { fact.new ≡ joined D.domain cells.now (arrivals at outs.now) }
    ensures count { length fact.new.cells ≡ length fact.old.cells }
{
    match outs {
        [] => fact.copy_from(top),
        [first, others @ ..] => {
            if first.target == at {
                fact.copy_from(&first.after);
                join_arrivals(at, others, fact);
            } else {
                arrive(cells, at, others, top, fact);
            }
        }
    }
}

/// Makes the fact what follows at `at` from what is known at `from`.
#[tactic(auto, unfolding(crate::specs::Filling::follows))]
pub(crate) fn follow<D: NumDomain>(
    plan: &Plan,
    cells: &[Addr],
    from: Addr,
    known: &Fact<D>,
    at: Addr,
    top: &Fact<D>,
    scratch: &mut Scratch<D>,
    fact: &mut Fact<D>,
)
    requires top { top.now ≡ unknown D.domain (length cells.now) }
    requires known { length cells.now ≡ length known.now.cells }
    requires scratch { scratch.old.cells ≡ length known.now.cells }
    requires count { length fact.old.cells ≡ length known.now.cells }
    requires top_count { length top.now.cells ≡ length known.now.cells }
    ensures follows { fact.new ≡ follows D.domain plan.now cells.now from known.now at }
    ensures count { length fact.new.cells ≡ length fact.old.cells }
    ensures scratch { scratch.new.cells ≡ scratch.old.cells }
{
    if !are_data(plan, cells) {
        fact.copy_from(top);
        return;
    }
    match outcomes(plan, cells, from, known, scratch) {
        Ok(()) => arrive(cells, at, scratch.outcomes_in(), top, fact),
        Err(_) => fact.copy_from(top),
    }
}
