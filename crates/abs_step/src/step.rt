//! One abstract step: both sides of an instruction, and what comes of each.

ghost use Rattle.std.specs.Prelude.{◌≡◌, ◌≤◌, ◌<◌, ◌+◌, ◌^◌, ◌++◌, [], true, length, MatchResult, Some, None};
ghost use Rattle.flag_relation.specs.Facts.{values};
ghost use Rattle.flag_relation.specs.Refining.{assume};
ghost use Rattle.viper_word.specs.Options.{bind};
ghost use Rattle.abs_step.specs.OutcomeLists.{all_same, each, is_live, live, outcome};
ghost use Rattle.abs_step.specs.Outcomes.{performed, skipped_side};
ghost use Rattle.abs_step.specs.Stores.{spot, stored};
ghost use Rattle.abs_step.specs.Conditions.{c5};
ghost use Rattle.abs_step.specs.declared.outcome.TheConstants.{MOST_TARGETS};

use crate::draft::Draft;
use crate::faults::assume_live;
use crate::making::{assign_to, compare, jump, next, put_out, store_at_one, store_at_several};
use crate::places::Places;
use flag_relation::{Fact, Spare};
use memory_plan::Plan;
use num_domain::NumDomain;
use viper_decode::{Instruction, Place, Side, Source};
use viper_word::Addr;

/// The outcomes of a store.
#[tactic(auto, unfolding(crate::specs::Stores::stored))]
fn store<D: NumDomain>(
    cells: &[Addr],
    at: Addr,
    source: Source,
    place: &Place,
    side: &Fact<D>,
    draft: &mut Draft<D>,
    places: &mut Places<D>,
)
    requires cells { length cells.now ≡ length side.now.cells }
    requires draft { draft.old ≡ length side.now.cells }
    requires places { places.old.cells ≡ length side.now.cells }
    requires room { length places.old.outcomes + 2 ≤ places.old.room }
    requires next { at + 1 < 2 ^ 20 }
    ensures outcomes { places.new ≡ record places.old {
      outcomes = places.old.outcomes
          ++ stored D.domain cells.now at side.now source place.now
          (spot D.domain place.now (values side.now));
    } }
    ensures draft { draft.new ≡ draft.old }
{
    store_at_one(cells, at, source, place, side, draft, places);
    store_at_several(cells, at, source, place, side, draft, places);
}

/// What the instruction makes of its taken side.
#[tactic(auto, unfolding(crate::specs::Outcomes::performed, crate::specs::Conditions::c5))]
pub(crate) fn perform<D: NumDomain>(
    plan: &Plan,
    cells: &[Addr],
    at: Addr,
    instruction: &Instruction,
    side: &Fact<D>,
    draft: &mut Draft<D>,
    places: &mut Places<D>,
)
    requires cells { length cells.now ≡ length side.now.cells }
    requires draft { draft.old ≡ length side.now.cells }
    requires places { places.old.cells ≡ length side.now.cells }
    requires room { length places.old.outcomes + MOST_TARGETS ≤ places.old.room }
    requires next { at + 1 < 2 ^ 20 }
    requires targets { c5 D.domain plan.now cells.now at instruction.now side.now ≡ true }
    ensures outcomes { places.new ≡ record places.old {
      outcomes = places.old.outcomes
          ++ performed D.domain plan.now cells.now at instruction.now side.now;
    } }
    ensures draft { draft.new ≡ draft.old }
{
    match instruction {
        Instruction::Compare(joins, kind, source, operand) => compare(
            plan, cells, at, *joins, *kind, *source, operand, side, draft, places,
        ),
        Instruction::Assign(to, work) => {
            assign_to(plan, cells, at, *to, work, side, draft, places)
        }
        Instruction::Jump(when, work) => jump(plan, cells, at, *when, work, side, draft, places),
        Instruction::Output(source, place) => {
            put_out(plan, cells, at, *source, place, side, draft, places)
        }
        Instruction::Store(source, place) => {
            store(cells, at, *source, place, side, draft, places)
        }
    }
}

/// The outcome of a jump that is skipped because B isn't what it asks for: nothing changes.
fn skip_jump<D: NumDomain>(
    cells: &[Addr],
    at: Addr,
    truth: bool,
    fact: &Fact<D>,
    draft: &mut Draft<D>,
    spare: &mut Spare<D>,
    places: &mut Places<D>,
)
    requires cells { length cells.now ≡ length fact.now.cells }
    requires draft { draft.old ≡ length fact.now.cells }
    requires spare { spare.old ≡ length fact.now.cells }
    requires places { places.old.cells ≡ length fact.now.cells }
    requires room { length places.old.outcomes < places.old.room }
    requires next { at + 1 < 2 ^ 20 }
    ensures outcomes { places.new ≡ record places.old {
      outcomes = places.old.outcomes ++ each (bind (assume D.domain fact.now truth) (live D.domain))
          (λ g. outcome D.domain (at + 1) g g (all_same cells.now));
    } }
    ensures draft { draft.new ≡ draft.old }
    ensures spare { spare.new ≡ spare.old }
{
    draft.after.copy_from(fact);
    if assume_live(&mut draft.after, truth, spare) {
        draft.posts.stay(cells);
        places.keep(next(at), &draft.after, &draft.after, &draft.posts);
    }
}

/// The outcome of the skipped side, where there is one.
#[tactic(auto, unfolding(crate::specs::Outcomes::skipped_side))]
pub(crate) fn skip<D: NumDomain>(
    cells: &[Addr],
    at: Addr,
    instruction: &Instruction,
    fact: &Fact<D>,
    draft: &mut Draft<D>,
    spare: &mut Spare<D>,
    places: &mut Places<D>,
)
    requires cells { length cells.now ≡ length fact.now.cells }
    requires draft { draft.old ≡ length fact.now.cells }
    requires spare { spare.old ≡ length fact.now.cells }
    requires places { places.old.cells ≡ length fact.now.cells }
    requires room { length places.old.outcomes < places.old.room }
    requires next { at + 1 < 2 ^ 20 }
    ensures outcomes { places.new ≡ record places.old {
      outcomes = places.old.outcomes ++ each (skipped_side D.domain instruction.now fact.now)
          (λ g. outcome D.domain (at + 1) g g (all_same cells.now));
    } }
    ensures draft { draft.new ≡ draft.old }
    ensures spare { spare.new ≡ spare.old }
{
    match instruction {
        Instruction::Jump(Side::IfB, _) => {
            skip_jump(cells, at, false, fact, draft, spare, places)
        }
        Instruction::Jump(Side::IfNotB, _) => {
            skip_jump(cells, at, true, fact, draft, spare, places)
        }
        Instruction::Jump(Side::Always, _) => (),
        Instruction::Compare(_, _, _, _) => (),
        Instruction::Assign(_, _) => (),
        Instruction::Output(_, _) => (),
        Instruction::Store(_, _) => (),
    }
}
