//! The word at an address, its taken side, and the first of the conditions that fails of it.

ghost use Rattle.std.specs.Prelude.{◌≡◌, length};
ghost use Rattle.flag_relation.specs.InPlace.{left};
ghost use Rattle.flag_relation.specs.Refining.{assume};
ghost use Rattle.viper_word.specs.Options.{bind};
ghost use Rattle.abs_step.specs.OutcomeLists.{live};
ghost use Rattle.abs_step.specs.Outcomes.{taken_side};
ghost use Rattle.abs_step.specs.Conditions.{word_fields};
ghost use Rattle.abs_step.specs.Faults.{side_fault};

use crate::Cond;
use crate::conditions::{keeps_c3, keeps_c4, keeps_c5, keeps_c6, keeps_c7};
use flag_relation::{Fact, Spare, assume};
use memory_plan::Plan;
use num_domain::NumDomain;
use viper_decode::{Fields, Instruction, Side, decode};
use viper_word::Addr;

/// The numbers of the word at an address in code, which isn't the last address of all.
pub(crate) fn word_fields(plan: &Plan, at: Addr) -> Option<Fields>
    ensures { result ≡ word_fields plan.now at }
{
    if at.get() == Addr::LAST {
        return None;
    }
    match plan.code_word(at) {
        None => None,
        Some(word) => Some(decode(word)),
    }
}

/// The first of C3 to C7 that fails of a taken side.
#[tactic(auto, unfolding(crate::specs::Faults::side_fault, crate::specs::Conditions::side_keeps))]
pub(crate) fn side_fault<D: NumDomain>(
    plan: &Plan,
    cells: &[Addr],
    at: Addr,
    instruction: &Instruction,
    side: &Fact<D>,
) -> Option<Cond>
    ensures { result ≡ side_fault D.domain plan.now cells.now at instruction.now side.now }
{
    if !keeps_c3(plan, instruction, side) {
        return Some(Cond::C3);
    }
    if !keeps_c4(plan, cells, at, instruction, side) {
        return Some(Cond::C4);
    }
    if !keeps_c5(plan, cells, at, instruction, side) {
        return Some(Cond::C5);
    }
    if !keeps_c6(plan, at, instruction, side) {
        return Some(Cond::C6);
    }
    if !keeps_c7(plan, at, instruction, side) {
        return Some(Cond::C7);
    }
    None
}

/// Refines the fact by B being `truth`. False exactly where no state is left, or an empty fact.
pub(crate) fn assume_live<D: NumDomain>(
    side: &mut Fact<D>,
    truth: bool,
    spare: &mut Spare<D>,
) -> bool
    requires room { spare.old ≡ length side.old.cells }
    ensures value { left result side.new ≡ bind (assume D.domain side.old truth) (live D.domain) }
    ensures count { length side.new.cells ≡ length side.old.cells }
    ensures room { spare.new ≡ spare.old }
{
    assume(side, truth, spare) && !side.is_empty()
}

/// Makes the fact its taken side. False exactly where there is none.
#[tactic(auto, unfolding(crate::specs::Outcomes::taken_side))]
pub(crate) fn take_side<D: NumDomain>(
    instruction: &Instruction,
    side: &mut Fact<D>,
    spare: &mut Spare<D>,
) -> bool
    requires room { spare.old ≡ length side.old.cells }
    ensures value { left result side.new ≡ taken_side D.domain instruction.now side.old }
    ensures count { length side.new.cells ≡ length side.old.cells }
    ensures room { spare.new ≡ spare.old }
{
    match instruction {
        Instruction::Jump(Side::IfB, _) => assume_live(side, true, spare),
        Instruction::Jump(Side::IfNotB, _) => assume_live(side, false, spare),
        Instruction::Jump(Side::Always, _) => true,
        Instruction::Compare(_, _, _, _) => true,
        Instruction::Assign(_, _) => true,
        Instruction::Output(_, _) => true,
        Instruction::Store(_, _) => true,
    }
}
