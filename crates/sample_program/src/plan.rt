//! The plan over a sample.

ghost use Rattle.std.specs.Prelude.{◌≡◌, ◌*◌, ◌+◌, IfOk};
ghost use Rattle.memory_plan.specs.WellFormed.{IsWellFormed};
ghost use Rattle.sample_program.specs.declared.words.TheConstants.{LOOP_WORDS};
ghost use Rattle.sample_program.specs.Samples.{sample_text, sample_plan};

use crate::loops::Loops;
use crate::words::{LOOP_WORDS, sample_image};
use line_text::LineText;
use memory_plan::{Plan, PlanFault, read_plan};
use std::alloc::Global;
use viper_word::{Addr, Memory};

/// The address of its last word.
fn last_address(loops: Loops) -> Addr
    ensures { result ≡ LOOP_WORDS * loops + 1 }
{
    let last = LOOP_WORDS * loops.get() as u32 + 1;
    Addr::new(last).unwrap()
}

/// The lines of the plan: all words are code, its marker and its one start are at address 0, and
/// the registers may have any values there.
fn plan_text(alloc: Global, loops: Loops) -> Result<LineText, Memory>
    ensures { IfOk result (λ text. text ≡ sample_text loops) }
{
    let mut text = LineText::new(alloc);
    text.plain("code 00000 ")?;
    text.address(last_address(loops))?;
    text.plain("\nmarker 00000\nstart 00000 any any any any\n")?;
    Ok(text)
}

/// The plan of a sample, over its image.
#[tactic(auto, using(crate::proofs::PlanReading::is_sample, crate::proofs::PlanReading::no_fault, crate::proofs::PlanReading::text_short))]
pub fn sample_plan(alloc: Global, loops: Loops) -> Result<Plan, Memory>
    ensures plan { IfOk result (λ plan. plan ≡ sample_plan loops) }
    ensures well_formed { IfOk result IsWellFormed }
{
    let _few = loops.get();
    let image = sample_image(alloc, loops)?;
    let text = plan_text(alloc, loops)?;
    match read_plan(alloc, text.bytes(), &image) {
        Ok(plan) => Ok(plan),
        Err(PlanFault::Memory) => Err(Memory),
        Err(PlanFault::At { .. }) => {
            prove!(false);
            Err(Memory)
        }
    }
}
