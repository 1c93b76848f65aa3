//! `run`: a run over a script, and its text.

ghost use Rattle.std.specs.Prelude.{◌≡◌, ◌++◌, IfOk, OnOk, codes, decimal};
ghost use Rattle.std.specs.List.{flat_map};
ghost use Rattle.viper_top.specs.Run.{output_line, bit_text, registers_text, cause_text, end_words, with_text, ran};
ghost use Rattle.viper_word.specs.Digits.{address_digits, word_digits};
ghost use Rattle.viper_top.specs.Stages.{ending_of};

use crate::answer::Answer;
use line_text::LineText;
use memory_plan::Plan;
use peripheral_run::{OutLog, RunEnd, Script, machine_of, run};
use std::alloc::Global;
use viper_next::{Cause, Machine};
use viper_word::{Addr, Memory, Word};

/// Appends the line of an output.
#[tactic(auto, unfolding(crate::specs::Run::output_line))]
fn push_output(text: &mut LineText, step: u64, at: Addr, word: Word) -> Result<(), Memory>
    ensures { OnOk result (text.new ≡ text.old ++ output_line (step, at, word)) }
{
    text.plain("out ")?;
    text.number(step)?;
    text.plain(" ")?;
    text.address(at)?;
    text.plain(" ")?;
    text.word(word)?;
    text.plain("\n")
}

/// The lines of outputs.
fn outputs_text(alloc: Global, outputs: &[(u64, Addr, Word)]) -> Result<LineText, Memory>
    ensures { IfOk result (λ text. text ≡ flat_map output_line outputs.now) }
{
    let mut text = LineText::new(alloc);
    for (step, at, word) in outputs {
        push_output(&mut text, *step, *at, *word)?;
    }
    Ok(text)
}

/// `0` or `1`.
fn bit_text(bit: bool) -> &'static str
    ensures { result.now ≡ bit_text bit }
{
    if bit { "1" } else { "0" }
}

/// The name of a cause.
fn cause_text(cause: Cause) -> &'static str
    ensures { result.now ≡ cause_text cause }
{
    match cause {
        Cause::End => "end",
        Cause::Illegal => "illegal",
        Cause::Address => "address",
        Cause::Overflow => "overflow",
        Cause::Target => "target",
    }
}

/// Appends a register's name and its word.
fn push_word(text: &mut LineText, name: &str, word: Word) -> Result<(), Memory>
    ensures { OnOk result (text.new ≡ text.old ++ (name.now ++ word_digits word.0)) }
{
    text.plain(name)?;
    text.word(word)
}

/// Appends P, A, X, Y and B.
#[tactic(auto, unfolding(crate::specs::Run::registers_text))]
fn push_registers(text: &mut LineText, machine: &Machine) -> Result<(), Memory>
    ensures { OnOk result (text.new ≡ text.old ++ registers_text machine.now.state) }
{
    text.plain(" P ")?;
    text.address(machine.p())?;
    push_word(text, " A ", machine.a())?;
    push_word(text, " X ", machine.x())?;
    push_word(text, " Y ", machine.y())?;
    text.plain(" B ")?;
    text.plain(bit_text(machine.b()))
}

/// Appends what a step number and an address have in common in the endings.
fn push_step(text: &mut LineText, front: &str, step: u64) -> Result<(), Memory>
    ensures { OnOk result (text.new ≡ text.old ++ (front.now ++ decimal step)) }
{
    text.plain(front)?;
    text.number(step)
}

/// Appends the registers after a run of so many steps.
fn push_ran(text: &mut LineText, steps: u64, machine: &Machine) -> Result<(), Memory>
    ensures { OnOk result (text.new
        ≡ text.old ++ (codes "ran " ++ decimal steps ++ registers_text machine.now.state)) }
{
    push_step(text, "ran ", steps)?;
    push_registers(text, machine)
}

/// Appends the step that stopped, and why.
fn push_stopped(text: &mut LineText, step: u64, cause: Cause) -> Result<(), Memory>
    ensures { OnOk result (text.new
        ≡ text.old ++ (codes "stopped " ++ decimal step ++ codes " " ++ cause_text cause)) }
{
    push_step(text, "stopped ", step)?;
    text.plain(" ")?;
    text.plain(cause_text(cause))
}

/// Appends a step and the address that it reads, behind the front of a line.
fn push_reading(text: &mut LineText, front: &str, step: u64, at: Addr) -> Result<(), Memory>
    ensures { OnOk result (text.new
        ≡ text.old ++ (front.now ++ decimal step ++ codes " " ++ address_digits at)) }
{
    push_step(text, front, step)?;
    text.plain(" ")?;
    text.address(at)
}

/// Appends a step, the address that it reads and the answer, behind the front of a line.
fn push_answer(
    text: &mut LineText,
    front: &str,
    step: u64,
    at: Addr,
    word: Word,
) -> Result<(), Memory>
    ensures { OnOk result (text.new ≡ text.old
        ++ (front.now ++ decimal step ++ codes " " ++ address_digits at
        ++ codes " " ++ word_digits word.0)) }
{
    push_reading(text, front, step, at)?;
    text.plain(" ")?;
    text.word(word)
}

/// Appends the ending, without the line's end.
#[tactic(auto, unfolding(crate::specs::Run::end_words))]
fn push_end(text: &mut LineText, steps: u64, machine: &Machine, end: &RunEnd) -> Result<(), Memory>
    ensures { OnOk result (text.new
        ≡ text.old ++ end_words steps machine.now.state end.now) }
{
    match *end {
        RunEnd::Ran => push_ran(text, steps, machine),
        RunEnd::Stopped(step, cause) => push_stopped(text, step, cause),
        RunEnd::ScriptEnded(step, at) => push_reading(text, "script ended ", step, at),
        RunEnd::OutOfRange(step, at, word) => { push_answer(text, "out of range ", step, at, word) }
    }
}

/// The text with the status of the ending: Done where all steps were performed.
fn with_text(end: &RunEnd, text: Vec<u8>) -> Answer
    ensures { ending_of result ≡ with_text end.now text.items }
{
    match *end {
        RunEnd::Ran => Answer::Done { text },
        RunEnd::Stopped(..) => Answer::Refused { text },
        RunEnd::ScriptEnded(..) => Answer::Refused { text },
        RunEnd::OutOfRange(..) => Answer::Refused { text },
    }
}

/// How a run of so many steps over the script ends (README.md, "Statuses and texts").
#[tactic(auto, unfolding(crate::specs::Run::ran, crate::specs::Run::run_text))]
pub fn follow(alloc: Global, plan: &Plan, script: &Script, steps: u64) -> Result<Answer, Memory>
    ensures { IfOk result (λ a. ending_of a ≡ ran plan.now script.now steps) }
{
    let mut machine = machine_of(alloc, plan, script)?;
    let mut log = OutLog::new(alloc, steps)?;
    let end = run(&mut machine, plan, script, steps, &mut log);
    let mut text = outputs_text(alloc, log.items())?;
    push_end(&mut text, steps, &machine, &end)?;
    text.plain("\n")?;
    Ok(with_text(&end, text.into_bytes()))
}
