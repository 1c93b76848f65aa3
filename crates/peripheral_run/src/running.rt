//! A run of the machine over a script.

ghost use Rattle.std.specs.Prelude.{◌≡◌, ◌≤◌, ◌<◌, [], length, IfOk, IfErr, Ok, Err};
ghost use Rattle.memory_plan.specs.Images.{numbers};
ghost use Rattle.memory_plan.specs.Plans.{range_at};
ghost use Rattle.peripheral_run.specs.Runs.{run_of, may_answer, answer_for};

use crate::out_log::OutLog;
use crate::script::Script;
use memory_plan::Plan;
use viper_next::{Effect, Machine};
use viper_word::{Addr, Cause, Word, signed};

/// How a run ends. Steps are numbered from 0.
#[derive(Clone, Copy, Debug, PartialEq, Eq)]
pub enum RunEnd {
    /// All steps were performed.
    Ran,
    /// The step stopped the machine.
    Stopped(u64, Cause),
    /// The step reads the peripheral, and no answer is left.
    ScriptEnded(u64, Addr),
    /// The step reads the peripheral, and the next answer isn't in its range.
    OutOfRange(u64, Addr, Word),
}

/// May the peripheral at the address answer with the word? One that isn't declared may answer with
/// any.
fn may_answer(plan: &Plan, at: Addr, word: Word) -> bool
    ensures { result ≡ may_answer (range_at plan.now.inputs at) word.0 }
{
    match plan.input_range(at) {
        None => true,
        Some(range) => range.has(signed(word)),
    }
}

/// The answer that step `k` is given, and those that are left; or why it is given none.
fn answer_for<'a>(
    plan: &Plan,
    k: u64,
    wanted: Option<Addr>,
    answers: &'a [Word],
) -> Result<(Word, &'a [Word]), RunEnd>
    ensures given { IfOk result (λ x. answer_for plan.now k wanted (numbers answers.now)
        ≡ Ok (x.0.0, numbers x.1.now)) }
    ensures none { IfErr result (λ e. answer_for plan.now k wanted (numbers answers.now) ≡ Err e) }
{
    let Some(at) = wanted else {
        return Ok((Word(0), answers));
    };
    match answers {
        [] => Err(RunEnd::ScriptEnded(k, at)),
        [word, rest @ ..] => {
            if may_answer(plan, at, *word) {
                Ok((*word, rest))
            } else {
                Err(RunEnd::OutOfRange(k, at, *word))
            }
        }
    }
}

/// Runs so many steps over the script's answers (docs/FORMATS.md, "Scripts"). A step that reads a
/// peripheral takes the next answer: `ScriptEnded` comes where none is left, `OutOfRange` where it
/// isn't in the plan's range of the address, and the machine is then as before that step. `Stopped`
/// comes where the step stops the machine. Each output is entered in the log. It takes no memory.
pub fn run(
    machine: &mut Machine,
    plan: &Plan,
    script: &Script,
    steps: u64,
    log: &mut OutLog,
) -> RunEnd
    requires empty { log.old.items ≡ [] }
    requires room { steps ≤ log.old.room }
    requires profile { machine.old.profile ≡ plan.now.profile }
    ensures ending { result ≡ (run_of plan.now steps script.now.answers machine.old.state).ending }
    ensures outputs { log.new.items
        ≡ (run_of plan.now steps script.now.answers machine.old.state).outputs }
    ensures state { machine.new.state
        ≡ (run_of plan.now steps script.now.answers machine.old.state).last }
    ensures profile { machine.new.profile ≡ machine.old.profile }
    ensures room { log.new.room ≡ log.old.room }
{
    let mut answers = script.answers();
    for k in 0..steps {
        match answer_for(plan, k, machine.wants(), answers) {
            Err(ending) => return ending,
            Ok((answer, left)) => {
                answers = left;
                match machine.step(answer) {
                    Effect::Stopped(cause) => return RunEnd::Stopped(k, cause),
                    Effect::Out(at, word) => log.enter(k, at, word),
                    Effect::Wrote(..) => {}
                    Effect::Quiet => {}
                }
            }
        }
    }
    RunEnd::Ran
}
