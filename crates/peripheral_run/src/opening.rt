//! The machine in the state in which a script begins.

ghost use Rattle.std.specs.Prelude.{◌≡◌, ◌≤◌, ◌<◌, ◌+◌, IfOk};
ghost use Rattle.std.specs.Int.{w32, cast_unsigned};
ghost use Rattle.memory_plan.specs.Images.{entries};
ghost use Rattle.peripheral_run.specs.Opening.{opening, Fills, word_between, least_in, words_over};

use crate::script::Script;
use memory_plan::{Plan, Range};
use std::alloc::Global;
use viper_next::Machine;
use viper_word::{Addr, Memory, Word, of_signed};

/// The word of the least number of a range.
fn least_word(range: Range) -> Word
    ensures { result.0 ≡ cast_unsigned w32 range.lo }
{
    match of_signed(range.lo) {
        Some(word) => word,
        None => unreachable!(),
    }
}

/// Puts a word at each address from `lo` to `hi`.
fn fill(machine: &mut Machine, lo: Addr, hi: Addr, word: Word)
    ensures profile { machine.new.profile ≡ machine.old.profile }
    ensures filled { Fills machine.old.state machine.new.state
        (word_between lo hi word.0 machine.old.state) }
{
    let mut next = lo.get();
    while next <= hi.get() {
        let Some(at) = Addr::new(next) else {
            unreachable!()
        };
        machine.load(at, word);
        next += 1;
    }
}

/// Puts the least number of each span into it. Where spans meet, the first decides.
fn fill_spans(machine: &mut Machine, spans: &[(Addr, Addr, Range)])
    ensures profile { machine.new.profile ≡ machine.old.profile }
    ensures filled { Fills machine.old.state machine.new.state
        (least_in spans.now machine.old.state) }
{
    let mut left = spans.len();
    while left > 0 {
        left -= 1;
        let span = &spans[left];
        fill(machine, span.0, span.1, least_word(span.2));
    }
}

/// Puts words at their addresses. Where an address stands twice, the first decides.
fn load_words(machine: &mut Machine, words: &[(Addr, Word)])
    ensures profile { machine.new.profile ≡ machine.old.profile }
    ensures filled { Fills machine.old.state machine.new.state
        (words_over (entries words.now) machine.old.state) }
{
    let mut left = words.len();
    while left > 0 {
        left -= 1;
        let entry = &words[left];
        machine.load(entry.0, entry.1);
    }
}

/// The machine of the plan's profile in the script's state. Memory has the image's words, the least
/// number of its range in data that the image doesn't give, and 0 elsewhere. `Memory` where an
/// allocation found none.
pub fn machine_of(alloc: Global, plan: &Plan, script: &Script) -> Result<Machine, Memory>
    ensures profile { IfOk result (λ m. m.profile ≡ plan.now.profile) }
    ensures state { IfOk result (λ m. m.state ≡ opening plan.now script.now.state) }
{
    let (p, a, x, y, b) = script.state();
    let mut machine = Machine::new(alloc, plan.profile(), p, a, x, y, b)?;
    fill_spans(&mut machine, plan.data_spans());
    load_words(&mut machine, plan.image_words());
    Ok(machine)
}
