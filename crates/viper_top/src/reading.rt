ghost use Rattle.std.specs.Prelude.{◌≡◌, IfOk};
ghost use Rattle.viper_top.specs.Commands.{work_of};
ghost use Rattle.viper_top.specs.Stages.{order_view, left, CameTo, SteppedTo, Stays, count_left, IsFewer, IsSound};

use crate::answer::{Answer, Stop};
use crate::command_line::Command;
use crate::stage::{Next, Stage, begin};
use crate::task::work;
use std::alloc::Global;
use viper_io::{FetchFault, Store};

/// Fetches the content that is due, and takes it in.
#[tactic(auto, using(crate::proofs::Growth::stays_fetch))]
fn step<'a, S: Store>(alloc: Global, store: &mut S, stage: Stage<'a>) -> Result<Next<'a>, Stop>
    ensures stepped { SteppedTo (left stage.entry) (S.stock store.old) (S.stock store.new) result }
    ensures stays { Stays (S.stock store.old) (S.stock store.new) }
    ensures fewer { IfOk result (IsFewer (count_left stage.entry)) }
    ensures sound { IfOk result IsSound }
{
    let asked = stage.asked();
    match store.fetch(alloc, asked.name, asked.limit) {
        Ok(bytes) => Ok(stage.take(alloc, &bytes)?),
        Err(FetchFault::Long) => Ok(Next::Over(Answer::too_long(alloc, asked.title)?)),
        Err(FetchFault::Failed) => Err(Stop::Outside),
        Err(FetchFault::Memory) => Err(Stop::Memory),
    }
}

/// Reads what is left, one content after the other, and does what is to be done.
fn read_on<S: Store>(alloc: Global, store: &mut S, stage: Stage<'_>) -> Result<Answer, Stop>
    ensures came { CameTo (left stage.entry) (S.stock store.old) (S.stock store.new) result }
    ensures stays { Stays (S.stock store.old) (S.stock store.new) }
{
    match step(alloc, store, stage) {
        Err(stop) => Err(stop),
        Ok(Next::Over(answer)) => Ok(answer),
        Ok(Next::Ready(task)) => Ok(work(alloc, task)?),
        Ok(Next::Due(stage)) => read_on(alloc, store, stage),
    }
}

/// The answer to a command: its contents, each fetched once, in order, and then its work.
pub fn answer<S: Store>(alloc: Global, store: &mut S, command: &Command<'_>) -> Result<Answer, Stop>
    ensures came { CameTo (work_of (order_view command.now))
        (S.stock store.old) (S.stock store.new) result }
    ensures stays { Stays (S.stock store.old) (S.stock store.new) }
{
    match begin(command) {
        Next::Over(answer) => Ok(answer),
        Next::Ready(task) => Ok(work(alloc, task)?),
        Next::Due(stage) => read_on(alloc, store, stage),
    }
}
