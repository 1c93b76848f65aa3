ghost use Rattle.std.specs.Prelude.{◌≡◌, ◌≤◌, ◌<◌, ◌++◌, ◌∷◌, [], length, IfOk};

use std::alloc::Global;
use std::marker::Model;
use viper_word::{Addr, Memory, Word};

/// The outputs of a run in their order: the number of the step, the peripheral address and the word.
/// Its memory is taken once. Contracts see it as the record `Log` of `specs/Log`.
#[derive(Drop)]
pub struct OutLog {
    items: Vec<(u64, Addr, Word)>,
    room: u64,
}

impl Model for OutLog {
    ghost use Rattle.std.specs.Prelude.{◌≤◌};
    ghost use Rattle.std.specs.Vec.{vec_capacity};
    ghost use Rattle.peripheral_run.specs.Log.{Log};

    ghost Value = { Log };

    ghost view = { λ o. record { items = o.items.items; room = o.room } };

    ghost invariant = { λ o. o.room ≤ vec_capacity o.items };
}

impl OutLog {
    /// An empty log with room for so many outputs. `Memory` where an allocation found none.
    pub fn new(alloc: Global, room: u64) -> Result<OutLog, Memory>
        ensures empty { IfOk result (λ log. log.items ≡ []) }
        ensures room { IfOk result (λ log. log.room ≡ room) }
    {
        let items = Vec::with_capacity(alloc, room as usize)?;
        Ok(OutLog { items, room })
    }

    /// The outputs in their order.
    pub fn items(&self) -> &[(u64, Addr, Word)]
        ensures { result.now ≡ self.now.items }
    {
        self.items.as_slice()
    }

    /// Enters an output.
    pub(crate) fn enter(&mut self, step: u64, at: Addr, word: Word)
        requires { length self.old.items < self.old.room }
        ensures items { self.new.items ≡ self.old.items ++ (step, at, word) ∷ [] }
        ensures room { self.new.room ≡ self.old.room }
    {
        if self.items.push((step, at, word)).is_err() {
            unreachable!()
        }
    }
}
