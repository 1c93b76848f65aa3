ghost use Rattle.std.specs.Prelude.{◌≡◌};
ghost use Rattle.memory_plan.specs.Images.{numbers};
ghost use Rattle.peripheral_run.specs.Scripts.{began};

use std::marker::Model;
use viper_word::{Addr, Word};

/// A state in which a machine begins, and the answers of its peripherals in their order. Contracts
/// see it as the record `Scripted` of `specs/Scripts`.
#[derive(Debug, Drop)]
pub struct Script {
    pub(crate) state: (Addr, Word, Word, Word, bool),
    pub(crate) answers: Vec<Word>,
}

impl Model for Script {
    ghost use Rattle.memory_plan.specs.Images.{numbers};
    ghost use Rattle.peripheral_run.specs.Scripts.{Scripted, began};

    ghost Value = { Scripted };

    ghost view = { λ s. record { state = began s.state; answers = numbers s.answers.items } };
}

impl Script {
    /// P, A, X, Y and B in the beginning.
    pub fn state(&self) -> (Addr, Word, Word, Word, bool)
        ensures { began result ≡ self.now.state }
    {
        self.state
    }

    /// The answers in their order.
    pub fn answers(&self) -> &[Word]
        ensures { numbers result.now ≡ self.now.answers }
    {
        self.answers.as_slice()
    }
}
