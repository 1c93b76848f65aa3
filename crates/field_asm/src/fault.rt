ghost use Rattle.std.specs.Prelude.{◌≡◌};
ghost use Rattle.field_asm.specs.declared.fault.AsmFault.TheVariants as faults;

use std::alloc::{AllocError, AllocFailed};
use viper_word::Memory;

/// The rules that a line of a source may break (docs/FORMATS.md, "Sources").
#[derive(Clone, Copy, Debug, PartialEq, Eq)]
pub enum AsmRule {
    /// It has neither two tokens with `label` first, nor three with `WORD` second, nor six.
    Form,
    /// A name isn't in its table, or a label is misshapen.
    Name,
    /// Digits are wrong, or a first token is no place.
    Number,
    /// The address or the label was given before.
    Twice,
    /// `+` or a label would stand for 2^20.
    Range,
    /// No line gives the label.
    Label,
}

/// Why a text could not be assembled.
#[derive(Clone, Copy, Debug, PartialEq, Eq)]
pub enum AsmFault {
    /// The first line that breaks a rule, counted from 1, and the rule.
    At { line: u32, rule: AsmRule },
    /// An allocation found no memory.
    Memory,
}

impl From<AllocError> for AsmFault {
    ghost from_gives = { λ _ e. e ≡ faults.Memory };

    fn from(_: AllocError) -> AsmFault {
        AsmFault::Memory
    }
}

impl From<Memory> for AsmFault {
    ghost from_gives = { λ _ e. e ≡ faults.Memory };

    fn from(_: Memory) -> AsmFault {
        AsmFault::Memory
    }
}

impl<T: Drop> From<AllocFailed<T>> for AsmFault {
    ghost from_gives = { λ _ e. e ≡ faults.Memory };

    fn from(_: AllocFailed<T>) -> AsmFault {
        AsmFault::Memory
    }
}
