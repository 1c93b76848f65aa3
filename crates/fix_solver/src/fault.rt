//! Why there is no solution.
use abs_step::Cond;
use flow_recover::Key;
use std::alloc::{AllocError, AllocFailed};
use viper_word::Memory;

/// Why a plan has no solution, or none was found (docs/METHOD.md, "What a refusal says").
#[derive(Drop)]
pub enum SolveFault {
    /// This condition, of C1 to C7, fails at this key in every candidate.
    Undischarged(Key, Cond),

    /// These 65,537 keys, all different, stand in every candidate.
    Nodes(Vec<Key>),

    /// Want of memory.
    Memory,
}

impl From<AllocError> for SolveFault {
    ghost use Rattle.std.specs.Prelude.{◌≡◌};
    ghost use Rattle.fix_solver.specs.declared.fault.SolveFault.TheVariants as faults;

    ghost from_gives = { λ _ e. e ≡ faults.Memory };

    fn from(_e: AllocError) -> SolveFault {
        SolveFault::Memory
    }
}

impl<T: Drop> From<AllocFailed<T>> for SolveFault {
    ghost use Rattle.std.specs.Prelude.{◌≡◌};
    ghost use Rattle.fix_solver.specs.declared.fault.SolveFault.TheVariants as faults;

    ghost from_gives = { λ _ e. e ≡ faults.Memory };

    fn from(_e: AllocFailed<T>) -> SolveFault {
        SolveFault::Memory
    }
}

impl From<Memory> for SolveFault {
    ghost use Rattle.std.specs.Prelude.{◌≡◌};
    ghost use Rattle.fix_solver.specs.declared.fault.SolveFault.TheVariants as faults;

    ghost from_gives = { λ _ e. e ≡ faults.Memory };

    fn from(_e: Memory) -> SolveFault {
        SolveFault::Memory
    }
}
