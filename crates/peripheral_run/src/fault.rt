ghost use Rattle.std.specs.Prelude.{◌≡◌};
ghost use Rattle.peripheral_run.specs.declared.fault.ScriptFault.TheVariants as faults;

use std::alloc::AllocFailed;

/// The rules that a script may break (docs/FORMATS.md, "Scripts"). `Form` is looked for in the whole
/// text before `Start`.
#[derive(Clone, Copy, Debug, PartialEq, Eq)]
pub enum ScriptRule {
    /// The first line isn't a state, or a further one isn't a word.
    Form,
    /// No start line of the plan allows the state.
    Start,
}

/// Why a text could not be read as a script.
#[derive(Clone, Copy, Debug, PartialEq, Eq)]
pub enum ScriptFault {
    /// The line that breaks a rule first, counted from 1, and the rule.
    At { line: u32, rule: ScriptRule },
    /// An allocation found no memory.
    Memory,
}

impl<T: Drop> From<AllocFailed<T>> for ScriptFault {
    ghost from_gives = { λ _ e. e ≡ faults.Memory };

    fn from(_: AllocFailed<T>) -> ScriptFault {
        ScriptFault::Memory
    }
}
