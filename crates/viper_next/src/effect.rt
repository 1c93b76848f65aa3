use viper_word::{Addr, Cause, Word};

/// What a step tells those outside the machine.
#[derive(Clone, Copy, Debug, PartialEq, Eq)]
pub enum Effect {
    /// Nothing: it changed registers at the most, or the machine was stopped before.
    Quiet,
    /// The word was stored to memory at the address.
    Wrote(Addr, Word),
    /// The word was put out to the peripheral at the address.
    Out(Addr, Word),
    /// This step stopped the machine.
    Stopped(Cause),
}
