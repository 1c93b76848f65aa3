//! One instruction of the machine: the state after it, and what it tells those outside.
//!
//! What a step does is defined in `viper_word/specs/Machine`, what it tells in `specs/Effects`.
#![tactic(auto)]

mod computing;
mod effect;
mod instruction;
mod machine;

pub use effect::Effect;
pub use machine::Machine;
pub use viper_word::Cause;

#[cfg(test)]
mod tests;
