//! Programs as people write them: the names in a word, and source texts.
#![tactic(auto)]

mod assembling;
mod fault;
mod laws;
mod names;
mod so_far;
mod source_line;
mod tables;
#[cfg(test)]
mod tests;
mod tokens;

pub use assembling::assemble;
pub use fault::{AsmFault, AsmRule};
pub use laws::one_source;
pub use names::Names;
pub use tables::{comparisons, destinations, functions, modes, registers};
