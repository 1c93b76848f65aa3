//! Congruences of signed words: all numbers with one residue.
//!
//! Each function's row is a definition of `specs/Congruences`; docs/METHOD.md, "Values", has them in
//! words.
#![tactic(auto)]

mod common_members;
mod congruence;
mod divisors;
mod rows;

pub use congruence::Congruence;
