//! Intervals of signed words: all numbers from a least one to a greatest one.
//!
//! Each function's row is a definition of `specs/Intervals`; docs/METHOD.md, "Values", has them in
//! words.
#![tactic(auto)]

mod interval;
mod rows;

pub use interval::Interval;
