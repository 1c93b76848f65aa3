//! Values: evenly spaced sets of signed words, which the certificates and the solver use.
//!
//! A value is an interval with a congruence in normal form, and each of its functions is that of the
//! pair. docs/METHOD.md, "Values", has the rows in words.
#![tactic(auto)]

mod val;

pub use val::Val;

#[cfg(test)]
mod tests;
