//! Forms: numbers that are linear in registers and cells, with their bounds over facts and
//! outcomes.
//!
//! The ranks of a certificate are forms. What they are at the most and at the least over a fact,
//! and by how much they may rise over an outcome, decides whether they rank. Nothing here takes
//! memory. docs/METHOD.md, "Forms", has the rules in words, with an example.
#![tactic(auto)]

mod bound;
mod by_rates;
mod form;
mod laws;
mod levels;
mod place;
mod rates;
mod step;
mod terms;

pub use form::{falls_by, lower, rise, upper};
pub use laws::{bound_laws, form_laws, side_laws};
pub use levels::{direction, level, lowest, shift};
pub use step::{after, upper_after};
