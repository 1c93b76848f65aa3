//! Sets of signed values of words, as abstract interpretation uses them.
//!
//! `NumDomain` is a domain of such sets, `Pair` any two domains at once. The convention that every
//! function over-approximates is said once, in the laws: each implementation proves them, and the
//! layers above rest on nothing else. docs/METHOD.md, "Values", has what each function means.
#![tactic(auto)]

mod domain;
mod pair;
mod thresholds;

pub use domain::NumDomain;
pub use pair::Pair;
pub use thresholds::Thresholds;
