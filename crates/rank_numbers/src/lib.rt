//! The numbers of a nest: the forms of a lexicographic ranking function put into one form at each
//! key, which is at least 1 and falls along each edge, or the levels of the nest up to the first
//! number that is too large.
//!
//! What is known of forms is the trait `Ranks` with its laws. docs/METHOD.md, "Numbers of a nest",
//! has the rules in words.
#![tactic(auto)]

mod leads;
mod level;
mod nest;
mod offset;
mod part;
mod ranks;
mod shift;

pub use level::{Level, Numbered};
pub use nest::numbers_of;
pub use ranks::Ranks;
