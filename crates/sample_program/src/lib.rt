//! The program of the command `sample`: loops in a row, each with a call behind it, and the plan over
//! them (README.md, "Statuses and texts"; docs/METHOD.md, "The sample").
#![tactic(auto)]

mod loops;
mod plan;
mod words;

pub use loops::{Loops, MOST_LOOPS};
pub use plan::sample_plan;
