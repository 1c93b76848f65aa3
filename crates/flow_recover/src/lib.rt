//! What is tracked where: keys, which are addresses with the calls on the way to them; the words of
//! memory that facts track; and the numbers that facts are rounded to. docs/METHOD.md, "Keys",
//! "Cells" and "Thresholds".
#![tactic(auto)]

mod cells;
mod context;
mod key;
#[cfg(test)]
mod tests;
mod thresholds;

pub use cells::cells_of;
pub use context::Context;
pub use key::{Key, next_context};
pub use thresholds::thresholds_of;
