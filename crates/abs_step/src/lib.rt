//! One abstract step: what an instruction makes of a fact, and the conditions under which it is safe.
//!
//! docs/METHOD.md, "Outcomes" and "Conditions", has the rules in words.
#![tactic(auto)]

mod addresses;
mod conditions;
mod draft;
mod faults;
mod jumps;
mod laws;
mod making;
mod operands;
mod origins;
mod outcome;
mod places;
mod points;
mod posts;
mod results;
mod scratch;
mod several;
mod spots;
mod starting;
mod step;
mod stepping;
mod writes;
mod written;

pub use laws::step_laws;
pub use outcome::{Cond, Outcome, Post};
pub use posts::Posts;
pub use scratch::Scratch;
pub use starting::start_fact;
pub use stepping::outcomes;
