//! The machine over a script of answers: what a script is, in which state it begins, and how a run
//! ends, with what was put out on the way.
#![tactic(auto)]

mod fault;
mod laws;
mod opening;
mod out_log;
mod running;
mod script;
mod script_text;

pub use fault::{ScriptFault, ScriptRule};
pub use laws::{one_script, runs_are_the_plans};
pub use opening::machine_of;
pub use out_log::OutLog;
pub use running::{RunEnd, run};
pub use script::Script;
pub use script_text::read_script;
