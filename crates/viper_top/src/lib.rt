//! The commands of viper, from the words of the command line to the text.
//!
//! One call in this crate fetches, one places and one puts: `reading`, `ending` and nothing else
//! touch the store and the sink. What a command makes of contents is said and done without them
//! (docs/ARCHITECTURE.md, "The top floor").
#![tactic(auto)]

mod answer;
mod assemble;
mod certify;
mod check;
mod command_line;
mod disasm;
mod ending;
mod judged;
mod laws;
mod reading;
mod rules;
mod run;
mod sample;
mod stage;
mod status;
mod task;
mod texts;
mod top;
mod upgrade;
mod usage;

pub use laws::endings_are_determined;
pub use status::Status;
pub use top::{sure_main, viper_main};
