//! What a view answers.

use std::alloc::{AllocError, AllocFailed};
use viper_top::Status;
use viper_word::Memory;

/// A view that was made: whether viper's answer to what it shows is a yes, and its text.
#[derive(Drop)]
pub struct Answer {
    pub is_yes: bool,
    pub text: String,
}

impl Answer {
    /// The status that it has.
    pub fn status(&self) -> Status {
        if self.is_yes {
            Status::Done
        } else {
            Status::Refused
        }
    }
}

/// Why there is no view.
#[derive(Drop)]
pub enum Stop {
    /// A content can't be read, with the text of that.
    Input(String),
    /// A call of the store failed.
    Outside,
    /// An allocation found no memory.
    Memory,
}

impl From<Memory> for Stop {
    fn from(_: Memory) -> Stop {
        Stop::Memory
    }
}

impl From<AllocError> for Stop {
    fn from(_: AllocError) -> Stop {
        Stop::Memory
    }
}

impl<T: Drop> From<AllocFailed<T>> for Stop {
    fn from(_: AllocFailed<T>) -> Stop {
        Stop::Memory
    }
}
