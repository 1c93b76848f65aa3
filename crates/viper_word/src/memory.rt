use std::alloc::AllocError;

/// Want of memory: an allocation found none. It says nothing of the input, and it is the one answer
/// whose cause no contract names.
#[derive(Clone, Copy, Debug, PartialEq, Eq)]
pub struct Memory;

impl From<AllocError> for Memory {
    fn from(_: AllocError) -> Memory {
        Memory
    }
}
