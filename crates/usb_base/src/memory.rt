use std::alloc::AllocError;

/// Want of memory: an allocation that a call needed was refused. What the call was given stands as it was.
#[derive(Clone, Copy, Debug, PartialEq, Eq)]
pub struct Memory;

impl From<AllocError> for Memory {
    fn from(_refused: AllocError) -> Memory {
        Memory
    }
}
