use std::alloc::{AllocError, AllocFailed};
use thiserror::Error;

/// There was no memory. A call that is refused for want of memory has changed nothing, unless its entry says otherwise.
#[derive(Clone, Copy, Debug, PartialEq, Eq, Error)]
#[error("no memory")]
pub struct Memory;

impl From<AllocError> for Memory {
    fn from(_: AllocError) -> Self {
        Memory
    }
}

impl<T: Drop> From<AllocFailed<T>> for Memory {
    fn from(_: AllocFailed<T>) -> Self {
        Memory
    }
}

impl From<Memory> for AllocError {
    fn from(_: Memory) -> Self {
        AllocError
    }
}
