//! The type of out of memory, the one answer that no clause explains.
use std::alloc::{AllocError, AllocFailed};

/// Memory ran out. Any call that allocates may answer it, and no contract says when; after it the
/// object of the call is as before.
#[derive(Clone, Copy, Debug, PartialEq, Eq)]
pub struct NoMemory;

impl From<AllocError> for NoMemory {
    fn from(_: AllocError) -> Self {
        NoMemory
    }
}

impl<T: Drop> From<AllocFailed<T>> for NoMemory {
    fn from(_: AllocFailed<T>) -> Self {
        NoMemory
    }
}
