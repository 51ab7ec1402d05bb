//! Why nothing comes of callers.

use std::alloc::{AllocError, AllocFailed};
use std::io;
use thiserror::Error;

/// Why nothing comes of callers.
#[derive(Clone, Copy, Debug, Error)]
pub enum TogetherError {
    /// There is no memory.
    #[error("out of memory")]
    Memory,
    /// What they do can't be read.
    #[error("what callers do can't be read")]
    Unread,
}

impl From<AllocError> for TogetherError {
    fn from(_error: AllocError) -> TogetherError {
        TogetherError::Memory
    }
}

impl<T: Drop> From<AllocFailed<T>> for TogetherError {
    fn from(_error: AllocFailed<T>) -> TogetherError {
        TogetherError::Memory
    }
}

// A text takes whatever is written to it while there is memory.
impl From<io::Error> for TogetherError {
    fn from(_error: io::Error) -> TogetherError {
        TogetherError::Memory
    }
}
