//! Why a trial comes to nothing.

use std::alloc::{AllocError, AllocFailed};
use std::io;
use thiserror::Error;

/// Why a trial comes to nothing.
#[derive(Clone, Copy, Debug, Error)]
pub enum TrialError {
    /// There is no memory.
    #[error("out of memory")]
    Memory,
    /// A disk in memory failed that was to refuse nothing, or a text couldn't be written.
    #[error("a disk in memory, or a text, took nothing")]
    Store,
    /// What is to be done can't be read, or can't be done.
    #[error("what is to be done can't be read, or can't be done")]
    Undone,
    /// Some call is refused in each of very many runs.
    #[error("there is no run without a refused call")]
    Endless,
}

impl From<AllocError> for TrialError {
    fn from(_error: AllocError) -> TrialError {
        TrialError::Memory
    }
}

impl<T: Drop> From<AllocFailed<T>> for TrialError {
    fn from(_error: AllocFailed<T>) -> TrialError {
        TrialError::Memory
    }
}

impl From<io::Error> for TrialError {
    fn from(_error: io::Error) -> TrialError {
        TrialError::Store
    }
}
