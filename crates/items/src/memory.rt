//! Running out of memory, the one answer that no clause ties to a cause.
//!
//! 1. It may come at any call that may take memory, so contracts say what it leaves, and not when it comes.

use std::alloc::{AllocError, AllocFailed};
use thiserror::Error;

/// An allocation was refused.
#[derive(Clone, Copy, Debug, PartialEq, Eq, Error)]
#[error("no memory")]
pub struct NoMemory;

impl From<AllocError> for NoMemory {
    fn from(_refused: AllocError) -> NoMemory {
        NoMemory
    }
}

impl<T: Drop> From<AllocFailed<T>> for NoMemory {
    fn from(_refused: AllocFailed<T>) -> NoMemory {
        NoMemory
    }
}
