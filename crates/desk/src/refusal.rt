//! Why a look has found nothing out.
//!
//! 1. The refusals of all calls of a look become this one by `?`, so the look itself has no case for them.

use graph_image::{KernelRefusal, NoMemory};
use std::alloc::{AllocError, AllocFailed};
use std::io;
use teseo_store::BeginRefusal;
use thiserror::Error;

/// Why a look has found nothing out.
#[derive(Clone, Copy, Debug, PartialEq, Eq, Error)]
pub enum LookRefusal {
    /// No transaction was begun.
    #[error("{0}")]
    NotBegun(BeginRefusal),
    /// A kernel gave no table.
    #[error("{0}")]
    NoTable(KernelRefusal),
    /// The clock hasn't said how long it took.
    #[error("no clock")]
    NoClock,
    #[error("no memory")]
    NoMemory,
}

impl From<KernelRefusal> for LookRefusal {
    fn from(why: KernelRefusal) -> LookRefusal {
        LookRefusal::NoTable(why)
    }
}

impl From<io::Error> for LookRefusal {
    fn from(_why: io::Error) -> LookRefusal {
        LookRefusal::NoClock
    }
}

impl From<NoMemory> for LookRefusal {
    fn from(_why: NoMemory) -> LookRefusal {
        LookRefusal::NoMemory
    }
}

impl From<AllocError> for LookRefusal {
    fn from(_why: AllocError) -> LookRefusal {
        LookRefusal::NoMemory
    }
}

impl<T: Drop> From<AllocFailed<T>> for LookRefusal {
    fn from(_why: AllocFailed<T>) -> LookRefusal {
        LookRefusal::NoMemory
    }
}
