//! Why a journal file wasn't written or read.
//!
//! 1. Whether the disk failed or the file isn't a journal is told apart: the one may pass, the other stays.

use desk_io::Failed;
use items::NoMemory;
use std::alloc::AllocError;
use thiserror::Error;

/// A call of the disk failed.
#[derive(Clone, Copy, Debug, PartialEq, Eq, Error)]
#[error("the disk failed")]
pub struct DiskFault;

impl From<Failed> for DiskFault {
    fn from(_: Failed) -> DiskFault {
        DiskFault
    }
}

/// Why no journal was read.
#[derive(Clone, Copy, Debug, PartialEq, Eq, Error)]
pub enum RecoverRefusal {
    /// It doesn't begin as a journal file does.
    #[error("not a journal file")]
    NotAJournal,
    /// A call of the disk failed.
    #[error("the disk failed")]
    DiskFault,
    /// Memory was refused.
    #[error("no memory")]
    NoMemory,
}

impl From<Failed> for RecoverRefusal {
    ghost use Rattle.std.specs.Prelude.{◌≡◌};
    ghost use Rattle.journal_file.specs.declared.refusal.RecoverRefusal.TheVariants as refusals;

    ghost from_gives = { λ _ refusal. refusal ≡ refusals.DiskFault };

    fn from(_: Failed) -> RecoverRefusal {
        RecoverRefusal::DiskFault
    }
}

impl From<NoMemory> for RecoverRefusal {
    ghost use Rattle.std.specs.Prelude.{◌≡◌};
    ghost use Rattle.journal_file.specs.declared.refusal.RecoverRefusal.TheVariants as refusals;

    ghost from_gives = { λ _ refusal. refusal ≡ refusals.NoMemory };

    fn from(_: NoMemory) -> RecoverRefusal {
        RecoverRefusal::NoMemory
    }
}

impl From<AllocError> for RecoverRefusal {
    ghost use Rattle.std.specs.Prelude.{◌≡◌};
    ghost use Rattle.journal_file.specs.declared.refusal.RecoverRefusal.TheVariants as refusals;

    ghost from_gives = { λ _ refusal. refusal ≡ refusals.NoMemory };

    fn from(_: AllocError) -> RecoverRefusal {
        RecoverRefusal::NoMemory
    }
}
