//! Why a run whose commits are kept came to no end.
//!
//! 1. A commit that couldn't be kept ends the run, though it was made: nobody was told of it yet.

ghost use Rattle.std.specs.Prelude.{◌≡◌};

use graph_model::{LoadRefusal, NoMemory};
use run_keeper::KeepRefusal;
use thiserror::Error;

/// Why a run whose commits are kept came to no end.
#[derive(Clone, Copy, Debug, PartialEq, Eq, Error)]
pub enum KeptRefusal {
    /// The leaves have no place for all rows of the graph.
    #[error("no place in {leaves} leaves")]
    Full { leaves: u32 },
    /// Memory was refused.
    #[error("no memory")]
    NoMemory,
    /// A call of the disk failed.
    #[error("the disk failed")]
    DiskFault,
}

impl From<LoadRefusal> for KeptRefusal {
    ghost use Rattle.kept_run.specs.Refusals.{of_load};

    ghost from_gives = { λ refusal kept. kept ≡ of_load refusal };

    fn from(refusal: LoadRefusal) -> KeptRefusal {
        match refusal {
            LoadRefusal::Full { leaves } => KeptRefusal::Full { leaves },
            LoadRefusal::NoMemory => KeptRefusal::NoMemory,
        }
    }
}

impl From<NoMemory> for KeptRefusal {
    ghost use Rattle.kept_run.specs.declared.refusal.KeptRefusal.TheVariants as refusals;

    ghost from_gives = { λ _ kept. kept ≡ refusals.NoMemory };

    fn from(_: NoMemory) -> KeptRefusal {
        KeptRefusal::NoMemory
    }
}

impl From<KeepRefusal> for KeptRefusal {
    ghost use Rattle.kept_run.specs.Refusals.{of_keep};

    ghost from_gives = { λ refusal kept. kept ≡ of_keep refusal };

    fn from(refusal: KeepRefusal) -> KeptRefusal {
        match refusal {
            KeepRefusal::DiskFault => KeptRefusal::DiskFault,
            KeepRefusal::NoMemory => KeptRefusal::NoMemory,
        }
    }
}
