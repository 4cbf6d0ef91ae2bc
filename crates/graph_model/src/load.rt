//! A whole graph at once, as the first transaction of an engine.
//!
//! 1. It is a transaction like any other in the journal; that it comes at once lets an engine put its rows in order
//!    first.

ghost use Rattle.std.specs.Prelude.{◌≡◌, OnOk, OnErr, IfErr};
ghost use Rattle.graph_model.specs.Loading.{IsNew, IsLoad, IsLoadRefusal, loaded};

use crate::engine::StepEngine;
use crate::write::Writes;
use items::NoMemory;
use thiserror::Error;

/// Why a graph was not loaded.
#[derive(Clone, Copy, Debug, PartialEq, Eq, Error)]
pub enum LoadRefusal {
    /// The store has no place for one of its rows.
    #[error("full at {leaves} leaves")]
    Full { leaves: u32 },
    /// Memory was refused, and nothing is loaded.
    #[error("no memory")]
    NoMemory,
}

impl From<NoMemory> for LoadRefusal {
    ghost use Rattle.graph_model.specs.declared.load.LoadRefusal.TheVariants as refusals;

    ghost from_gives = { λ _ refusal. refusal ≡ refusals.NoMemory };

    fn from(_refused: NoMemory) -> LoadRefusal {
        LoadRefusal::NoMemory
    }
}

/// An engine of one owner that takes a whole graph at once. It knows all writes beforehand, so it may lay
/// their rows in any order that serves it.
pub trait LoadEngine: StepEngine {
    /// Makes the writes, in their order, as the first transaction of a new engine, and commits it. A refused
    /// load may have used that transaction up.
    fn load(&mut self, load: Writes) -> Result<(), LoadRefusal>
        requires new { IsNew (Self.core self.old) }
        requires load { IsLoad (Self.core self.old) load }
        ensures loaded { OnOk result (Self.core self.new ≡ loaded (Self.core self.old) load) }
        ensures refused { IfErr result (IsLoadRefusal (Self.core self.old) load) }
        ensures err { OnErr result (Self.core self.new ≡ Self.core self.old) };
}
