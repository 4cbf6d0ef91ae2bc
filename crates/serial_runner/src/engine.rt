//! What a check of a commit asks of its engine.
//!
//! 1. The journal since a transaction began, and whether it wrote something: no more is needed, so any engine of one
//!    owner serves.

ghost use Rattle.std.specs.Prelude.{◌≡◌};
ghost use Rattle.graph_model.specs.OwnerCalls.{pass_at};
ghost use Rattle.teseo_core.specs.Writing.{writing_since};

use graph_model::{Commit, StepEngine};
use teseo_core::Core;

/// An engine of one owner that lends its journal.
pub trait CheckedEngine: StepEngine {
    /// Lends the journal, the commits in the order of their stamps.
    fn journal(&self) -> &[Commit]
        ensures { result.now ≡ (Self.core self.now).journal };

    /// The start of a pass's open transaction, where it has written something.
    fn writing_since(&self, pass: u32) -> Option<u64>
        ensures { result ≡ writing_since (pass_at (Self.core self.now) pass) };
}

impl CheckedEngine for Core {
    fn journal(&self) -> &[Commit] {
        self.journal()
    }

    fn writing_since(&self, pass: u32) -> Option<u64> {
        self.writing_since(pass)
    }
}
