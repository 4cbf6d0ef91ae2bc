//! What a keeper asks of its engine.
//!
//! 1. A keeper is lent the journal after each turn, and keeps what it hasn't kept yet: so an engine has to tell it
//!    nothing of files.

ghost use Rattle.std.specs.Prelude.{◌≡◌};

use graph_model::{Commit, StepEngine};
use teseo_core::Core;

/// An engine of one owner that lends its journal.
pub trait JournalEngine: StepEngine {
    /// Lends the journal, the commits in the order of their stamps.
    fn journal(&self) -> &[Commit]
        ensures { result.now ≡ (Self.core self.now).journal };
}

impl JournalEngine for Core {
    fn journal(&self) -> &[Commit] {
        self.journal()
    }
}
