//! Who reads, and who stands against its writes.
//!
//! 1. What it sees is told by its start and its own name; of all others the manager is asked.

ghost use Rattle.std.specs.Prelude.{◌≡◌};

use graph_model::{State, TxnName};
use txn_manager::TxnManager;
use undo_chain::{Snapshot, States};

/// An open transaction, with the manager that knows the others.
#[derive(Clone, Copy)]
pub struct Reader<'a> {
    /// Who knows where other transactions stand.
    pub manager: &'a TxnManager,
    /// How many commits it sees.
    pub start: u64,
    /// Its own name.
    pub by: TxnName,
}

impl Reader<'_> {
    /// What the transaction sees.
    pub(crate) fn snapshot(&self) -> Snapshot
        ensures start { result.start ≡ self.now.start }
        ensures own { result.own ≡ self.now.by }
    {
        Snapshot {
            start: self.start,
            own: self.by,
        }
    }

    /// What its manager knows of the others.
    pub(crate) fn known(&self) -> Known<'_>
        ensures { result.manager.now ≡ self.now.manager.now }
    {
        Known {
            manager: self.manager,
        }
    }
}

/// Where the transactions of a manager stand.
#[derive(Clone, Copy)]
pub(crate) struct Known<'a> {
    pub(crate) manager: &'a TxnManager,
}

impl States for Known<'_> {
    ghost use Rattle.leaf_rows.specs.Known.{knowledge_of};

    ghost knowledge = { λ s. knowledge_of s.manager.now };

    fn state(&mut self, by: TxnName) -> State {
        self.manager.state(by)
    }
}
