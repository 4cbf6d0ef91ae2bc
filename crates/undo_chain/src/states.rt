//! Where transactions stand.
//!
//! 1. Records know names alone. Who asks brings the knowledge: a manager for one owner, words of passes for many.
//! 2. Records that have their stamp are never asked for.

ghost use Rattle.std.specs.Prelude.{◌≡◌, ◌≤◌, true};
ghost use Rattle.undo_chain.specs.States.{Knowledge, IsAnswer, Grows};

use graph_model::{State, TxnName};

/// What a transaction sees: the commits up to its start, and its own writes.
#[derive(Clone, Copy, Debug, PartialEq, Eq)]
pub struct Snapshot {
    /// How many commits it sees.
    pub start: u64,
    /// Its own name.
    pub own: TxnName,
}

/// Whoever knows where transactions stand. It is asked only for the writers of records without a stamp.
pub trait States {
    ghost knowledge: { Self → Knowledge };

    /// Where a transaction stands. One that commits meanwhile has a stamp above those that are known.
    fn state(&mut self, by: TxnName) -> State
        requires { (knowledge self.old).names by ≡ true }
        ensures answer { IsAnswer (knowledge self.old) by result }
        ensures vouched { (knowledge self.new).vouched by result ≡ true }
        ensures grows { Grows (knowledge self.old) (knowledge self.new) };
}
