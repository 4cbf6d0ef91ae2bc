//! One undo record.
//!
//! 1. A record has the value before a write, so a list, newest first, leads from the newest value back to the oldest
//!    that somebody may read.

use graph_model::TxnName;

/// What takes one write of a row back. Of a touch `older` is none, and isn't read.
#[derive(Clone, Copy, Debug, PartialEq, Eq)]
pub struct Undo {
    /// Who wrote.
    pub by: TxnName,
    /// The writer's commit stamp, once it was written here.
    pub stamp: Option<u64>,
    /// The row's value before the write.
    pub older: Option<u64>,
    /// The next older record of the list.
    pub next: Option<usize>,
    /// From this record on all of the list have stamps. Where it is false, nothing is said.
    pub all_stamped: bool,
}
