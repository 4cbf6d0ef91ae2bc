//! Where a job stands between two lines.
//!
//! 1. A conflict or `full` ends its transaction alone: the job goes on after that transaction's last line.
//! 2. Running out of memory ends the job, and no later line has an answer.

/// Whether a transaction is open, and what becomes of the line at hand.
#[derive(Clone, Copy, Debug, PartialEq, Eq)]
pub enum Phase {
    /// No transaction is open.
    Between,
    /// One is open.
    Open,
    /// A conflict or `full` has ended it, and its other lines are skipped.
    Skipping,
    /// Memory was wanted, and the job has ended.
    GivenUp,
}
