//! Where a transaction stands.
//!
//! 1. Whoever reads a row asks this of a version's writer, and of nothing else. A name that is unknown answers as one
//!    that was taken back, whose versions nobody sees.

/// Open, committed with its stamp, or ended without a commit. A name that no transaction has had counts as ended.
#[derive(Clone, Copy, Debug, PartialEq, Eq)]
pub enum State {
    /// It has begun and not ended.
    Live,
    /// It has ended with this stamp.
    Committed { stamp: u64 },
    /// It has ended without one, or there is no such transaction.
    Aborted,
}
