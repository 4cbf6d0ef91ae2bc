//! Where the latest transaction of a pass stands.
//!
//! 1. Only an open one may write, and only where it is `Idle` the next one may begin.

/// Of `Idle` the latest transaction has ended, or there is none. `Aborting` takes its writes back; of
/// `Committing` the stamp is stored and not yet published.
#[derive(Clone, Copy, Debug, PartialEq, Eq)]
pub enum Stage {
    /// It has none.
    Idle,
    /// It may write, and read.
    Open,
    /// It takes its writes back.
    Aborting,
    /// Its stamp is stored, and the clock isn't yet.
    Committing,
}
