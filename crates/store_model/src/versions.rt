//! All versions of a row.
//!
//! 1. A value is of a writer; the oldest one has none any more, since all see it.
//! 2. Touches stand beside versions: a transaction that adds an edge changes no value of the vertex, and clashes with
//!    its removal all the same.

use crate::version::Version;
use graph_model::TxnName;
use items::Items;

/// What a row holds: its versions, newest first, the oldest value below them all, and the names of
/// the transactions that have added an edge at its vertex.
#[derive(Drop)]
pub struct Versions {
    /// Newest first.
    pub pairs: Items<Version>,
    /// None where there was no row.
    pub oldest: Option<u64>,
    /// Oldest first.
    pub touches: Items<TxnName>,
}
