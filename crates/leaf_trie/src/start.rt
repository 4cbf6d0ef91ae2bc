//! Leaves by their least keys.
//!
//! 1. A search by bytes alone can't tell two leaves apart whose keys it hasn't compared whole, so it answers two
//!    candidates, and whoever asks looks at their least keys.

use graph_model::Key;

/// A leaf with its least key.
#[derive(Clone, Copy, Debug, PartialEq, Eq)]
pub struct LeafStart {
    /// The key at which it begins.
    pub low: Key,
    /// Its number.
    pub leaf: u32,
}

/// The two leaves, at most, whose ranges may hold a key: one that shares its first bytes, so that only its own least
/// key tells, and the last of those that lie below both.
#[derive(Clone, Copy, Debug, PartialEq, Eq)]
pub struct Candidates {
    /// The one that shares its first bytes.
    pub at: Option<u32>,
    /// The last one of those below.
    pub before: Option<u32>,
}
