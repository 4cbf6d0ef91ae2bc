//! Edges of a file.
//!
//! 1. The ends stay as the file has them: an undirected edge is not turned round, so what is written later reads as the
//!    file did.

use items::Items;

/// An edge, with its ends as the file gave them.
#[derive(Clone, Copy, Debug, PartialEq, Eq)]
pub struct Edge {
    /// The end that stands first.
    pub u: u64,
    /// The end that stands second.
    pub v: u64,
    /// In units of the last digit that is read; 1 where the file has none.
    pub weight: u64,
}

/// The edges of a graph, in the order of the file.
pub type Edges = Items<Edge>;
