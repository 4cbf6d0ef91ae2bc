//! Writes, and lists of them.
//!
//! A write is a wish: whether a graph takes it is `refused`, what it makes of the graph is `apply`,
//! and which two can't both be made by transactions that overlap is `clash`.

use items::{Items, RoomyItems};

/// Whether an edge is one arc or two.
#[derive(Clone, Copy, Debug, PartialEq, Eq)]
pub enum Kind {
    /// An edge is an arc from its first end to its second.
    Directed,
    /// An edge is an arc each way, of one weight.
    Undirected,
}

/// One change of the graph. Ids are at most `MAX_ID`, weights at most `MAX_WEIGHT`.
#[derive(Clone, Copy, Debug, PartialEq, Eq)]
pub enum Write {
    /// A vertex that isn't there comes.
    AddVertex { v: u64 },
    /// A vertex that has no edges goes.
    DropVertex { v: u64 },
    /// An edge between two vertices comes, where there is none.
    AddEdge { u: u64, v: u64, weight: u64 },
    /// An edge that is there gets another weight.
    SetEdge { u: u64, v: u64, weight: u64 },
    /// An edge that is there goes.
    DropEdge { u: u64, v: u64 },
}

/// The writes of a transaction, oldest first.
pub type Writes = Items<Write>;

/// The same with the room that is left seen beside them, for a transaction whose next write must
/// take no memory.
pub type RoomyWrites = RoomyItems<Write>;
