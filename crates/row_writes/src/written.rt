//! The rows of a write, as one value.
//!
//! 1. One match over the kinds of write says which rows it writes, which it needs or touches, and what it leaves.
//! 2. Whatever looks for rows, makes room for them, changes them or takes them back goes over this value.

ghost use Rattle.std.specs.Prelude.{◌≡◌, ◌≤◌};
ghost use Rattle.graph_model.specs.declared.limits.TheConstants.{MAX_ID};
ghost use Rattle.graph_model.specs.Refused.{IsWithinLimits};
ghost use Rattle.row_writes.specs.Written.{of_edge, of_row, rows_of};

use graph_model::{Key, Kind, Write};

/// The rows of an edge's ends.
#[derive(Clone, Copy, Debug, PartialEq, Eq)]
pub struct EndKeys {
    /// Of the edge's first end.
    pub source: Key,
    /// Of its second end.
    pub target: Key,
}

/// The rows of a write.
#[derive(Clone, Copy, Debug, PartialEq, Eq)]
pub struct WrittenRows {
    /// The row that it writes.
    pub row: Key,
    /// The row of the same edge the other way, where edges have no direction.
    pub back: Option<Key>,
    /// The rows of its ends, where it is of an edge.
    pub ends: Option<EndKeys>,
    /// Whether it adds an edge: it touches the rows of its ends then.
    pub touches: bool,
    /// What it leaves in the rows that it writes.
    pub value: Option<u64>,
}

/// Where the rows of a write were found. An end that isn't looked for has a finger that points nowhere.
#[derive(Clone, Copy, Debug, PartialEq, Eq)]
pub struct Fingers<F> {
    /// The row that is written.
    pub row: F,
    /// That of the same edge the other way.
    pub back: F,
    /// That of the first end.
    pub source: F,
    /// That of the second end.
    pub target: F,
}

/// The rows of a write, and where they were found.
#[derive(Clone, Copy, Debug, PartialEq, Eq)]
pub struct FoundRows<F> {
    /// Which rows these are.
    pub rows: WrittenRows,
    /// Where to look for each first.
    pub near: Fingers<F>,
}

impl<F: Copy> Fingers<F> {
    /// One for all of them.
    pub fn alike(finger: F) -> Fingers<F>
        ensures row { result.row ≡ finger }
        ensures back { result.back ≡ finger }
        ensures source { result.source ≡ finger }
        ensures target { result.target ≡ finger }
    {
        Fingers {
            row: finger,
            back: finger,
            source: finger,
            target: finger,
        }
    }
}

impl WrittenRows {
    /// Those of this write.
    pub fn of(kind: Kind, write: Write) -> WrittenRows
        requires { IsWithinLimits write }
        ensures { result ≡ rows_of kind write }
    {
        match write {
            Write::AddVertex { v } => WrittenRows::of_row(Key::of_vertex(v), Some(0)),
            Write::DropVertex { v } => WrittenRows::of_row(Key::of_vertex(v), None),
            Write::AddEdge { u, v, weight } => WrittenRows {
                touches: true,
                ..WrittenRows::of_edge(kind, u, v, Some(weight))
            },
            Write::SetEdge { u, v, weight } => WrittenRows::of_edge(kind, u, v, Some(weight)),
            Write::DropEdge { u, v } => WrittenRows::of_edge(kind, u, v, None),
        }
    }

    /// One row alone.
    fn of_row(row: Key, value: Option<u64>) -> WrittenRows
        ensures { result ≡ of_row row value }
    {
        WrittenRows {
            row,
            back: None,
            ends: None,
            touches: false,
            value,
        }
    }

    /// The rows of an edge.
    fn of_edge(kind: Kind, u: u64, v: u64, value: Option<u64>) -> WrittenRows
        requires source_within { u ≤ MAX_ID }
        requires target_within { v ≤ MAX_ID }
        ensures { result ≡ of_edge kind u v value }
    {
        // An undirected edge has a row at each end, so that each end's edges are one range of keys.
        let back = match kind {
            Kind::Directed => None,
            Kind::Undirected => Some(Key::of_arc(v, u)),
        };
        let ends = EndKeys {
            source: Key::of_vertex(u),
            target: Key::of_vertex(v),
        };
        WrittenRows {
            back,
            ends: Some(ends),
            ..WrittenRows::of_row(Key::of_arc(u, v), value)
        }
    }
}
