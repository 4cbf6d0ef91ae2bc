//! Rows and their keys, and scans over them.
//!
//! 1. Keys are in the order of their sources, and then of their second numbers, so a vertex's row
//!    stands directly before those of its arcs.
//! 2. A buffer holds at most 64 rows and never takes memory.

ghost use Rattle.std.specs.Prelude.{◌≡◌, ◌<◌, ◌≤◌, ◌+◌, ◌*◌, ◌^◌, [], ◌∷◌, ◌++◌, ◌==◌, length};
ghost use Rattle.graph_model.specs.declared.limits.TheConstants.{MAX_ID};
ghost use Rattle.graph_model.specs.Rows.{vertex_key, arc_key, end_key, is_below};

use std::marker::Model;

/// A row's key: `(v, 0)` for the vertex v, `(u, v + 1)` for the arc from u to v. So a vertex's row
/// stands directly before the rows of its arcs.
#[derive(Clone, Copy, Debug, PartialEq, Eq, PartialOrd, Ord)]
pub struct Key {
    /// The vertex, or the source of the arc.
    pub src: u64,
    /// 0 for a vertex, and one more than the target for an arc.
    pub second: u64,
}

impl Key {
    /// Below it lies the key of every row.
    pub const END: Key = Key {
        src: 9223372036854775807,
        second: 0,
    };

    /// `Key::END`, as the definitions have it.
    pub const fn end() -> Key
        ensures { result ≡ end_key }
    {
        Key::END
    }

    /// The key of a vertex's row.
    pub fn of_vertex(v: u64) -> Key
        ensures { result ≡ vertex_key v }
    {
        Key { src: v, second: 0 }
    }

    /// The key of an arc's row.
    pub fn of_arc(u: u64, v: u64) -> Key
        requires { v ≤ MAX_ID }
        ensures { result ≡ arc_key u v }
    {
        Key {
            src: u,
            second: v + 1,
        }
    }

    /// Whether its row stands before the other's. Both numbers are compared as one, which takes a processor less than
    /// half of what the two take.
    pub fn is_below(self, other: Key) -> bool
        ensures { result ≡ is_below self other }
    {
        self.as_one() < other.as_one()
    }

    /// Both numbers as one, in the order of keys.
    fn as_one(self) -> u128
        ensures { result ≡ self.src * 2 ^ 64 + self.second }
    {
        (u128::from(self.src) << 64) + u128::from(self.second)
    }
}

/// A vertex with weight 0, or an arc with its weight.
#[derive(Clone, Copy, Debug, PartialEq, Eq)]
pub struct Row {
    /// What it is the row of.
    pub key: Key,
    /// The weight of an arc; 0 for a vertex.
    pub weight: u64,
}

/// A scan: the rows from `next` on and below `until` are still to come, unless it is done.
#[derive(Clone, Copy, Debug, PartialEq, Eq)]
pub struct Cursor {
    /// The key from which on rows are to come.
    pub next: Key,
    /// The key before which it ends.
    pub until: Key,
    /// Whether it has come to its end.
    pub done: bool,
}

/// A buffer of at most 64 rows, which takes no memory.
#[derive(Drop)]
pub struct Rows64 {
    /// Those from `len` on mean nothing.
    rows: [Row; 64],
    /// How many rows there are.
    len: usize,
}

impl Model for Rows64 {
    ghost use Rattle.std.specs.Prelude.{◌≡◌, ◌≤◌, List, length, take};
    ghost use Rattle.graph_model.specs.declared.row.Row.{Row};

    ghost Value = { List Row };

    ghost view = { λ a. take a.len a.rows };

    ghost invariant = { λ a. (a.len ≤ 64) × (length a.rows ≡ 64) };
}

impl Rows64 {
    /// An empty buffer.
    pub fn new() -> Rows64
        ensures { result ≡ [] }
    {
        let blank = Row {
            key: Key::END,
            weight: 0,
        };
        Rows64 {
            rows: [blank; 64],
            len: 0,
        }
    }

    /// Empties the buffer.
    pub fn clear(&mut self)
        ensures { self.new ≡ [] }
    {
        self.len = 0;
    }

    /// Appends a row, where there is room.
    pub fn push(&mut self, row: Row)
        requires { length self.old < 64 }
        ensures { self.new ≡ self.old ++ row ∷ [] }
    {
        self.rows[self.len] = row;
        self.len += 1;
    }

    pub fn len(&self) -> usize
        ensures len { result ≡ length self.now }
        ensures few { result ≤ 64 }
    {
        self.len
    }

    pub fn is_empty(&self) -> bool
        ensures { result ≡ (length self.now == 0) }
    {
        self.len == 0
    }

    /// Whether there is no room left.
    pub fn is_full(&self) -> bool
        ensures { result ≡ (length self.now == 64) }
    {
        self.len == 64
    }

    /// Lends the rows.
    pub fn as_slice(&self) -> &[Row]
        ensures { result.now ≡ self.now }
    {
        &self.rows[..self.len]
    }
}
