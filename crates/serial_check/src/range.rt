//! Ranges of keys.
//!
//! 1. A footprint is kept as ranges, since a scan depends on keys that have no row too: an edge that comes there later
//!    changes its answer.

ghost use Rattle.std.specs.Prelude.{◌≡◌, ◌≤◌, true};
ghost use Rattle.graph_model.specs.declared.limits.TheConstants.{MAX_ID};
ghost use Rattle.graph_model.specs.declared.row.Key.{Key};
ghost use Rattle.graph_model.specs.Rows.{is_below, vertex_key, arc_key};
ghost use Rattle.graph_model.specs.Effects.{same_key};
ghost use Rattle.serial_model.specs.Footprints.{is_from};
ghost use Rattle.serial_check.specs.Ranges.{holds, IsRowKey};

use graph_model::Key;

/// The keys from the one on and below the other.
#[derive(Clone, Copy, Debug, PartialEq, Eq)]
pub struct FootprintRange {
    /// The least key.
    pub from: Key,
    /// The first key beyond it.
    pub until: Key,
}

impl FootprintRange {
    /// The key of a vertex's row alone.
    pub fn of_vertex(v: u64) -> FootprintRange
        ensures some { is_below result.from result.until ≡ true }
        ensures holds { (q : Key) → holds result q ≡ same_key q (vertex_key v) }
    {
        FootprintRange {
            from: Key { src: v, second: 0 },
            until: Key { src: v, second: 1 },
        }
    }

    /// The key of an arc's row alone.
    pub fn of_arc(u: u64, v: u64) -> FootprintRange
        requires { v ≤ MAX_ID }
        ensures some { is_below result.from result.until ≡ true }
        ensures holds { (q : Key) → holds result q ≡ same_key q (arc_key u v) }
    {
        FootprintRange {
            from: Key {
                src: u,
                second: v + 1,
            },
            until: Key {
                src: u,
                second: v + 2,
            },
        }
    }

    /// The keys of a vertex's row and of the rows of the arcs that lead from it.
    pub fn from_source(v: u64) -> FootprintRange
        requires { v ≤ MAX_ID }
        ensures some { is_below result.from result.until ≡ true }
        ensures holds { (q : Key) → holds result q ≡ is_from v q }
    {
        FootprintRange {
            from: Key { src: v, second: 0 },
            until: Key {
                src: v + 1,
                second: 0,
            },
        }
    }

    /// The keys of all rows.
    pub fn all() -> FootprintRange
        ensures some { is_below result.from result.until ≡ true }
        ensures holds { (q : Key) → IsRowKey q → holds result q ≡ true }
    {
        FootprintRange {
            from: Key { src: 0, second: 0 },
            until: Key::END,
        }
    }

    /// Whether it has the key.
    pub fn has(self, key: Key) -> bool
        ensures { result ≡ holds self key }
    {
        !key.is_below(self.from) && key.is_below(self.until)
    }
}
