//! Whether a vertex has edges.
//!
//! 1. Arcs that lead from the vertex follow its own row, so they are one range. Undirected, each edge has such an arc.
//! 2. Directed, an arc that leads to it may have any source, so all rows are looked through: no list of them is kept,
//!    which each edge would have to pay for.

ghost use Rattle.std.specs.Prelude.{◌≡◌, ◌≤◌, false, length};
ghost use Rattle.std.specs.List.{list_any};
ghost use Rattle.graph_model.specs.declared.limits.TheConstants.{MAX_ID};
ghost use Rattle.graph_model.specs.Graph.{Graph, has_edges};
ghost use Rattle.graph_model.specs.Rows.{is_below, end_key, rows};
ghost use Rattle.leaf_rows.specs.Checks.{FitsKind};
ghost use Rattle.leaf_rows.specs.Readers.{Shows};
ghost use Rattle.leaf_rows.specs.Runs.{has_second};

use crate::reader::Reader;
use crate::rows::LeafRows;
use graph_model::{Key, Kind, Row};
use row_writes::below::Rows32;

impl LeafRows {
    /// Whether a vertex is an end of an arc that the reader sees. Where arcs have a direction, those that lead to the
    /// vertex are looked for in all rows.
    pub(crate) fn has_edges(&self, kind: Kind, reader: &Reader, v: u64) -> bool
        requires within { v ≤ MAX_ID }
        requires started { reader.now.start ≤ length reader.now.manager.now.journal }
        ensures { (g : Graph) → Shows reader.now self.now g → FitsKind kind g → result ≡ has_edges g v }
    {
        self.store.is_sound();
        let first = Key { src: v, second: 1 };
        // The arcs that lead from the vertex follow its row. In an undirected graph each edge has one of them.
        if self.sees_any(reader, first, Key::of_vertex(v + 1), None) {
            return true;
        }
        match kind {
            // An arc that leads to the vertex may have any source, so all rows are looked through.
            Kind::Directed => self.sees_any(reader, Key::of_vertex(0), Key::end(), Some(v + 1)),
            Kind::Undirected => false,
        }
    }

    /// Whether the reader sees a row in a key range, with this second number in its key if one is given.
    fn sees_any(&self, reader: &Reader, from: Key, until: Key, second: Option<u64>) -> bool
        requires until { is_below end_key until ≡ false }
        requires from { is_below until from ≡ false }
        requires started { reader.now.start ≤ length reader.now.manager.now.journal }
        ensures { (g : Graph) → Shows reader.now self.now g
            → result ≡ list_any (has_second second) (rows g from until) }
    {
        let mut buffer = Rows32::new();
        let mut next = from;
        'cells: while next.is_below(until) {
            let run = self.run_for(reader, next, until, &mut buffer);
            if any_with(run.rows, second) {
                return true;
            }
            next = run.end;
        }
        false
    }
}

/// Whether one of the rows has this second number in its key, if one is given.
pub fn any_with(run: &[Row], second: Option<u64>) -> bool
    ensures { result ≡ list_any (has_second second) run.now }
{
    match second {
        None => !run.is_empty(),
        Some(second) => {
            'rows: for row in run {
                if row.key.second == second {
                    return true;
                }
            }
            false
        }
    }
}
