//! How many vertices and arcs a reader sees, and what rows hold beside their values.
//!
//! 1. A walk over all cells in the order of their keys, which takes no memory.

ghost use Rattle.std.specs.Prelude.{◌≡◌, ◌-◌, ◌^◌, ◌≤◌, length, min, count_by};
ghost use Rattle.std.specs.FinMap as fin_map;
ghost use Rattle.graph_model.specs.Graph.{Graph, vertices_of};
ghost use Rattle.leaf_store.specs.Leaves.{record_count};
ghost use Rattle.leaf_rows.specs.Counted.{is_vertex_row};
ghost use Rattle.leaf_rows.specs.Readers.{Shows};

use crate::reader::Reader;
use crate::rows::{LeafRows, SeenCounts};
use graph_model::{Key, Row};
use row_writes::below::Rows32;

impl LeafRows {
    /// Counts the vertices and the arcs that a reader sees.
    pub fn count(&self, reader: &Reader) -> SeenCounts
        requires { reader.now.start ≤ length reader.now.manager.now.journal }
        ensures vertices { (g : Graph) → Shows reader.now self.now g → result.vertices ≡ length (vertices_of g) }
        ensures arcs { (g : Graph) → Shows reader.now self.now g → result.arcs ≡ fin_map.len g.arcs }
    {
        self.store.is_sound();
        let mut counts = SeenCounts {
            vertices: 0,
            arcs: 0,
        };
        let mut buffer = Rows32::new();
        let mut next = Key::of_vertex(0);
        'cells: while next.is_below(Key::end()) {
            // Cell by cell: settled rows are lent as they stand, and no row is copied to be counted.
            let run = self.run_for(reader, next, Key::end(), &mut buffer);
            let vertices = vertices_in(run.rows);
            counts.vertices += vertices;
            counts.arcs += run.rows.len() - vertices;
            next = run.end;
        }
        counts
    }

    /// How many records stand in all rows, up to the last number.
    pub fn record_count(&self) -> u64
        ensures { result ≡ min (record_count self.now) (2 ^ 64 - 1) }
    {
        self.store.record_count()
    }

    /// How many leaves are retired.
    pub fn retired_count(&self) -> u32
        ensures { result ≡ length self.now.retired }
    {
        self.store.retired_count()
    }
}

/// How many of the rows are those of vertices.
fn vertices_in(run: &[Row]) -> usize
    ensures count { result ≡ count_by is_vertex_row run.now }
    ensures few { result ≤ length run.now }
{
    let mut vertices = 0;
    'rows: for row in run {
        if row.key.second == 0 {
            vertices += 1;
        }
    }
    vertices
}
