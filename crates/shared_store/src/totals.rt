//! What a closed store holds, counted in the words of its cells.
//!
//! 1. All transactions have ended, so the newest value of a row is the one that the graph of the whole journal has.
//! 2. The index tells the cells in the order of their keys. Their rows are read where they stand, so no cell is
//!    unpacked, and nothing takes memory.

ghost use Rattle.std.specs.Prelude.{◌≡◌, ◌+◌, ◌≤◌, count_by, length};
ghost use Rattle.std.specs.FinMap as fin_map;
ghost use Rattle.graph_model.specs.Graph.{Graph, vertices_of};
ghost use Rattle.shared_store.specs.Totals.{AreTotals, HoldsGraph, edges_of, is_seen, is_seen_vertex};

use graph_model::{Key, Kind, Row};
use leaf_index::LeafIndex;
use leaf_rows::below::{Rows32, value_in_word};
use pass_writes::below::ClosedCells;
use txn_manager::Totals;

/// How many rows have a value, and how many of these are vertices'.
#[derive(Clone, Copy, Debug)]
pub struct RowCounts {
    /// Those of vertices and of arcs.
    pub rows: u64,
    /// Those of vertices alone.
    pub vertices: u64,
}

/// The totals of a store that was taken apart. Of records and retired leaves nothing is left.
pub(crate) fn totals_of(kind: Kind, cells: &mut ClosedCells, index: &LeafIndex) -> Totals
    requires { (g : Graph) × HoldsGraph cells.old index.now g }
    ensures { (g : Graph) → HoldsGraph cells.old index.now g → AreTotals kind g result }
{
    let counts = count_rows(cells, index);
    Totals {
        vertices: counts.vertices,
        edges: edges_in(kind, counts.rows - counts.vertices),
        // Where no pass has a transaction or rows to stamp, whatever records there are say what nobody reads any more.
        undo: 0,
        retired: 0,
    }
}

/// How many edges so many arcs are.
fn edges_in(kind: Kind, arcs: u64) -> u64
    ensures { (g : Graph) → arcs ≡ fin_map.len g.arcs → result ≡ edges_of kind g }
{
    match kind {
        Kind::Directed => arcs,
        Kind::Undirected => arcs / 2,
    }
}

/// Counts the rows of all cells.
fn count_rows(cells: &mut ClosedCells, index: &LeafIndex) -> RowCounts
    requires { (g : Graph) × HoldsGraph cells.old index.now g }
    ensures few { result.vertices ≤ result.rows }
    ensures vertices { (g : Graph) → HoldsGraph cells.old index.now g → result.vertices ≡ length (vertices_of g) }
    ensures arcs { (g : Graph) → HoldsGraph cells.old index.now g
        → (arcs : _) → result.vertices + arcs ≡ result.rows → arcs ≡ fin_map.len g.arcs }
{
    index.is_index();
    let mut counts = RowCounts {
        rows: 0,
        vertices: 0,
    };
    let mut rows = Rows32::new();
    let mut next = Key::of_vertex(0);
    'cells: while next.is_below(Key::end()) {
        // From key to key and not by the numbers of cells: those of leaves that aren't live hold old words.
        let cell = index.route(next).cell;
        let (_, high) = cells.load_rows(cell, &mut rows);
        let found = count_from(rows.as_slice(), next);
        counts.rows += found.rows;
        counts.vertices += found.vertices;
        next = high;
    }
    counts
}

/// Counts the rows of a cell from a key on, which have their value words.
fn count_from(run: &[Row], from: Key) -> RowCounts
    ensures rows { result.rows ≡ count_by (is_seen from) run.now }
    ensures vertices { result.vertices ≡ count_by (is_seen_vertex from) run.now }
    ensures few { (result.vertices ≤ result.rows) × (result.rows ≤ length run.now) }
{
    let mut counts = RowCounts {
        rows: 0,
        vertices: 0,
    };
    'rows: for row in run {
        if is_seen(row, from) {
            counts.rows += 1;
            if row.key.second == 0 {
                counts.vertices += 1;
            }
        }
    }
    counts
}

/// Whether a row stands from a key on and has a value.
fn is_seen(row: &Row, from: Key) -> bool
    ensures { result ≡ is_seen from row.now }
{
    !row.key.is_below(from) && value_in_word(row.weight).is_some()
}
