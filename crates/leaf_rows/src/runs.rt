//! Runs: what a cell has of a key range.
//!
//! A cell's rows are lent without a copy where they are settled.

ghost use Rattle.std.specs.Prelude.{◌≡◌, ◌≤◌, true, length};
ghost use Rattle.graph_model.specs.declared.limits.TheConstants.{SEGMENT_ROWS};
ghost use Rattle.graph_model.specs.Graph.{Graph};
ghost use Rattle.graph_model.specs.Rows.{is_below, is_between, end_key, rows};
ghost use Rattle.undo_chain.specs.States.{Grows};
ghost use Rattle.leaf_store.specs.Leaves.{cell_at};
ghost use Rattle.leaf_rows.specs.Readers.{Shows};
ghost use Rattle.leaf_rows.specs.Runs.{KnowsAll, ShowsBy, run_end, lesser};

use crate::reader::Reader;
use crate::rows::LeafRows;
use graph_model::{Key, Row};
use leaf_store::Finger;
use row_writes::below::Rows32;
use undo_chain::{Snapshot, States};

/// Rows that are lent, and the key before which they end.
#[derive(Clone, Copy)]
pub(crate) struct Run<'a> {
    /// In rising order of their keys.
    pub(crate) rows: &'a [Row],
    /// Where the cell ends, or the range that was asked for.
    pub(crate) end: Key,
}

impl LeafRows {
    /// Lends the rows from a key on and before another, as far as the key's cell goes.
    pub(crate) fn run_from<'a, S: States>(
        &'a self,
        from: Key,
        until: Key,
        snapshot: &Snapshot,
        states: &mut S,
        buffer: &'a mut Rows32,
    ) -> Run<'a>
        requires from { is_below from end_key ≡ true }
        requires known { snapshot.now.start ≤ (S.knowledge states.old).known }
        requires anyone { KnowsAll (S.knowledge states.old) }
        ensures rows { (g : Graph) → ShowsBy (S.knowledge states.old).stamps snapshot.now self.now g
            → result.rows.now ≡ rows g from result.end }
        ensures end { result.end ≡ run_end self.now from until }
        ensures holds { is_between (cell_at self.now from).low (cell_at self.now from).high from ≡ true }
        ensures few { length result.rows.now ≤ SEGMENT_ROWS }
        ensures grows { Grows (S.knowledge states.old) (S.knowledge states.new) }
    {
        let cell = self.store.segment(from, Finger::nowhere());
        cell.is_segment();
        let end = lesser(cell.high(), until);
        let rows = cell.run_at(from, end, snapshot, states, buffer);
        Run { rows, end }
    }

    /// Lends the rows that a reader sees.
    pub(crate) fn run_for<'a>(
        &'a self,
        reader: &Reader,
        from: Key,
        until: Key,
        buffer: &'a mut Rows32,
    ) -> Run<'a>
        requires from { is_below from end_key ≡ true }
        requires started { reader.now.start ≤ length reader.now.manager.now.journal }
        ensures rows { (g : Graph) → Shows reader.now self.now g → result.rows.now ≡ rows g from result.end }
        ensures end { result.end ≡ run_end self.now from until }
        ensures holds { is_between (cell_at self.now from).low (cell_at self.now from).high from ≡ true }
        ensures few { length result.rows.now ≤ SEGMENT_ROWS }
    {
        self.run_from(from, until, &reader.snapshot(), &mut reader.known(), buffer)
    }
}

/// Of two keys the one whose row stands first.
fn lesser(one: Key, other: Key) -> Key
    ensures { result ≡ lesser one other }
{
    if one.is_below(other) { one } else { other }
}
