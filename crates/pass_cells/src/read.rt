//! What a snapshot sees in the cells in hand.
//!
//! Reads look at unpacked rows: whoever wants to read takes the cell, reads here, and puts it back unchanged.

ghost use Rattle.std.specs.Prelude.{◌≡◌, ◌≤◌, true, length};
ghost use Rattle.graph_model.specs.declared.limits.TheConstants.{SEGMENT_ROWS};
ghost use Rattle.graph_model.specs.Graph.{Graph};
ghost use Rattle.graph_model.specs.Rows.{is_between, rows};
ghost use Rattle.store_model.specs.Stamped.{read_stamped};
ghost use Rattle.undo_chain.specs.States.{Grows};
ghost use Rattle.row_writes.specs.VersionSegment.Checks.{AreNamedRows, IsNamed};
ghost use Rattle.row_writes.specs.Checks.{ShowsHeld};
ghost use Rattle.pass_cells.specs.Reading.{lesser};
ghost use Rattle.pass_cells.specs.Taken.{AreRising, cell_at, rows_in};

use crate::taken::TakenCells;
use graph_model::{Key, Row};
use row_writes::below::{NOWHERE, Rows32};
use row_writes::{Fingers, FoundRows, HeldCells, WrittenRows};
use undo_chain::{Snapshot, States};

/// Rows that are lent, and the key before which they end.
#[derive(Clone, Copy)]
pub struct CellRun<'a> {
    /// In rising order of their keys.
    pub rows: &'a [Row],
    /// Where the cell ends, or the range that was asked for.
    pub end: Key,
}

impl TakenCells {
    /// Where the rows of a write stand in their cells, or would stand, so that the steps to come look there first. No
    /// clause says that a place is right: a wrong one costs a search.
    pub fn find(&self, rows: &WrittenRows) -> FoundRows<usize>
        ensures { result.rows ≡ rows.now }
    {
        let (source, target) = match rows.ends {
            Some(ends) => (Some(ends.source), Some(ends.target)),
            None => (None, None),
        };
        let near = Fingers {
            row: self.place_near(Some(rows.row)),
            back: self.place_near(rows.back),
            source: self.place_near(source),
            target: self.place_near(target),
        };
        FoundRows { rows: *rows, near }
    }

    /// The same of one key, if there is one.
    fn place_near(&self, key: Option<Key>) -> usize {
        let Some(key) = key else { return NOWHERE };
        let cells = self.list.as_slice();
        'cells: for place in 0..cells.len() {
            if cells[place].covers(key) {
                return cells[place].held.value.place_of(key);
            }
        }
        NOWHERE
    }

    /// The value of a key for a snapshot.
    pub fn value<S: States>(&self, key: Key, snapshot: &Snapshot, states: &mut S) -> Option<u64>
        requires held { (rows_in self.now).holds key ≡ true }
        requires known { snapshot.now.start ≤ (S.knowledge states.old).known }
        requires named { IsNamed (S.knowledge states.old).names ((rows_in self.now).versions key) }
        ensures value { result ≡ read_stamped (S.knowledge states.old).stamps snapshot.now.start snapshot.now.own
            ((rows_in self.now).versions key) }
        ensures grows { Grows (S.knowledge states.old) (S.knowledge states.new) }
    {
        self.row(key, NOWHERE).value(snapshot, states)
    }

    /// Lends the rows that a snapshot sees from a key on and before another, as far as the key's cell goes. They are
    /// the next step of a scan.
    pub fn run<'a, S: States>(
        &'a self,
        from: Key,
        until: Key,
        snapshot: &Snapshot,
        states: &mut S,
        buffer: &'a mut Rows32,
    ) -> CellRun<'a>
        requires rising { AreRising self.now.list.items }
        requires held { (rows_in self.now).holds from ≡ true }
        requires known { snapshot.now.start ≤ (S.knowledge states.old).known }
        requires named { AreNamedRows (S.knowledge states.old).names (cell_at self.now.list.items from).rows }
        ensures rows { (g : Graph) → ShowsHeld (S.knowledge states.old).stamps snapshot.now (rows_in self.now) g
            → result.rows.now ≡ rows g from result.end }
        ensures end { result.end ≡ lesser (cell_at self.now.list.items from).high until }
        ensures holds { is_between (cell_at self.now.list.items from).low (cell_at self.now.list.items from).high from
            ≡ true }
        ensures few { length result.rows.now ≤ SEGMENT_ROWS }
        ensures grows { Grows (S.knowledge states.old) (S.knowledge states.new) }
    {
        let cell = &self.list[self.place_of(from)].held.value;
        cell.is_segment();
        let end = lesser(cell.high(), until);
        let rows = cell.run_at(from, end, snapshot, states, buffer);
        CellRun { rows, end }
    }
}

/// Of two keys the one whose row stands first.
fn lesser(one: Key, other: Key) -> Key
    ensures { result ≡ lesser one other }
{
    if one.is_below(other) { one } else { other }
}
