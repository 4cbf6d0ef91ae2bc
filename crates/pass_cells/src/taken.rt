//! Cells that a pass has taken, gathered and unpacked.
//!
//! 1. The first of them that covers a key is the key's. They are few, so it is looked for from the first one on.
//! 2. A change sets the mark of its cell before the rows change. Neither a touch nor a stamp changes a word of the
//!    cell's block, so they leave the mark of words alone.

ghost use Rattle.std.specs.Prelude.{◌≡◌, ◌<◌, ◌≤◌, ◌++◌, ◌||◌, true, false, [], ◌∷◌, length};
ghost use Rattle.std.specs.Vec.{vec_capacity};
ghost use Rattle.graph_model.specs.Rows.{is_below};
ghost use Rattle.store_rule.specs.CellsModel.Indexed.{covers};
ghost use Rattle.pass_cells.specs.Changes.{StampsRows};
ghost use Rattle.pass_cells.specs.Taken.{IsMissing, IsPlace, KeepsTaken, changes_words, counted, end_of, has_cell, is_taken, keeps_itself, keeps_on, rows_come, rows_in};

use graph_model::{Key, NoMemory, TxnName};
use latch_table::Held;
use row_writes::HeldCells;
use row_writes::below::{RowChange, RowView, VersionSegment};

/// A cell in hand.
pub struct TakenCell {
    /// The value with its latch.
    pub held: Held<VersionSegment>,
    /// How many rows the pass's view has in it. What is more has come since, and is counted when the view is told.
    pub rows: usize,
    /// Whether words of the block may have to change when the cell is packed: those of a row tell its key and its newest
    /// value, and whether it has undo records.
    pub words_changed: bool,
}

/// The cells in hand, in the order in which they were taken.
pub struct TakenCells {
    /// None stands in it twice.
    pub list: Vec<TakenCell>,
}

impl TakenCell {
    /// Whether the cell is a key's.
    pub fn covers(&self, key: Key) -> bool
        ensures { result ≡ covers self.now.held.value key }
    {
        let value = &self.held.value;
        !key.is_below(value.low()) && key.is_below(value.high())
    }

    /// Whether the cell is the key's, and begins where others end, or above.
    pub(crate) fn follows(&self, key: Key, end: Key) -> bool
        ensures next { result ≡ true → is_below self.now.held.value.low end ≡ false }
        ensures some { result ≡ true → is_below self.now.held.value.low self.now.held.value.high ≡ true }
    {
        self.covers(key) && !self.held.value.low().is_below(end)
    }
}

impl TakenCells {
    /// Whether one of the cells is the key's.
    pub fn has(&self, key: Key) -> bool
        ensures { result ≡ has_cell self.now.list.items key }
    {
        let cells = self.list.as_slice();
        'cells: for place in 0..cells.len() {
            if cells[place].covers(key) {
                return true;
            }
        }
        false
    }

    /// Whether the cell of this number is among them.
    pub fn is_taken(&self, cell: u32) -> bool
        ensures { result ≡ is_taken cell self.now.list.items }
    {
        let cells = self.list.as_slice();
        'cells: for place in 0..cells.len() {
            if cells[place].held.cell == cell {
                return true;
            }
        }
        false
    }

    /// Where the last cell ends.
    pub(crate) fn end(&self) -> Key
        ensures { result ≡ end_of self.now.list.items }
    {
        match self.list.last() {
            Some(last) => last.held.value.high(),
            None => Key { src: 0, second: 0 },
        }
    }

    /// The place of the key's cell.
    pub(crate) fn place_of(&self, key: Key) -> usize
        requires { has_cell self.now.list.items key ≡ true }
        ensures place { IsPlace self.now.list.items key result }
        ensures within { result < length self.now.list.items }
    {
        let cells = self.list.as_slice();
        let mut place = 0;
        'cells: while !cells[place].covers(key) {
            place += 1;
        }
        place
    }

    /// Of keys that no cell covers the place of the least.
    pub(crate) fn least_missing(&self, keys: &[Key]) -> Option<usize>
        ensures { IsMissing self.now.list.items keys.now result }
    {
        let mut least: Option<usize> = None;
        'keys: for place in 0..keys.len() {
            let key = keys[place];
            if !self.has(key) {
                least = match least {
                    // The least key first: cells are taken in rising order by all passes, so no circle of waiting
                    // passes can form.
                    Some(before) if !key.is_below(keys[before]) => Some(before),
                    _ => Some(place),
                };
            }
        }
        least
    }

    /// One cell more.
    pub(crate) fn add(&mut self, taken: TakenCell)
        requires { length self.old.list.items < vec_capacity self.old.list }
        ensures added { self.new.list.items ≡ self.old.list.items ++ taken ∷ [] }
        ensures capacity { vec_capacity self.old.list ≤ vec_capacity self.new.list }
    {
        match self.list.push(taken) {
            Ok(()) => {}
            Err(_) => unreachable!(),
        }
    }

    /// All rows that are there are known.
    pub fn count_rows(&mut self)
        ensures counted { self.new.list.items ≡ counted self.old.list.items }
        ensures capacity { vec_capacity self.old.list ≤ vec_capacity self.new.list }
    {
        'cells: for place in 0..self.list.len() {
            let rows = self.list[place].held.value.len();
            self.list[place].rows = rows;
        }
    }

    /// Stamps a row.
    pub(crate) fn stamp(&mut self, key: Key, by: TxnName, number: u64)
        requires { has_cell self.old.list.items key ≡ true }
        ensures stamped { StampsRows by number (key ∷ []) self.old.list.items self.new.list.items }
        ensures keeps { KeepsTaken self.old self.new }
        ensures count { rows_come self.new.list.items ≤ rows_come self.old.list.items }
    {
        let place = self.place_of(key);
        let taken = &mut self.list[place];
        taken.held.changed = true;
        taken.held.value.is_segment();
        taken.held.value.stamp(key, by, number);
        taken.held.value.is_segment();
    }
}

impl HeldCells for TakenCells {
    /// The place of a row in its cell.
    type Finger = usize;

    ghost rows = { rows_in };

    ghost keeps = { KeepsTaken };

    fn keys_lie_in_cells(&self) {}

    fn row(&self, key: Key, near: usize) -> RowView<'_> {
        self.list[self.place_of(key)].held.value.row(key, near)
    }

    fn reserve(&mut self, key: Key, near: usize) -> Result<(), NoMemory> {
        let place = self.place_of(key);
        self.list[place].held.value.reserve()
    }

    fn change(&mut self, key: Key, near: usize, by: TxnName, change: RowChange) {
        let place = self.place_of(key);
        let taken = &mut self.list[place];
        taken.held.changed = true;
        taken.words_changed = have_words_changed(change, taken.words_changed);
        taken.held.value.is_segment();
        taken.held.value.change(key, near, by, change);
        taken.held.value.is_segment();
    }

    ghost keeps_self = { keeps_itself };

    ghost keeps_chain = { keeps_on };
}

/// Whether words of a cell's block may have changed after a change of a row, given whether they may have before.
fn have_words_changed(change: RowChange, before: bool) -> bool
    ensures { result ≡ (changes_words change || before) }
{
    match change {
        RowChange::Write { value: _ } => true,
        RowChange::Undo => true,
        // No word tells who touched a row.
        RowChange::Touch { earlier: _ } => before,
        // Where nothing but the touch was left of the row, it goes.
        RowChange::Untouch => true,
    }
}
