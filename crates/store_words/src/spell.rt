//! The words of a block, as one who packs a cell stores them.
//!
//! 1. The number of rows is stored in any case, so that the version word tells of the change. Of the other words only
//!    those that differ are stored: a load of a held word costs a tenth of a store, and most words stay.
//! 2. Words after the last row are left as they are, since nobody reads them.

ghost use Rattle.std.specs.Prelude.{◌≡◌, ◌<◌, ◌≤◌, ◌+◌, ◌*◌, List, Some, true, length, slice_get};
ghost use Rattle.rule_model.specs.CellsModel.Cells.{CellState};
ghost use Rattle.rule_model.specs.CellsModel.Words.{block_words, spelled};
ghost use Rattle.graph_model.specs.declared.row.Key.{Key};
ghost use Rattle.graph_model.specs.declared.row.Row.{Row};
ghost use Rattle.rule_model.specs.Sight.{HasCell, Sight, cells_of};
ghost use Rattle.store_words.specs.Reads.{IsBlockOf};
ghost use Rattle.store_words.specs.Spelling.{IsSpelling, Stays};

use crate::accounts::Accounts;
use crate::lines::Block;
use crate::rule::Account;
use graph_model::{Key, Row};

impl Accounts {
    /// Stores the words of an unpacked cell's block that spell these fence keys and rows.
    pub fn spell(&self, seat: &mut Account, cell: u32, low: Key, high: Key, rows: &[Row])
        requires table { seat.old.table_id ≡ self.now.table.shared.table_id }
        requires cell { cell < cells_of self.now.config }
        requires rows { length rows.now ≤ 32 }
        requires held { (c : CellState) × HasCell seat.old.me.0 cell c × (c.unpacked ≡ true)
            × (length c.block ≡ block_words) }
        ensures stays { Stays seat.old seat.new }
        ensures spelled { (c : CellState) → HasCell seat.old.me.0 cell c
            → IsSpelling cell seat.old.me.0 c low high rows.now (5 + 3 * length rows.now) seat.new.me.0 }
    {
        let begin = self.block_begin(cell);
        let block = Block { cell, begin };
        // This word is stored in any case: a block under a new version has had at least one word stored. Of the others
        // only those that differ, since each store takes its line of the cache from readers.
        self.spell_word(seat, block, 0, rows.len() as u64);
        self.respell_word(seat, block, 1, low.src);
        self.respell_word(seat, block, 2, low.second);
        self.respell_word(seat, block, 3, high.src);
        self.respell_word(seat, block, 4, high.second);
        // Places are counted below 32, so that a word's place is the begin of the block and a number that is known.
        let count = rows.len().min(32) as u32;
        'rows: for place in 0..count {
            self.respell_row(seat, block, place, rows[place as usize]);
        }
    }

    /// Stores the words of the row at a place.
    fn respell_row(&self, seat: &mut Account, block: Block, place: u32, row: Row)
        requires table { seat.old.table_id ≡ self.now.table.shared.table_id }
        requires block { IsBlockOf self.now.config block }
        requires place { place < 32 }
        requires held { (c : CellState) × HasCell seat.old.me.0 block.cell c × (c.unpacked ≡ true) }
        ensures stays { Stays seat.old seat.new }
        ensures held { (c : CellState) × HasCell seat.new.me.0 block.cell c × (c.unpacked ≡ true) }
        ensures spelled { (v : Sight) (c : CellState) (low high : Key) (rows : List Row)
            → slice_get rows place ≡ Some row
            → IsSpelling block.cell v c low high rows (5 + 3 * place) seat.old.me.0
            → IsSpelling block.cell v c low high rows (5 + 3 * (place + 1)) seat.new.me.0 }
    {
        let word = 5 + 3 * place;
        self.respell_word(seat, block, word, row.key.src);
        self.respell_word(seat, block, word + 1, row.key.second);
        self.respell_word(seat, block, word + 2, row.weight);
    }

    /// Stores the next word.
    fn spell_word(&self, seat: &mut Account, block: Block, place: u32, value: u64)
        requires table { seat.old.table_id ≡ self.now.table.shared.table_id }
        requires block { IsBlockOf self.now.config block }
        requires place { place + 1 < block_words }
        requires held { (c : CellState) × HasCell seat.old.me.0 block.cell c × (c.unpacked ≡ true) }
        ensures stays { Stays seat.old seat.new }
        ensures held { (c : CellState) × HasCell seat.new.me.0 block.cell c × (c.unpacked ≡ true) }
        ensures spelled { (v : Sight) (c : CellState) (low high : Key) (rows : List Row)
            → slice_get (spelled low high rows) place ≡ Some value
            → IsSpelling block.cell v c low high rows place seat.old.me.0
            → IsSpelling block.cell v c low high rows (place + 1) seat.new.me.0 }
    {
        self.store_held(seat, block, place + 1, value);
    }

    /// Stores the next word, unless it stands there.
    fn respell_word(&self, seat: &mut Account, block: Block, place: u32, value: u64)
        requires table { seat.old.table_id ≡ self.now.table.shared.table_id }
        requires block { IsBlockOf self.now.config block }
        requires place { (0 < place) × (place + 1 < block_words) }
        requires held { (c : CellState) × HasCell seat.old.me.0 block.cell c × (c.unpacked ≡ true) }
        ensures stays { Stays seat.old seat.new }
        ensures held { (c : CellState) × HasCell seat.new.me.0 block.cell c × (c.unpacked ≡ true) }
        ensures spelled { (v : Sight) (c : CellState) (low high : Key) (rows : List Row)
            → slice_get (spelled low high rows) place ≡ Some value
            → IsSpelling block.cell v c low high rows place seat.old.me.0
            → IsSpelling block.cell v c low high rows (place + 1) seat.new.me.0 }
    {
        let found = self.load_held(seat, block, place + 1);
        if found != value {
            self.spell_word(seat, block, place, value);
        }
    }
}
