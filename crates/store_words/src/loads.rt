//! The rows of a block, as the pass that holds the cell loads them.
//!
//! 1. Nobody else stores a word of the block meanwhile, so all loads are of one block.
//! 2. Only the words of rows that are there are loaded. The begin of the block is found once for all of them.

ghost use Rattle.std.specs.Prelude.{◌≡◌, ◌<◌, ◌≤◌, ◌+◌, length, slice_index};
ghost use Rattle.rule_model.specs.CellsModel.Cells.{CellState};
ghost use Rattle.rule_model.specs.VersionSegment.Resting.{word_rows};
ghost use Rattle.rule_model.specs.CellsModel.Words.{IsRowAt, Spells, block_words};
ghost use Rattle.rule_model.specs.Sight.{HasCell, cells_of};
ghost use Rattle.store_words.specs.Reads.{IsBlockOf};
ghost use Rattle.store_words.specs.Spelling.{CanSpell};
ghost use Rattle.store_words.specs.Steps.{Knows};

use crate::accounts::Accounts;
use crate::lines::Block;
use crate::rule::Account;
use graph_model::{Key, Row};
use rule_model::below::Rows32;

impl Accounts {
    /// Loads the rows of a held cell whose block spells its contents, each with its value word in place of a weight,
    /// and answers the fence keys.
    pub fn load_rows(&self, seat: &mut Account, cell: u32, rows: &mut Rows32) -> (Key, Key)
        requires table { seat.old.table_id ≡ self.now.table.shared.table_id }
        requires cell { cell < cells_of self.now.config }
        requires held { (c : CellState) × HasCell seat.old.me.0 cell c × Spells c.block c.segment }
        ensures same { Knows seat.old seat.new seat.old.me.0 }
        ensures loaded { (c : CellState) → HasCell seat.old.me.0 cell c
            → CanSpell result.0 result.1 rows.new c.segment }
    {
        rows.clear();
        let begin = self.block_begin(cell);
        let block = Block { cell, begin };
        let count = self.load_count(seat, block);
        let low = self.load_key(seat, block, 2);
        let high = self.load_key(seat, block, 4);
        'rows: for place in 0..count {
            let row = self.load_row(seat, block, place);
            rows.push(row);
        }
        (low, high)
    }

    /// A word of a block, whoever holds the cell. It may be half of a change, and past when the caller reads it:
    /// nothing is told of it.
    pub fn peek_word(&self, cell: u32, word: u32) -> u64
        requires cell { cell < cells_of self.now.config }
        requires word { word < block_words }
    {
        let begin = self.block_begin(cell);
        self.peek_in(Block { cell, begin }, word)
    }

    /// The same of a block whose begin was found.
    pub fn peek_in(&self, block: Block, word: u32) -> u64
        requires block { IsBlockOf self.now.config block }
        requires word { word < block_words }
    {
        // Needs no order: nothing is told of what it finds, so it doesn't matter what else is found with it.
        self.table.shared.peek(self.place_in(block, word))
    }

    /// Loads the number of rows.
    fn load_count(&self, seat: &mut Account, block: Block) -> u32
        requires table { seat.old.table_id ≡ self.now.table.shared.table_id }
        requires block { IsBlockOf self.now.config block }
        requires held { (c : CellState) × HasCell seat.old.me.0 block.cell c × Spells c.block c.segment }
        ensures same { Knows seat.old seat.new seat.old.me.0 }
        ensures few { result ≤ 32 }
        ensures told { (c : CellState) → HasCell seat.old.me.0 block.cell c
            → result ≡ length (word_rows c.segment) }
    {
        let count = self.load_held(seat, block, 1);
        count.min(32) as u32
    }

    /// Loads the row at a place.
    fn load_row(&self, seat: &mut Account, block: Block, place: u32) -> Row
        requires table { seat.old.table_id ≡ self.now.table.shared.table_id }
        requires block { IsBlockOf self.now.config block }
        requires place { place < 32 }
        requires held { (c : CellState) × HasCell seat.old.me.0 block.cell c }
        ensures same { Knows seat.old seat.new seat.old.me.0 }
        ensures told { (c : CellState) → HasCell seat.old.me.0 block.cell c → IsRowAt c.block place result }
    {
        let word = 6 + 3 * place;
        let key = self.load_key(seat, block, word);
        let weight = self.load_held(seat, block, word + 2);
        Row { key, weight }
    }

    /// Loads a key, whose second word follows its first one.
    fn load_key(&self, seat: &mut Account, block: Block, word: u32) -> Key
        requires table { seat.old.table_id ≡ self.now.table.shared.table_id }
        requires block { IsBlockOf self.now.config block }
        requires word { word + 1 < block_words }
        requires held { (c : CellState) × HasCell seat.old.me.0 block.cell c }
        ensures same { Knows seat.old seat.new seat.old.me.0 }
        ensures told { (c : CellState) → HasCell seat.old.me.0 block.cell c
            → (result.src ≡ slice_index c.block word) × (result.second ≡ slice_index c.block (word + 1)) }
    {
        let src = self.load_held(seat, block, word);
        let second = self.load_held(seat, block, word + 1);
        Key { src, second }
    }
}
