//! Words of a cell's block, as the pass that holds the cell loads and stores them.
//!
//! Nobody else stores a word of the block meanwhile, so the words that the pass loads are those that it knows.

ghost use Rattle.std.specs.Prelude.{◌≡◌, ◌<◌, ◌≤◌, true, false, slice_index};
ghost use Rattle.rule_model.specs.CellsModel.Cells.{CellState, lowered_word, packed, raised_word, stored, unpacked, version_word};
ghost use Rattle.rule_model.specs.CellsModel.Words.{Spells, block_words};
ghost use Rattle.rule_model.specs.Sight.{HasCell, cells_of, with_cell};
ghost use Rattle.store_words.specs.Reads.{IsBlockOf};
ghost use Rattle.store_words.specs.Steps.{Knows};

use crate::accounts::Accounts;
use crate::lines::Block;
use crate::rule::Account;
use std::marker::Brand;

impl Accounts {
    /// Loads a word of a block.
    pub fn holder_load(&self, seat: &mut Account, cell: u32, word: u32) -> u64
        requires table { seat.old.table_id ≡ self.now.table.shared.table_id }
        requires cell { cell < cells_of self.now.config }
        requires word { word < block_words }
        requires held { (c : CellState) × HasCell seat.old.me.0 cell c }
        ensures same { Knows seat.old seat.new seat.old.me.0 }
        ensures told { (c : CellState) → HasCell seat.old.me.0 cell c → result ≡ slice_index c.block word }
    {
        let begin = self.block_begin(cell);
        self.load_held(seat, Block { cell, begin }, word)
    }

    /// Loads a word of a block whose begin was found.
    pub fn load_held(&self, seat: &mut Account, block: Block, word: u32) -> u64
        requires table { seat.old.table_id ≡ self.now.table.shared.table_id }
        requires block { IsBlockOf self.now.config block }
        requires word { word < block_words }
        requires held { (c : CellState) × HasCell seat.old.me.0 block.cell c }
        ensures same { Knows seat.old seat.new seat.old.me.0 }
        ensures told { (c : CellState) → HasCell seat.old.me.0 block.cell c → result ≡ slice_index c.block word }
    {
        // Needs no order: whoever stored the word has released the cell since, or is this pass.
        let place = self.place_in(block, word);
        self.load_as::<Brand, (u32, u32)>(seat, place, &(block.cell, word))
    }

    /// Makes the version word odd: the cell is unpacked.
    pub fn raise(&self, seat: &mut Account, cell: u32)
        requires table { seat.old.table_id ≡ self.now.table.shared.table_id }
        requires cell { cell < cells_of self.now.config }
        requires held { (c : CellState) × HasCell seat.old.me.0 cell c × (c.unpacked ≡ false) }
        ensures unpacked { (c : CellState) → HasCell seat.old.me.0 cell c
            → Knows seat.old seat.new (with_cell seat.old.me.0 cell (unpacked c)) }
        ensures told { (c : CellState) → HasCell seat.old.me.0 cell c → Spells c.block c.segment }
    {
        let found = self.holder_load(seat, cell, 0);
        let place = self.block_place(cell, 0);
        // Has to come before the stores of other words for all: whoever finds one of those then finds the odd word.
        self.store_as::<Brand, u32>(seat, place, raised(found), &cell);
    }

    /// Stores a word of an unpacked cell's block.
    pub fn store_word(&self, seat: &mut Account, cell: u32, word: u32, value: u64)
        requires table { seat.old.table_id ≡ self.now.table.shared.table_id }
        requires cell { cell < cells_of self.now.config }
        requires word { (1 ≤ word) × (word < block_words) }
        requires held { (c : CellState) × HasCell seat.old.me.0 cell c × (c.unpacked ≡ true) }
        ensures stored { (c : CellState) → HasCell seat.old.me.0 cell c
            → Knows seat.old seat.new (with_cell seat.old.me.0 cell (stored c word value)) }
    {
        let begin = self.block_begin(cell);
        self.store_held(seat, Block { cell, begin }, word, value);
    }

    /// Stores a word of an unpacked cell's block whose begin was found.
    pub fn store_held(&self, seat: &mut Account, block: Block, word: u32, value: u64)
        requires table { seat.old.table_id ≡ self.now.table.shared.table_id }
        requires block { IsBlockOf self.now.config block }
        requires word { (1 ≤ word) × (word < block_words) }
        requires held { (c : CellState) × HasCell seat.old.me.0 block.cell c × (c.unpacked ≡ true) }
        ensures stored { (c : CellState) → HasCell seat.old.me.0 block.cell c
            → Knows seat.old seat.new (with_cell seat.old.me.0 block.cell (stored c word value)) }
    {
        // Has to be a release, after the odd version word: a read that finds this word finds another version word at
        // its second load.
        let place = self.place_in(block, word);
        self.store_as::<Brand, (u32, u32)>(seat, place, value, &(block.cell, word));
    }

    /// Makes the version word even again: two higher than it was if a word was stored. Where two more would not fit it
    /// stays odd for good.
    pub fn lower(&self, seat: &mut Account, cell: u32, changed: bool)
        requires table { seat.old.table_id ≡ self.now.table.shared.table_id }
        requires cell { cell < cells_of self.now.config }
        requires held { (c : CellState) × HasCell seat.old.me.0 cell c × (c.unpacked ≡ true)
            × (c.changed ≡ changed) × Spells c.block c.segment }
        ensures packed { (c : CellState) → HasCell seat.old.me.0 cell c
            → Knows seat.old seat.new (with_cell seat.old.me.0 cell (packed c)) }
    {
        let found = self.holder_load(seat, cell, 0);
        let place = self.block_place(cell, 0);
        // Has to be a release: whoever finds the even word finds the words that were stored before it.
        self.store_as::<Brand, u32>(seat, place, lowered(changed, found), &cell);
    }
}

/// The version word of a cell that is unpacked.
fn raised(word: u64) -> u64
    ensures { result ≡ raised_word word }
{
    if word == u64::MAX { u64::MAX } else { word + 1 }
}

/// And of one that is packed again.
fn lowered(changed: bool, word: u64) -> u64
    ensures { result ≡ lowered_word changed word }
{
    if changed {
        raised(word)
    } else {
        word.saturating_sub(1)
    }
}
