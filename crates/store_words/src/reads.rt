//! The loads of a read without a latch.
//!
//! 1. A read loads an even version word, then words of the block, then the version word again.
//! 2. Where it finds the first word again, all that it loaded is of one block, which spells the contents of that
//!    moment.
//! 3. What it loads may be past by then or half written: no call says anything of it before the second load.

ghost use Rattle.std.specs.Prelude.{◌≡◌, ◌<◌, ◌≤◌, ℕ, Some};
ghost use Rattle.rule_model.specs.CellsModel.Reads.{Reading, first_loaded};
ghost use Rattle.rule_model.specs.CellsModel.Words.{block_words};
ghost use Rattle.rule_model.specs.Sight.{cells_of, with_found};
ghost use Rattle.store_words.specs.Reads.{IsBlockOf, HasOpenPass, HasReader, IsReadOf, PassIsTold, ReaderIsTold, read_ended, word_read};
ghost use Rattle.store_words.specs.Steps.{Knows};

use crate::accounts::Accounts;
use crate::lines::Block;
use crate::rule::Account;
use std::marker::Brand;
use txn_manager::Config;

impl Accounts {
    /// Loads a cell's version word. An even one begins a read.
    pub fn first_load(&self, seat: &mut Account, cell: u32) -> u64
        requires table { seat.old.table_id ≡ self.now.table.shared.table_id }
        requires cell { cell < cells_of self.now.config }
        ensures begun { Knows seat.old seat.new
            (with_found seat.old.me.0 (first_loaded cell result) cell result) }
    {
        // Has to be an acquire: words that are loaded later are no older than this one.
        let place = self.block_place(cell, 0);
        self.load_as::<Brand, u32>(seat, place, &cell)
    }

    /// Loads another word of the block.
    pub fn block_load(&self, seat: &mut Account, block: Block, word: u32) -> u64
        requires table { seat.old.table_id ≡ self.now.table.shared.table_id }
        requires block { IsBlockOf self.now.config block }
        requires word { (1 ≤ word) × (word < block_words) }
        requires reading { IsReadOf seat.old.me.0 block.cell }
        ensures loaded { Knows seat.old seat.new (word_read seat.old.me.0 word result) }
    {
        // Has to be an acquire: where a writer's word is found, so is that writer's version word, at the second load.
        let place = self.place_in(block, word);
        self.load_as::<Brand, u32>(seat, place, &word)
    }

    /// Loads the version word again, in an open transaction. Where it is that of the first load, the snapshot sees its
    /// view in what was loaded.
    pub fn second_load(&self, seat: &mut Account, cell: u32) -> u64
        requires table { seat.old.table_id ≡ self.now.table.shared.table_id }
        requires cell { cell < cells_of self.now.config }
        requires reading { IsReadOf seat.old.me.0 cell }
        requires pass { HasOpenPass seat.old.me.0 }
        ensures ended { Knows seat.old seat.new (read_ended seat.old.me.0 result) }
        ensures told { PassIsTold self.now.config seat.old.me.0 result }
    {
        // Comes after the loads of the block for all, since each of them is an acquire.
        let place = self.block_place(cell, 0);
        self.load_as::<Brand, Config>(seat, place, &self.config)
    }

    /// The same by a reader, whose snapshot is that of its pass when it was split off.
    pub fn reader_second_load(&self, seat: &mut Account, cell: u32) -> u64
        requires table { seat.old.table_id ≡ self.now.table.shared.table_id }
        requires cell { cell < cells_of self.now.config }
        requires reading { IsReadOf seat.old.me.0 cell }
        requires reader { HasReader seat.old.me.0 }
        ensures ended { Knows seat.old seat.new (read_ended seat.old.me.0 result) }
        ensures told { ReaderIsTold self.now.config seat.old.me.0 result }
    {
        // As the pass's.
        let place = self.block_place(cell, 0);
        self.load_as::<Brand, Config>(seat, place, &self.config)
    }
}
