//! Where the words of a store lie.
//!
//! 1. Words that one pass writes often have a line of the cache for themselves, so a begin of one pass costs no other
//!    one a miss.
//! 2. Blocks lie one after the other with no room between: only whoever holds a cell writes there.

ghost use Rattle.std.specs.Prelude.{◌≡◌, ◌<◌, ◌+◌};
ghost use Rattle.rule_model.specs.CellsModel.Words.{block_words};
ghost use Rattle.rule_model.specs.Places.{lines, block_place};
ghost use Rattle.rule_model.specs.Sight.{cells_of};
ghost use Rattle.store_words.specs.Reads.{IsBlockOf};
ghost use Rattle.store_words.specs.Steps.{word_count};

use crate::accounts::Accounts;

/// The first word that is written: word 0 is left alone, since each split and join of a seat loads it.
const CLOCK: usize = 8;

/// The word of the first pass.
const PASSES: usize = 16;

/// From one pass's word to the next one's: a line of the cache for the word, and one for the pin.
const PASS_STRIDE: usize = 16;

/// The words of a cell's block.
const BLOCK: usize = 102;

/// A cell's block among the words. Whoever loads many of its words finds its begin once.
#[derive(Clone, Copy)]
pub struct Block {
    /// The number of the cell.
    pub cell: u32,
    /// The place of its first word.
    pub begin: usize,
}

impl Accounts {
    /// The place of the clock.
    pub fn clock_place(&self) -> usize
        ensures place { result ≡ (lines self.now.config.passes).clock }
        ensures inside { result < word_count self.now.config }
    {
        CLOCK
    }

    /// The place of a pass's word.
    pub fn pass_place(&self, pass: u32) -> usize
        requires { pass < self.now.config.passes }
        ensures place { result ≡ (lines self.now.config.passes).pass pass }
        ensures inside { result < word_count self.now.config }
    {
        PASSES + PASS_STRIDE * pass as usize
    }

    /// The place of a word of a cell's block.
    pub fn block_place(&self, cell: u32, word: u32) -> usize
        requires cell { cell < cells_of self.now.config }
        requires word { word < block_words }
        ensures place { result ≡ block_place (lines self.now.config.passes) cell word }
        ensures inside { result < word_count self.now.config }
    {
        let begin = self.block_begin(cell);
        self.place_in(Block { cell, begin }, word)
    }

    /// The place of the first word of a cell's block.
    pub fn block_begin(&self, cell: u32) -> usize
        requires { cell < cells_of self.now.config }
        ensures { result ≡ (lines self.now.config.passes).cell cell }
    {
        PASSES + PASS_STRIDE * self.config.passes as usize + BLOCK * cell as usize
    }

    /// The place of a word of a block.
    pub fn place_in(&self, block: Block, word: u32) -> usize
        requires block { IsBlockOf self.now.config block }
        requires word { word < block_words }
        ensures place { result ≡ block_place (lines self.now.config.passes) block.cell word }
        ensures inside { result < word_count self.now.config }
    {
        block.begin + word as usize
    }
}
