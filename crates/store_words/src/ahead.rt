//! What stands in the words of cells that nobody has to hold.
//!
//! A load with no latch tells nothing: no clause speaks of what is found, and whoever uses it may be wrong.

ghost use Rattle.std.specs.Prelude.{◌<◌};
ghost use Rattle.rule_model.specs.Sight.{cells_of};

use crate::accounts::Accounts;
use crate::lines::Block;
use graph_model::Key;

/// A line of memory has so many words.
const LINE: usize = 8;

/// The words of a block.
const BLOCK_WORDS: u32 = 102;

impl Accounts {
    /// The sum of a word in each line of a cell's block. Whoever keeps it keeps a compiler from leaving out the reads.
    pub fn sum_ahead(&self, cell: u32) -> u64
        requires { cell < cells_of self.now.config }
    {
        let begin = self.block_begin(cell);
        let block = Block { cell, begin };
        let mut sum: u64 = 0;
        'lines: for word in (0..BLOCK_WORDS).step_by(LINE) {
            // Needs no order, and what is found may be past: only that it was read counts.
            sum = sum.wrapping_add(self.peek_in(block, word));
        }
        sum
    }

    /// The low fence key that a cell's block spells, where that is below the high one.
    pub fn likely_low(&self, cell: u32) -> Option<Key>
        requires { cell < cells_of self.now.config }
    {
        // These loads need no order: of a pair that is half of a change a wrong guess is made, and no more.
        let low = Key {
            src: self.peek_word(cell, 2),
            second: self.peek_word(cell, 3),
        };
        let high = Key {
            src: self.peek_word(cell, 4),
            second: self.peek_word(cell, 5),
        };
        // A leaf that isn't live spells two equal fence keys, or an older pair.
        low.is_below(high).then_some(low)
    }
}
