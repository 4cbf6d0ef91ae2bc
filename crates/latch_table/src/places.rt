//! Where the words of cells lie.
//!
//! 1. Cells that are taken each by itself lie side by side. Those that many passes want lie 8 words from them and from
//!    each other, so that whoever takes one doesn't take the line of another's word from the cache.
//! 2. Word 0 is no cell's: each split and join of a seat loads it, and nobody writes it.

ghost use Rattle.std.specs.Prelude.{◌≡◌, ◌<◌, ◌+◌, ◌*◌, ◌^◌};
ghost use Rattle.latch_table.specs.Places.{place_of_common, place_of_wanted, words_of_places};

/// So many words of 8 bytes fill a line of the cache.
pub const LINE: u32 = 8;

/// A layout of so many common cells, and of so many that many passes want.
#[derive(Clone, Copy, Debug, Drop)]
pub struct Places {
    /// How many cells lie side by side.
    pub common: u32,
    /// How many have a line of the cache each.
    pub wanted: u32,
    pub ghost small: { common + 8 * wanted < 2 ^ 31 },
}

impl Places {
    /// The place of a common cell.
    pub fn common(&self, number: u32) -> u32
        requires { number < self.now.common }
        ensures { result ≡ place_of_common number }
    {
        LINE + number
    }

    /// The place of a cell that many passes want.
    pub fn wanted(&self, number: u32) -> u32
        requires { number < self.now.wanted }
        ensures { result ≡ place_of_wanted self.now.common number }
    {
        2 * LINE + self.common + LINE * number
    }

    /// How many words the table has.
    pub fn words(&self) -> usize
        ensures { result ≡ words_of_places self.now.common self.now.wanted }
    {
        (2 * LINE + self.common + LINE * self.wanted) as usize
    }
}
