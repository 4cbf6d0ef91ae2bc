//! Where a reader looks for the rows that come next.
//!
//! 1. It decides which cell is tried first, and never what is read.

use graph_model::Key;
use optimistic_read::TriedRun;
use pass_readers::below::CellHints;

/// A leaf has so many cells.
const SEGMENTS: u32 = 8;

/// No cell has this number.
const NOWHERE: u32 = u32::MAX;

/// Where a reader has come to, and the hints that it asks, which any number of readers may share. Kept: the cell in
/// which the next rows are likely to stand. It may be wrong, since rows move, and a run may begin elsewhere. That is
/// harmless: a cell's fence keys tell whether it is the key's, and where no cell that is tried has the key its own one
/// is taken. It costs 16 bytes, and spares each run but the first one of a leaf the search among the hints.
#[derive(Drop)]
pub struct ReadPlace<'a> {
    hints: &'a CellHints,
    pub(crate) cell: u32,
}

impl<'a> ReadPlace<'a> {
    /// The reader has read nothing.
    pub fn new(hints: &'a CellHints) -> ReadPlace<'a> {
        ReadPlace {
            hints,
            cell: NOWHERE,
        }
    }

    /// The first cell of the leaf that a hint names for a key.
    pub(crate) fn go_to(&mut self, key: Key) {
        self.cell = self.hints.leaf_of(key).saturating_mul(SEGMENTS);
    }

    /// The next cell of the leaf, or none behind its last one.
    pub(crate) fn go_on(&mut self) {
        let next = self.cell.saturating_add(1);
        self.cell = if next % SEGMENTS == 0 { NOWHERE } else { next };
    }

    /// Goes on where a run went to the end of its cell.
    pub(crate) fn go_behind(&mut self, tried: &TriedRun) {
        if matches!(tried, TriedRun::Rows { .. }) {
            self.go_on();
        }
    }
}
