//! Where keys were found, for the calls to come.
//!
//! 1. A finger is of a cell and of a place in it. Rows may have moved since, so it may point elsewhere.
//! 2. Whoever is given one looks there first, and sees by the fence keys of the cell, and by two rows, whether the
//!    key is there. Where it isn't, the index and the cell are searched. So no clause speaks of fingers, and a wrong
//!    one costs time alone.
//! 3. A write asks eight to fourteen times for its four keys. With fingers each is searched for once, and a look at a
//!    slot and at two rows comes in the place of the other searches.

use leaf_array::below::NOWHERE;

/// Where a key was found.
#[derive(Clone, Copy, Debug, PartialEq, Eq)]
pub struct Finger {
    /// The number of the cell.
    pub cell: u32,
    /// Its place among the rows of the cell.
    pub row: usize,
}

impl Finger {
    /// Points nowhere, for a key that wasn't looked for yet.
    pub fn nowhere() -> Finger {
        Finger {
            cell: 4294967295,
            row: NOWHERE,
        }
    }

    /// Points to the first cell of a leaf.
    pub fn of_leaf(leaf: u32) -> Finger {
        Finger {
            cell: leaf.wrapping_mul(8),
            row: NOWHERE,
        }
    }

    /// Points to the cell with the next number, in which the next keys are likely to be.
    pub fn next_cell(self) -> Finger {
        Finger {
            cell: self.cell.wrapping_add(1),
            row: NOWHERE,
        }
    }
}
