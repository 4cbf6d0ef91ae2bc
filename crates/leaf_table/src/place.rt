//! Where a cell stands.
//!
//! 1. Cells are numbered over all leaves, eight to a leaf, so a cell's number is enough wherever both numbers would be
//!    carried.

ghost use Rattle.std.specs.Prelude.{◌≡◌, ◌/◌, ◌%◌};

use graph_model::LEAF_SEGMENTS;

/// The number of a leaf, and that of a segment in it.
#[derive(Clone, Copy, Debug, PartialEq, Eq)]
pub struct Place {
    /// The number of the leaf.
    pub leaf: usize,
    /// The number of the segment in it, below eight.
    pub segment: usize,
}

impl Place {
    /// That of a cell by its number.
    pub fn of_cell(cell: u32) -> Place
        ensures { result ≡ record { leaf = cell / 8; segment = cell % 8 } }
    {
        let cell = cell as usize;
        Place {
            leaf: cell / LEAF_SEGMENTS,
            segment: cell % LEAF_SEGMENTS,
        }
    }
}
