//! What is answered of keys, and leaves that wait to be freed.
//!
//! 1. A cell's number tells its leaf and its segment, `8 * l + s`, so one number is carried.

ghost use Rattle.std.specs.Prelude.{◌≡◌};
ghost use Rattle.graph_model.specs.Rows.{is_between};

use graph_model::Key;

/// The cell whose range holds a key, with its range. The cell of segment s of leaf l is `8 * l + s`.
#[derive(Clone, Copy, Debug, PartialEq, Eq)]
pub struct Route {
    /// The number of the cell.
    pub cell: u32,
    /// The least key that it may have.
    pub low: Key,
    /// The first key beyond it.
    pub high: Key,
}

impl Route {
    /// Whether the cell's range holds the key.
    pub fn holds(&self, key: Key) -> bool
        ensures { result ≡ is_between self.now.low self.now.high key }
    {
        !key.is_below(self.low) && key.is_below(self.high)
    }
}

/// A leaf with its range.
#[derive(Clone, Copy, Debug, PartialEq, Eq)]
pub struct LeafRange {
    /// The number of the leaf.
    pub leaf: u32,
    /// The least key that it may have.
    pub low: Key,
    /// The first key beyond it.
    pub high: Key,
}

/// A leaf that some readers may still reach, with a stamp that tells which.
#[derive(Clone, Copy, Debug, PartialEq, Eq)]
pub struct Retired {
    /// The number of the leaf.
    pub leaf: u32,
    /// The number of commits when it was retired.
    pub stamp: u64,
}
