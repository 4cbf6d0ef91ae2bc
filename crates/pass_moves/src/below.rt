//! What crates above name of crates that they don't list.

pub use pass_leaves::below::{
    CellHints, Change, Leaf, MERGE_ROWS, Pass, Store, TakenCell, cuts_of, merge_leaves, split_entry,
};
pub use pass_leaves::{HeldIndex, LeafInHand, PassLeaves};
