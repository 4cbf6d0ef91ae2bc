//! What crates above name of crates that they don't list.

pub use pass_cells::below::{
    Change, Leaf, MERGE_ROWS, Pass, Store, VersionSegment, cuts_of, merge_leaves, split_entry,
    spread,
};
pub use pass_cells::{CellHints, TakenCell};
