//! What crates above name of crates that they don't list.

pub use cells_model::below::{
    Leaf, MERGE_ROWS, STAMPS_END, cuts_of, merge_leaves, split_entry, spread,
};
pub use store_relation::below::{Resting, Rows32, VersionSegment, is_marked, value_in_word};
