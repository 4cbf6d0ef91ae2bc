//! What crates above name of crates that they don't list.

pub use rule_model::below::{
    Leaf, MERGE_ROWS, Resting, Rows32, STAMPS_END, VersionSegment, cuts_of, is_marked,
    merge_leaves, split_entry, spread, value_in_word,
};
