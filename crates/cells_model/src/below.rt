//! What crates above name of crates that they don't list.

pub use leaf_store::below::{Leaf, cuts_of, merge_leaves, spread};
pub use leaf_store::{MERGE_ROWS, STAMPS_END, split_entry};
