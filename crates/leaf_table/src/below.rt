//! What crates above name of crates that they don't list.

pub use leaf_array::below::{NOWHERE, RowChange, VersionSegment};
pub use leaf_array::{Leaf, merge_leaves, split_key, split_leaf, spread};
