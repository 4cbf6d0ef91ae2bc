//! What crates above name of crates that they don't list.

pub use leaf_table::below::{Leaf, RowChange, merge_leaves, spread};
pub use leaf_table::cuts_of;
