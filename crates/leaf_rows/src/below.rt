//! What crates above name of crates that they don't list.

pub use leaf_store::MERGE_ROWS;
pub use row_writes::below::{Rows32, VersionSegment, value_in_word};
