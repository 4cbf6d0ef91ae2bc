//! What crates above name of crates that they don't list.

pub use leaf_rows::below::{MERGE_ROWS, VersionSegment};
pub use pass_writes::below::{Store, SweepKey, sweep_step};
