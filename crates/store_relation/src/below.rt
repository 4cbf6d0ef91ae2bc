//! What crates above name of crates that they don't list.

pub use version_segment::{Resting, Rows32, VersionSegment, is_marked, value_in_word};
