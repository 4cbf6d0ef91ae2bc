//! What crates above name of crates that they don't list.

pub use version_segment::{NOWHERE, RowChange, RowView, Rows32, VersionSegment, value_in_word};
