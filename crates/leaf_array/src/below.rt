//! What crates above name of crates that they don't list.

pub use version_segment::{NOWHERE, RowChange, Rows32, VersionSegment};
