//! What crates above name of crates that they don't list.

pub use row_writes::below::{NOWHERE, Rows32, VersionSegment};
pub use row_writes::{EndKeys, Fingers, FoundRows, WrittenRows, check};
pub use store_rule::below::{Leaf, MERGE_ROWS, cuts_of, merge_leaves, split_entry, spread};
pub use store_rule::{Change, ClosedCells, Content, LatchPass, Pass, Passes, Store, StoreSlot};
