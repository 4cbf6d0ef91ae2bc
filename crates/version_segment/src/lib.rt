//! Segments of versioned rows.
//!
//! 1. A row has its newest value in the segment. Only a changed row has more memory: its undo records and
//!    touches, and an entry that says by its place where they begin.
//! 2. A call that is given a key changes the versions of that key alone.
//! 3. A row without value, records and touches isn't there.
#![tactic(auto)]

mod ahead;
pub mod below;
mod buffer;
mod change;
mod fill;
mod laws;
mod lookup;
mod moves;
mod resting;
mod segment;
mod value_word;

pub use buffer::Rows32;
pub use change::RowChange;
pub use laws::{
    changes_are_by_key, changes_are_of_versions, checks_are_by_names, segments_are_cells,
    segments_rest_and_wake, segments_settle, value_words_tell_values,
};
pub use resting::Resting;
pub use row_table::{NOWHERE, RowView};
pub use segment::VersionSegment;
pub use value_word::{is_marked, value_in_word};
