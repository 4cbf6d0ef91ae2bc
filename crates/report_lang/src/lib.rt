//! The texts that a run leaves of itself: reports and the journal are written.
//!
//! 1. What a writer puts after a text is what `run_model` defines, and nothing else.
//! 2. A call that is refused memory leaves the text as it was.
//!
//! An answer is added by one variant of `Answer` and one arm of `write_answer`, a write by one variant of `Write` and
//! one arm of `write_change`.
#![tactic(auto)]

mod journal;
mod pieces;
mod report;

pub use journal::{text_of_journal, write_journal};
pub use report::{text_of_report, write_report};
