//! What a store that many passes share keeps through each step of a transaction.
//!
//! 1. Words, passes, journal and rows are plain functions in `specs/`, wherever a store keeps them.
//! 2. There is no store and nothing to run: a store shows that each of its steps is one of these.
#![tactic(auto)]

pub mod below;
mod laws;
mod stage;

pub use laws::{
    aborts_keep_the_rule, accounts_follow_steps, begins_keep_the_rule, checks_allow_writes,
    commits_keep_the_rule, conflicts_are_noted, examples_hold, notes_keep_the_rule,
    prunes_keep_the_rule, readers_keep_the_rule, reads_are_of_the_view, rows_change_by_writes,
    segments_change_by_key, stores_close, words_tell_of_writers, writes_keep_the_rule,
};
pub use stage::Stage;
