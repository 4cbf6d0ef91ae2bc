//! Versions of rows, and what a store holds.
//!
//! 1. A row is its newest value and what takes each write back. Definitions say how it is read, checked and pruned.
//! 2. Laws say what each kind of change keeps. A store of any kind cites them, and proves none of them again.
#![tactic(auto)]

mod laws;
mod touches;
mod version;
mod versions;

pub use laws::{
    begins_keep_stores, cells_hold_contents, checks_are_exact, commits_keep_stores, examples_hold,
    moves_keep_stores, prunes_keep_stores, rows_give_views, rows_keep_values,
    rows_name_their_writers, stamps_change_no_value, stamps_follow_the_journal, tellers_agree,
    undos_keep_stores, writes_keep_stores,
};
pub use touches::touch_examples_hold;
pub use version::Version;
pub use versions::Versions;
