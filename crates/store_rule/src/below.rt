//! What crates above name of crates that they don't list.

pub use loaded_cells::below::{
    Leaf, MERGE_ROWS, STAMPS_END, VersionSegment, cuts_of, is_marked, merge_leaves, split_entry,
    spread, value_in_word,
};
pub use store_words::{Account, AccountSight, Accounts, Block, Turn, Turns};
