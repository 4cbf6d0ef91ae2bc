//! What crates above name of crates that they don't list.

pub use store_rule::below::{
    Account, AccountSight, Accounts, Block, STAMPS_END, Turn, Turns, VersionSegment, is_marked,
    value_in_word,
};
pub use store_rule::{Change, Pass, Resting, Store};
