//! Transactions of one owner: the journal of their commits, which of them are open and since when, and
//! the configuration of a store.
//!
//! 1. A pass has one open transaction at most, and begins no more than it may.
//! 2. The journal has room for a commit of each open transaction, so a commit takes no memory.
//! 3. The stamp of a commit is found by its transaction's name in one step.
#![tactic(auto)]

mod config;
mod history;
mod laws;
mod manager;

pub use config::{Config, RoomRefusal, StoreRefusal, Totals};
pub use laws::{calls_follow_transactions, checked_commits_are_legal, horizon_is_safe};
pub use manager::TxnManager;
