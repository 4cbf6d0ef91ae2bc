//! Readers of an open transaction: seats that read by the account of a pass, each in a thread of its own.
//!
//! 1. A reader is a pass without a transaction of its own, to which another pass lends its account. It sees what that
//!    pass's transaction saw then, until it gives the account back.
//! 2. The pass counts its readers that are out. While there is one it neither writes nor ends its transaction.
#![tactic(auto)]

pub mod below;
mod hand;
mod learn;
mod lend;
mod looks;
mod runs;

pub use learn::learn_rows;
pub use lend::{join_reader, split_reader};
pub use looks::{ReaderStates, Reading};
pub use runs::read_run;
