//! Readers of an open transaction of a shared store: each scans what the transaction saw when it was split off, in a
//! thread of its own.
//!
//! 1. A reader is made of a pass without a transaction, to which the other one lends its account. It holds one cell at
//!    a time, and none between two calls.
//! 2. While a reader is out, its pass neither writes nor ends its transaction. Once it is joined, all is as it was.
//! 3. A run of rows is read without a latch. Where somebody changes the cell, where a row has undo records, or where
//!    no hint has the cell, it is read by the cell's latch.
#![tactic(auto)]

pub mod below;
mod parts;
mod place;
mod reader;
mod runs;
mod scans;

pub use parts::read_part;
pub use place::ReadPlace;
pub use reader::{SnapshotReader, join_reader, split_reader};
pub use runs::read_run;
pub use scans::scan_reader;
