//! The store of many threads: two tables under one rule, and the passes that step on them.
//!
//! 1. The latch table says who holds a cell, the index or the journal. What lies in a slot has a note beside it, a seat
//!    of the account table that knows the value's contents.
//! 2. Who takes a value gathers its note, and lays a new one before it puts the value back. So at any time each content
//!    is known to one seat, in a slot or with a pass, and the rule of the account table speaks of all contents.
//! 3. Rows of a cell change while it is unpacked. Its block spells them again once it is packed, and only then may its
//!    note be laid.
#![tactic(auto)]

pub mod below;
mod buffers;
mod change;
mod close;
mod closed;
mod fill;
mod gather;
mod lay;
mod make;
mod pack;
mod slot;
mod store;

pub use buffers::{Buffers, MOST_UNPACKED};
pub use change::Change;
pub use close::Content;
pub use closed::ClosedCells;
pub use loaded_cells::below::Resting;
pub use slot::{Room, StoreSlot};
pub use store::{LatchPass, Pass, Passes, Store};
