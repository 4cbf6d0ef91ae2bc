//! What a worker does with its pass at each call: it reads, scans, writes, commits and aborts.
//!
//! 1. Between two calls the pass has no transaction, or an open one, and holds no latch.
//! 2. A read tries without a latch first, in the cell that a hint names. A latch is taken only where that gives no answer.
//! 3. A write that finds no place is tried again as soon as there is room, as one write to whoever asked for it.
#![tactic(auto)]

pub mod below;
pub mod calls;
mod one_list;
mod reads;
mod room;
mod scan_place;
mod scans;
mod writes;

pub use one_list::{filled_up, read_alone};
pub use room::has_room;
pub use scan_place::ScanPlace;
