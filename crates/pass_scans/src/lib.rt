//! Rows that an open transaction reads in a packed cell, as it lies in its slot.
//!
//! 1. The words of all rows are loaded, and of rows without undo records nothing else is looked at. What is kept of the
//!    others stays where it is: no cell is unpacked.
//! 2. Cells in which a scan has met records are settled as they lie, as soon as nobody needs these.
//! 3. A cell is taken by its number, which may lag behind: its fence keys tell whether it is the key's.
#![tactic(auto)]

pub mod below;
mod packed;
mod run;
mod swept;

pub use run::{PackedRun, read_packed};
pub use swept::settle_swept;
