//! Cells of a commit whose rows all settle: they are stamped and pruned without being unpacked.
//!
//! 1. Where nobody is open who began before a commit, nothing is left of its cells once they are stamped and pruned but
//!    the newest value of each row. What is kept of a packed cell tells so without its rows.
//! 2. Then only the marks of the words go. A cell of which something would be left is given back as it was found, or
//!    stamped as it lies.
//! 3. A pass notes the cells that its commits leave with records, and later ones settle them.
#![tactic(auto)]

mod cell;
mod fences;
mod keys;
mod marks;
mod swept;
mod unsettled;

pub use cell::{lower_cell, raise_cell};
pub use fences::Fences;
pub use keys::{Unsettled, settle_keys};
pub use swept::{settle_at_horizon, settle_reached};
pub use unsettled::UnsettledCells;
