//! What a write checks, lays and takes back, over the cells that its writer holds.
//!
//! 1. One value names the rows of a write, for whoever checks, lays or undoes it.
//! 2. A check asks the view first, and then the writers in the rows that the write looks at.
//! 3. Memory for all rows of a write is taken before the first of them changes.
#![tactic(auto)]

pub mod below;
mod cells;
mod checks;
mod laying;
mod undoing;
mod written;

pub use cells::HeldCells;
pub use checks::check;
pub use laying::lay;
pub use undoing::undo;
pub use written::{EndKeys, Fingers, FoundRows, WrittenRows};
