//! Sorted rows with their records.
//!
//! 1. The heads of a row are found by its place, so they move where it moves.
//! 2. Each change of a row goes through `set_row`, `set_lists` or `insert_row`, so that its weight and its heads agree.
//! 3. Rows that go to a neighbour take their records along.
#![tactic(auto)]

pub mod below;
mod checks;
mod found;
mod hand;
mod rows;
mod view;

pub use checks::combined;
pub use found::{FoundRow, find_row, insert_row, prune_row, set_row, value_in};
pub use rows::RowTable;
pub use view::{NOWHERE, RowView, look_up};
