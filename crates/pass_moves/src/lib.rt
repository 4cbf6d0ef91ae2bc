//! Moves of rows between cells that a pass has in hand, with the index.
//!
//! 1. Rows move in all cells first, and the index gets the new cuts. Then one load of the clock makes the pass's view
//!    know both.
//! 2. Only the cells of the window that is spread are marked as changed. All others go back as they were found.
//! 3. Memory is taken before anything moves. Where memory runs out only room for records has changed.
#![tactic(auto)]

pub mod below;
mod contents;
mod room;
mod spread;
mod step;

pub use contents::{count_rows, exchange, mark};
pub use room::{CellRoom, counts_in, free_places, is_crowded};
pub use spread::spread_window;
pub use step::Moving;
