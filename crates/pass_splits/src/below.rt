//! What crates above name of crates that they don't list.

pub use pass_moves::below::{HeldIndex, LeafInHand, PassLeaves};
pub use pass_moves::{CellRoom, free_places};
