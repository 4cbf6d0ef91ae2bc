//! Leaves that a pass has in hand, with the index.
//!
//! 1. A pass takes all eight cells of a leaf in the order of their fence keys, then those of another leaf if it wants
//!    two, and the index last. While it holds a place it waits for no other without end: where one stays busy it gives
//!    all back and begins again.
//! 2. Only the index tells which leaf has a key. So a hint is tried, and cells are unpacked once the index in hand has
//!    shown that it was right.
//! 3. What is in hand is what the pass's view knows of these cells and of the index.
#![tactic(auto)]

pub mod below;
mod fit;
mod latch;
mod own;
mod put_back;
mod take;
mod unpack;

pub use own::{MOST_LEAF_CELLS, PassLeaves};
pub use take::{HeldIndex, LeafInHand};
