//! Leaves: eight version segments, one after the other, and moves of rows within a leaf and between two.
//!
//! 1. Each segment ends where the next one begins.
//! 2. A call that moves rows keeps them all, in the order of their keys, with their versions.
//! 3. Memory is taken before anything moves. Where memory runs out only the room for records has changed, and after
//!    a move what is left over is given back.
#![tactic(auto)]

pub mod below;
mod counting;
mod leaf;
mod memory;
mod neighbours;
mod pairs;
mod rows;
mod window;

pub use leaf::Leaf;
pub use pairs::{merge_leaves, split_leaf};
pub use rows::split_key;
pub use window::spread;
