//! How room for rows is made in a leaf: which of its windows is spread, or whether the leaf is split.
//!
//! 1. The choice looks at the counts of one leaf and at how many leaves are free. It changes nothing, so the owner of a
//!    whole store and a pass that holds the cells of one leaf make it alike.
//! 2. A leaf is split, and a store is full, only where no window of the leaf fits. It then has 103 rows at least beside
//!    those of a leaf that has just been split.
//! 3. No call takes memory.
#![tactic(auto)]

mod choice;

pub use choice::{RoomChoice, choose_room};
