//! The live leaves of a store under their index: which cell holds a key, changes of one cell, and room.
//!
//! 1. The cells of the live leaves follow each other from the first key to `Key::END`, and each row stands in the cell
//!    whose fence keys hold its key. So what a key has is what its cell has.
//! 2. The index has the leaves in the order of their keys, and the least keys of their segments.
//! 3. A spread and a split keep each key's versions. Memory is taken before anything moves.
//! 4. Where a window is to be spread, or two neighbours are to become one leaf, a leaf of it waits in the queue.
#![tactic(auto)]

pub mod below;
mod change;
mod count;
mod fill;
mod merge;
mod pair;
mod place;
mod queue;
mod range;
mod room;
mod sparse;
mod split;
mod spread;
mod store;
mod work;

pub use leaf_table::Finger;
pub use pair::{MERGE_ROWS, STAMPS_END};
pub use split::split_entry;
pub use store::{KeyRange, LeafStore, Pruned};
