//! Leaves in hand that are split: the second half of a leaf's rows moves to a leaf that was free.
//!
//! 1. A pass has the cells of both leaves in hand, and the index last. It has taken them in one go, knowing the free
//!    leaf's number from an earlier look at the index; so it looks again whether that one is still the next to be
//!    taken.
//! 2. Memory is taken before anything moves. Where memory runs out only room for records has changed.
//! 3. Rows move in all cells first, and the index gets the new entry. Then one load of the clock makes the pass's view
//!    know both.
#![tactic(auto)]

pub mod below;
mod free;
mod rows;
mod split;

pub use free::next_free;
pub use split::{Split, split_free};
