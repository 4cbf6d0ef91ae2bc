//! Where the records of changed rows begin, by the places of the rows.
//!
//! 1. Places strictly rise, and changed rows alone are named.
//! 2. Rows that come, go or move take their heads along: the places of those after them shift.
#![tactic(auto)]

pub mod below;
mod heads;
mod list;
mod packed;
mod resting;

pub use heads::{HeadMap, Heads};
pub use packed::PackedHeads;
pub use resting::RestingHeads;
