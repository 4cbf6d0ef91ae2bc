//! Segments: at most 32 rows in one block of memory, sorted by key, between fence keys.
//!
//! 1. Keys strictly rise, from the low fence key on and below the high one.
//! 2. The block is taken when a segment is made. No other call takes memory, and none can fail.
#![tactic(auto)]

mod fill;
mod segment;

pub use segment::Segment;
