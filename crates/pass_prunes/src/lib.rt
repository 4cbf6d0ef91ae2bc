//! Rows in the cells that a pass has in hand are pruned before they are put back.
//!
//! Whoever has committed may let go at once what nobody sees any more: its records would else stay until a sweep comes
//! by, and each write of the cell would carry them along.
#![tactic(auto)]

pub mod below;
mod taken;

pub use taken::prune_taken;
