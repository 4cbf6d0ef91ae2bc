//! The memory of leaves by their numbers: what their segments say of themselves, what is read of them ahead, and the
//! leaves of a load.
//!
//! 1. A leaf has memory or none. Where a cell stands is a leaf's number and a segment's.
//! 2. Reads ahead change no answer.
#![tactic(auto)]

mod ahead;
pub mod below;
mod fill;
mod finger;
mod load;
mod look;
mod place;
mod table;

pub use ahead::{count_with_memory, fingers_at, sum_ahead, sum_leaf_ahead};
pub use fill::FULL_LEAF;
pub use finger::Finger;
pub use load::{LoadLeaves, leaves_of, leaves_of_halves};
pub use look::{counts_of, cuts_of};
pub use place::Place;
pub use table::{empty_table, put_leaf};
