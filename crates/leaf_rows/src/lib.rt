//! Rows of transactions in the leaves of a store: what transactions read in them, what they lay in them and take back,
//! and who stands against a write.
//!
//! 1. What a key has is what its cell has, so calls that move rows change no answer.
//! 2. A writer's stamp is asked of the manager: no record carries one.
//! 3. Room and memory for all rows of a write are made before the first of them changes.
#![tactic(auto)]

pub mod below;
mod check;
mod count;
mod edges;
mod fill;
mod held;
mod lay;
mod look;
mod merge;
mod read;
mod reader;
mod room;
mod rows;
mod runs;
mod scan;
mod settle;

pub use edges::any_with;
pub use held::{FoundInLeaves, LeafFingers};
pub use leaf_store::{Pruned, STAMPS_END};
pub use reader::Reader;
pub use row_writes::{EndKeys, WrittenRows};
pub use rows::{LeafRows, SeenCounts};
