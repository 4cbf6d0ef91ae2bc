//! Sweeps of a pass beside running transactions: old versions go out of leaves, and retired leaves are freed.
//!
//! 1. A sweep loads the clock, then the pin of each pass. Its horizon is the least of the clock and of the starts
//!    found, and nobody who is open, or begins later, sees below it.
//! 2. Each cell is held by itself. Its rows are pruned at the horizon, by the journal as far as the pass has seen it,
//!    and a cell without records is given back as it was found.
//! 3. With the last leaf the index is held from before the sweep begins until retired leaves are freed, so that nobody
//!    notes a leaf meanwhile. It is given back before cells are held: whoever moves rows holds cells and waits for the
//!    index.
#![tactic(auto)]

pub mod below;
mod cells;
mod index;
mod laws;
mod leaf;
mod pins;
mod prune;
mod seen;
mod step;

pub use cells::{give_cell, take_cell};
pub use index::LeavesFreed;
pub use laws::{sweeps_keep_the_rule, swept_passes_go_on};
pub use leaf::{LeafSwept, sweep_leaf};
pub use pins::{end_sweep, sweep_pins};
pub use prune::prune_rows;
pub use seen::learn_writers;
pub use step::{SweepKey, SweepTurn, key_after, sweep_step};
