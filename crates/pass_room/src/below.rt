//! What crates above name of crates that they don't list.

pub use pass_writes::below::{CellHints, LeafSwept, SweepKey, SweepTurn, sweep_step};
