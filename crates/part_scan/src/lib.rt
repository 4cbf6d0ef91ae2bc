//! Scans of a whole view by several readers at once.
//!
//! 1. Each reader gives a list of rows, and the lists, one after the other, are the rows of the view.
//! 2. How the view is cut is the engine's own choice: some lists may be long and others empty.
#![tactic(auto)]

mod lists;
mod scans;

pub use graph_model::NoMemory;
pub use lists::{RowList, RowLists, cut_rows};
pub use scans::PartScan;
