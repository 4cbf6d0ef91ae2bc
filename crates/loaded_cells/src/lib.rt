//! The rows of a load, divided among leaves under an index, and then in the words of numbered cells.
//!
//! 1. Rows go from left to right, as many to a segment as the density limits allow. A leaf ends where the first row
//!    after it begins.
//! 2. The words of all cells follow each other by the numbers of the cells. A leaf that isn't live has cells without
//!    rows there.
#![tactic(auto)]

pub mod below;
mod fill;
mod laws;
mod rest;
mod words;

pub use fill::{LoadedLeaves, LoadedRange, divide_rows};
pub use rest::{count_rows, rest_cells};
pub use words::lay_words;
