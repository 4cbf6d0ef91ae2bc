//! What crates above name of crates that they don't list.

pub use pass_cells::below::Rows32;
