//! What crates above name of crates that they don't list.

pub use row_table::combined;
