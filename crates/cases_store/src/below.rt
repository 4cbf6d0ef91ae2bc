//! What crates above name of crates that they don't list.

pub use store_rule::{Pass, Passes, Store};
