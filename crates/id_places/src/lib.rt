//! Which ids a graph has, and where each stands among them; and numbers that tell edges apart.
//!
//! 1. A look-up is right whatever the table that makes it fast has room for: what the table misses is searched for.
//! 2. Where the numbers of two edges differ, so do the edges, and no id is written twice.
#![tactic(auto)]

mod distinct;
mod id_table;
mod numbers;
mod ranges;
mod slots;

pub use distinct::{are_distinct, are_distinct_by_threads};
pub use id_table::IdTable;
pub use numbers::{numbers_by_threads, numbers_of};
