//! What crates above name of crates that they don't list.

pub use undo_chain::{Chains, Link, Snapshot, States, Touched, Undo};
