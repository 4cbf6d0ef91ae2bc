//! What crates above name of crates that they don't list.

pub use shared_store::below::{SweepKey, sweep_step};
pub use shared_store::{Pass, Store, abort, begin, close, commit, new};
