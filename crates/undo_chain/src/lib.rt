//! Undo records of changed rows, in lists that share one block of memory.
//!
//! 1. A list is linked by keys, newest record first. No two lists share a record.
//! 2. A call that is given a head changes the list under it alone.
//! 3. What takes memory says so by `NoMemory`.
#![tactic(auto)]

mod chains;
mod laws;
mod link;
mod packed;
mod slots;
mod states;
mod touched;
mod undo;

pub use chains::Chains;
pub use laws::lists_are_versions;
pub use link::{Link, MOST_RECORDS};
pub use states::{Snapshot, States};
pub use touched::Touched;
pub use undo::Undo;
