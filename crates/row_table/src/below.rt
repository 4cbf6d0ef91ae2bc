//! What crates above name of crates that they don't list.

pub use head_map::below::{Chains, Snapshot, States, Touched};
pub use head_map::{HeadMap, Heads, RestingHeads};
