//! The leaves of a store: which leaf and which of its segments hold a key, and which leaves are not in use.
//!
//! 1. The ranges of live leaves follow each other, from the first key to `Key::END`.
//! 2. A leaf has eight cuts, its segments' least keys, which rise from its own least key to the end of its range.
//! 3. Each leaf is live, free, retired or taken, and is only one of these. So one table of links does for the lists of
//!    free and of retired leaves, and only `add_leaf` takes memory.
#![tactic(auto)]

mod chain;
mod hints;
mod idle;
mod index;
mod release;
mod route;
mod slot;

pub use index::LeafIndex;
pub use route::{LeafRange, Retired, Route};
