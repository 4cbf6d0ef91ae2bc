//! The leaves of a store by their least keys, under a trie over the bytes of keys.
//!
//! 1. Each leaf stands 16 bytes deep, with a node for each byte of its least key.
//! 2. A node has up to 16 children in a list, or also a table of 256 places, one for each byte.
//! 3. A search ends where one leaf alone is left.
#![tactic(auto)]

mod branch;
mod path;
mod start;
mod trie;

pub use start::{Candidates, LeafStart};
pub use trie::LeafTrie;
