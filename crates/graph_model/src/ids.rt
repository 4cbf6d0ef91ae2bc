//! Vertex ids, in lists. The order is the maker's, and an id may stand twice.

use items::Items;

/// Vertex ids, one after the other.
pub type Ids = Items<u64>;
