//! Room for rows that a pass makes beside running transactions.
//!
//! 1. A pass takes the leaf of the key and the index, and looks at the counts as they are then. Where the key's cell
//!    has the places nothing changes; else the smallest window that fits is spread.
//! 2. Where none fits and a leaf is free, all is given back and both leaves are taken in one go; what was seen before
//!    is looked at again then, since others may have come first.
//! 3. That the cell had its places, or that no leaf was free, is told by values that are made here alone, of what is in
//!    hand (`RoomMade`, `StoreFull`). A full store is noted in the pass's account while the index is in hand.
//! 4. While a pass holds a place it waits for no other without end.
#![tactic(auto)]

pub mod below;
mod full;
mod hand;
mod laws;
mod made;
mod make;
mod own;
mod split;
mod spread;

pub use laws::passes_go_on_with_room;
pub use made::{NoRoom, RoomMade, StoreFull};
pub use make::make_room;
pub use own::PassRoom;
