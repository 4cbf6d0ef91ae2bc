//! The latch table: cells that one pass at a time holds.
//!
//! 1. A cell's word is odd exactly while a pass holds it, and no two passes hold one.
//! 2. The slot of a free cell has a value that fits. Whoever takes the cell finds it, and puts one back.
//! 3. The word is two higher after each hold that changed the cell, so an equal word means an unchanged cell.
#![tactic(auto)]

mod backoff;
mod cells;
mod laws;
mod places;
mod rule;
mod several;
mod sight;
mod slot;
mod table;

pub use cells::{Busy, Cells, Held, Laid};
pub use laws::places_are_apart;
pub use places::{LINE, Places};
pub use rule::{Gives, LatchRule, LatchSeat, Looks, Takes};
pub use sight::{CellWord, LatchSight};
pub use slot::Slot;
pub use table::{Deals, LatchTable, Merges};
