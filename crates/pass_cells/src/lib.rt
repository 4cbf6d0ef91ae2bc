//! Cells that a pass has in hand, and what it writes, takes back and reads there.
//!
//! 1. A pass takes the cells of a few keys, each once, in the order of their fence keys. While it holds one it waits
//!    for no other without end: where one stays busy, or isn't the key's, it gives all back and begins again.
//! 2. A cell that was taken is gathered and unpacked: its rows may change, and the pass's view knows them.
//! 3. Rows change in all cells first. Then one step at the table makes the view know it, and only then are the cells
//!    packed and given back.
#![tactic(auto)]

pub mod below;
mod change;
mod hints;
mod latch;
mod laws;
mod own;
mod put_back;
mod read;
mod room;
mod take;
mod taken;

pub use hints::CellHints;
pub use latch::{give_places, take_next_place, try_place};
pub use laws::{rows_in_hand_are_known, writes_have_their_rows};
pub use own::{MOST_CELLS, PassCells};
pub use read::CellRun;
pub use room::RoomNeed;
pub use take::gather;
pub use taken::{TakenCell, TakenCells};
