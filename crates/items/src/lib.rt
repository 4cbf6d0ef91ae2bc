//! Lists in one block of memory that contracts see as lists, and the answer of a call that ran out of memory.
//!
//! 1. A list is made of a `Vec` and gives it back with no memory taken.
//! 2. After a refused call a list is as it was.
#![tactic(auto)]

mod list;
mod memory;
mod roomy;

pub use list::Items;
pub use memory::NoMemory;
pub use roomy::RoomyItems;
