//! A disk: files of which one is chosen, and what a crash may leave of it.
//!
//! 1. Between two syncs a crash may leave any bytes in what was written, and past the old end; all other bytes stay.
//!    A call that failed may have done its part.
//! 2. After a sync a crash leaves what a read gives.
//! 3. A call that fails is counted, and no other call changes the count.
#![tactic(auto)]

mod disk;
mod memory_disk;
mod std_disk;

pub use disk::Disk;
pub use memory_disk::MemoryDisk;
pub use std_disk::StdDisk;
