//! A graph under transactions of many passes, which may run at once.
//!
//! 1. Each pass has at most one open transaction, and is in one thread at a time. Between two calls it holds no latch.
//! 2. A transaction sees the commits up to its start and its own writes, whatever other passes do.
//! 3. A write that another transaction stands against is refused, and the cause is named.
#![tactic(auto)]

pub mod below;
mod edges;
mod ends;
mod load;
mod pass;
mod reads;
mod totals;
mod transactions;
mod writes;

pub use ends::{Closed, Passes, close, let_go, new};
pub use load::{LoadedRefusal, loaded, loaded_by_threads};
pub use pass::Pass;
pub use pass_writes::Written;
pub use pass_writes::below::{RoomNeed, Store};
pub use reads::{has_vertex, scan_step, weight};
pub use transactions::{abort, begin, commit, meet};
pub use writes::write;
