//! The store of one owner: transactions over the leaves of a store, as an engine.
//!
//! 1. The rows hold the journal's graphs and, on them, the writes of the open transactions.
//! 2. The manager and the passes have the same open transactions.
//! 3. The leaves are no fuller than the rows that all writes may have inserted can make them. So a store that is full
//!    has had many inserted.
//! 4. A call that is refused leaves everything as it was, but for room, and for what its refusal notes.
#![tactic(auto)]

mod engine;
mod free;
mod load;
mod merge;
mod pass;
mod read;
mod serve;
mod settle;
mod store;
mod sweep;
mod totals;
mod write;

pub use serve::ServiceTurn;
pub use settle::CoreJournal;
pub use store::Core;
