//! The store for a program that is written in Rattle: it is opened, sessions work on it, each in a thread of its own
//! where there are several, and it is closed.
//!
//! 1. Whoever works with a session is lent it, and gives it back by the same type. Which session of which store it is
//!    stands in that type, so the store has all its passes again, and can be closed.
//! 2. A work that ends can't leave a transaction open: the type of what it gives back says that there is none.
#![tactic(auto)]

mod lend;
mod store;

pub use graph_model::{
    BeginRefusal, Cause, Cursor, Key, Kind, MAX_ID, MAX_TXNS_PER_PASS, MAX_WEIGHT, NoMemory,
    Refusal, Row, Rows64, VertexEngine, Write, Writes,
};
pub use lend::Work;
pub use rebalance_service::below::{Closed, LoadedRefusal};
pub use sessions::{
    Committed, Neighbour, NotBegun, RetryError, Session, SessionPlace, Transaction, TransactionBody,
};
pub use store::GraphStore;
pub use txn_manager::{Config, StoreRefusal};
