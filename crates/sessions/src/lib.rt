//! Sessions: transactions whose state is told by their types, over any engine.
//!
//! 1. Whether a session has an open transaction is told by its type: `Session` has none, and `Transaction` is one. Each
//!    turns into the other by value, so nothing is left open by mistake.
//! 2. A session is lent to whoever works with it, and comes back by the same type. Which session of which store it is
//!    stands in that type, so what comes back is what was lent.
#![tactic(auto)]

mod place;
mod retry;
mod scans;
mod session;
mod transaction;

pub use place::SessionPlace;
pub use retry::{RetryError, TransactionBody};
pub use scans::Neighbour;
pub use session::{NotBegun, Session};
pub use transaction::{Committed, Transaction};
