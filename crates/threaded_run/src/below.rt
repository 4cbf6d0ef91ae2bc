//! What crates above name of crates that they don't list.

pub use rebalance_service::below::Closed;
