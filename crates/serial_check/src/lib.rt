//! The check that keeps a run serialisable: which rows a transaction depends on, and which commit wrote one of them.
//!
//! 1. The footprint of a transaction has the keys of the rows on which the answers to its lines depend, and no others.
//! 2. A commit stands against the transaction where it came after its start and wrote one of these rows.
#![tactic(auto)]

mod against;
mod footprint;
mod range;

pub use against::check;
pub use footprint::Footprint;
pub use range::FootprintRange;
