//! Leaves that wait to be looked at, of which the first in the order of their keys is found without a walk over all.
//!
//! 1. Each leaf has a place by its number, so it waits once at most.
//! 2. All memory is taken when the queue is made.
#![tactic(auto)]

mod queue;
mod waiting;

pub use queue::LeafQueue;
pub use waiting::{WaitStage, Waiting};
