//! A worker: a pass of a shared store as an engine of its own, which makes room and keeps the store small.
//!
//! 1. Each call of the engine is one of `worker_calls` on its pass, which has no transaction between two calls, or an
//!    open one, and holds no latch.
//! 2. Turns of the service change no view. A turn takes a leaf only where words that are loaded with no latch don't
//!    tell that there is nothing to do with it: for a turn of merging that it is full, for a sweep that it had no
//!    records when it was last swept and hasn't changed since, or is being changed, so that its commits see to it.
//! 3. A whole view is scanned by several readers at once, which are made of passes that the workers share.
#![tactic(auto)]

pub mod below;
mod engine;
mod idle;
mod idle_passes;
mod leaf_notes;
mod parts;
mod readers;
mod serve;
mod worker;
mod writes;

pub use idle_passes::IdlePasses;
pub use worker::{Home, Worker};
