//! Jobs, each with the engine of its pass, and the engine of the service.
//!
//! 1. They come back in the order in which they were given, whichever thread ran them.

use job_runner::Job;

/// The jobs of a run on several threads.
#[derive(Drop)]
pub struct JobsOver<E> {
    /// Each with the engine that it ran on.
    pub jobs: Vec<(Job, E)>,
    /// The engine that took the turns of the service.
    pub service: E,
}
