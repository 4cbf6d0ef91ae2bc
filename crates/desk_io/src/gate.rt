//! The gates of jobs with threads.
//!
//! 1. A gate is called before each turn of a job, so one that waits holds up the thread of that job.
//! 2. No contract says when a gate returns. A test orders the turns of two threads by it; the program's gate returns at
//!    once.

/// Is called before each turn of a job that runs with threads. A gate may wait, so that a test can
/// order the turns of two jobs.
pub trait Gate: Sync {
    /// Lets the job take its next turn: `turn` counts the job's turns from 0.
    fn turn(&self, job: u32, turn: u64);
}

/// The gate that returns at once.
#[derive(Clone, Copy, Debug)]
pub struct OpenGate;

impl Gate for OpenGate {
    fn turn(&self, _job: u32, _turn: u64) {}
}
