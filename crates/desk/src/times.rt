//! How long something takes.
//!
//! 1. A clock may fail. Then no time is said, and the work goes on.

use std::io;
use std::rt::Clock;
use std::time::{Duration, Instant};

/// How long ago that was, if the clock has said.
pub fn since<R: Clock>(clock: &R, begun: io::Result<Instant>) -> Option<Duration> {
    begun.ok()?.elapsed(clock).ok()
}
