//! How work is shared out among threads.
//!
//! 1. The processors of the machine decide how many parts there are, and nothing else: what comes out is the same.

use rayon::current_num_threads;
use std::thread::Threads;

/// More threads than these are not started.
const MOST_THREADS: usize = 32;

/// How often work is cut in two: so that there are two parts for each processor, since they may differ in length.
pub fn cuts_for<R: Threads>(rt: &R) -> u32 {
    let threads = current_num_threads(rt).min(MOST_THREADS);
    threads.saturating_mul(2).ilog2()
}
