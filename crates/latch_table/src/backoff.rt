//! How long a pass waits before it looks again at a cell that another one holds.
//!
//! 1. Looks are costly to the holder, whose word they load; so they come less often the longer the wait goes on.
//! 2. A pause of the processor first, since a holder's work is short; from the 33rd wait on the processor goes to
//!    others, since the holder may be off its own.

use std::hint::spin_loop;
use std::thread::yield_now;

/// A wait is at most 2 to this power pauses of the processor: a holder's work takes about as long.
const LONGEST: u32 = 6;

/// After so many waits the holder may be off its processor, so the others get this one.
const WAITS: u32 = 32;

/// Waits between looks, twice as long each time.
#[derive(Drop)]
pub struct Backoff {
    /// How many there were.
    waits: u32,
}

impl Backoff {
    pub fn new() -> Backoff {
        Backoff { waits: 0 }
    }

    pub fn wait(&mut self) {
        // So many looks take longer than a holder's work: it is likely off its processor, and gets this one.
        if self.waits >= WAITS {
            yield_now();
            return;
        }
        for _pause in 0..1u32 << self.waits.min(LONGEST) {
            spin_loop();
        }
        self.waits += 1;
    }
}
