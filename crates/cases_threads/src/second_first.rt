//! A gate that holds the first script until the second has taken a turn.

use desk_io::Gate;
use std::sync::atomic::{AtomicBool, Ordering};
use std::thread::yield_now;

/// How often the first script looks whether the second has taken a turn.
const TRIES: u32 = 1_000_000;

/// Holds job 1 at its first turn until job 2 has taken one, and notes where it never did.
#[derive(Drop)]
pub struct SecondFirst {
    second_went: AtomicBool,
    tries_spent: AtomicBool,
}

impl SecondFirst {
    pub fn new() -> SecondFirst {
        SecondFirst {
            second_went: AtomicBool::new(false),
            tries_spent: AtomicBool::new(false),
        }
    }

    /// Whether job 1 has gone on without the other.
    pub fn has_spent_its_tries(&self) -> bool {
        self.tries_spent.load(Ordering::SeqCst)
    }
}

impl Gate for SecondFirst {
    fn turn(&self, job: u32, turn: u64) {
        if job == 2 && turn > 0 {
            self.second_went.store(true, Ordering::SeqCst);
        }
        if job == 1 && turn == 0 {
            'tries: for _try in 0..TRIES {
                if self.second_went.load(Ordering::SeqCst) {
                    return;
                }
                yield_now();
            }
            self.tries_spent.store(true, Ordering::SeqCst);
        }
    }
}
