//! Two threads that commit on one store.

ghost use Rattle.std.specs.Prelude.{◌≡◌, ◌≤◌};
ghost use Rattle.graph_model.specs.declared.limits.TheConstants.{MAX_ID};
ghost use Rattle.shared_store.specs.Passes.{IsIdle};

use crate::case::Case;
use crate::txns::makes;
use graph_model::Write;
use shared_store::{Pass, Store, abort, begin, commit};
use std::sync::Wait;
use std::sync::atomic::{AtomicBool, Ordering};
use std::thread::{Threads, join_mut, yield_now};

/// How often a thread looks for the flag of the other.
const TRIES: u32 = 1_000_000;

/// Each pass adds a vertex in a thread of its own, and commits once it has met the flag that the other thread raises
/// after its write.
#[derive(Clone, Copy, Debug, PartialEq, Eq)]
pub struct CommitByTwo {
    pub one: Added,
    pub two: Added,
}

/// What a thread was answered that added a vertex.
#[derive(Clone, Copy, Debug, PartialEq, Eq)]
pub struct Added {
    /// Whether it has met the flag of the other thread.
    pub has_met: bool,
    /// The stamp of its commit.
    pub stamp: Option<u64>,
}

impl Added {
    /// Nothing was added, and nobody met.
    pub fn nothing() -> Added {
        Added {
            has_met: false,
            stamp: None,
        }
    }
}

impl<R: Threads + Wait + Sync> Case<R> for CommitByTwo {
    fn run(&mut self, rt: &R, store: &Store, one: &mut Pass, two: &mut Pass) {
        let (first, second) = add_by_two(rt, store, one, two);
        self.one = first;
        self.two = second;
    }
}

/// The first pass adds vertex 5, and the second one vertex 6.
fn add_by_two<R: Threads + Wait + Sync>(
    rt: &R,
    store: &Store,
    one: &mut Pass,
    two: &mut Pass,
) -> (Added, Added)
    requires one { IsIdle store.now one.old }
    requires two { IsIdle store.now two.old }
    ensures one { IsIdle store.now one.new }
    ensures two { IsIdle store.now two.new }
    ensures first_number { one.new.seats.number ≡ one.old.seats.number }
    ensures second_number { two.new.seats.number ≡ two.old.seats.number }
{
    let first = AtomicBool::new(false);
    let second = AtomicBool::new(false);
    join_mut(
        rt,
        &mut || -> Added
            requires { IsIdle store.now one.now }
            ensures { IsIdle store.entry.now one.exit.now
                × (one.exit.now.seats.number ≡ one.entry.now.seats.number) }
        { add_beside(rt, store, one, 5, &first, &second) },
        &mut || -> Added
            requires { IsIdle store.now two.now }
            ensures { IsIdle store.entry.now two.exit.now
                × (two.exit.now.seats.number ≡ two.entry.now.seats.number) }
        { add_beside(rt, store, two, 6, &second, &first) },
    )
}

/// Adds a vertex, raises its flag, and commits once it has met that of the other thread, or has looked for it often.
fn add_beside(
    rt: &impl Wait,
    store: &Store,
    pass: &mut Pass,
    v: u64,
    mine: &AtomicBool,
    other: &AtomicBool,
) -> Added
    requires idle { IsIdle store.now pass.old }
    requires within { v ≤ MAX_ID }
    ensures idle { IsIdle store.now pass.new }
    ensures number { pass.new.seats.number ≡ pass.old.seats.number }
{
    match begin(rt, store, pass) {
        Ok(_) => {}
        Err(_) => return Added::nothing(),
    }
    let is_made = makes(rt, store, pass, Write::AddVertex { v });
    mine.store(true, Ordering::SeqCst);
    if !is_made {
        abort(rt, store, pass);
        return Added::nothing();
    }
    Added {
        has_met: meets(other),
        stamp: commit(rt, store, pass),
    }
}

/// Whether a flag is raised within so many looks.
fn meets(flag: &AtomicBool) -> bool {
    'looks: for _look in 0..TRIES {
        if flag.load(Ordering::SeqCst) {
            return true;
        }
        yield_now();
    }
    false
}
