//! The watcher, who looks for rings while clerks book.
//!
//! 1. Its last look begins after the last clerk is done, so it has all transfers.
//! 2. While it waits it serves the store, which keeps it small.

use crate::known::KnownRings;
use crate::leave::Leave;
use crate::look::{Look, count_commits, take_look};
use crate::refusal::LookRefusal;
use std::alloc::Global;
use std::rt::Clock;
use std::sync::atomic::{AtomicU64, Ordering};
use std::thread::Threads;
use std::time::{Duration, Instant};
use std::{io, thread};
use teseo_store::{Session, SessionPlace, VertexEngine, Work};

/// So often a watcher looks at most.
const MOST_LOOKS: u32 = 1_000_000;

/// Looks again and again until no clerk is busy, and says what it finds.
#[derive(Drop)]
pub struct Watcher<'a, R: Threads + Clock + Eprint + Sync> {
    pub rt: &'a R,
    pub alloc: Global,
    /// How long it waits for the next look, in milliseconds.
    pub pause: u64,
    /// How many clerks have transfers yet.
    pub busy: &'a AtomicU64,
    pub known: KnownRings,
    pub looks: u32,
    /// Why it doesn't look any more.
    pub refused: Option<LookRefusal>,
}

impl<'a, R: Threads + Clock + Eprint + Sync> Work for Watcher<'a, R> {
    fn work<E: VertexEngine, P: SessionPlace>(&mut self, session: Session<E, P>) -> Session<E, P> {
        let mut session = session;
        'looks: for _look in 0..MOST_LOOKS {
            // Before the look: clerks that are done by now have booked all that it is to see.
            let is_last = is_over(self.busy);
            let begun = Instant::now(self.rt);
            let (next, seen) = take_look(&Leave::of(self.rt), self.alloc, session, &mut self.known);
            let (next, commits) = count_commits(next);
            session = next;
            self.looks = self.looks.saturating_add(1);
            if let Err(why) = says(self.rt, self.looks, begun, seen, commits) {
                self.refused = Some(why);
                return session;
            }
            if is_last {
                return session;
            }
            rests(self.rt, self.busy, self.pause, &mut session);
        }
        session
    }
}

/// Whether no clerk is busy any more.
fn is_over(busy: &AtomicU64) -> bool {
    // May be past: then there is one more look. A zero never is, since no clerk becomes busy again.
    busy.load(Ordering::SeqCst) == 0
}

/// Waits for the next look, but no longer than a clerk is busy, and keeps the store small meanwhile.
fn rests<R: Clock, E: VertexEngine, P: SessionPlace>(
    clock: &R,
    busy: &AtomicU64,
    pause: u64,
    session: &mut Session<E, P>,
) {
    'steps: for step in 0..=pause {
        // where it is refused memory it has changed nothing
        let _ = session.serve();
        if step == pause || is_over(busy) {
            return;
        }
        thread::sleep(clock, Duration::from_millis(1));
    }
}

/// Says what a look that began then has found out, and how many commits there are at its end.
fn says<R: Clock + Eprint>(
    rt: &R,
    look: u32,
    begun: io::Result<Instant>,
    seen: Result<Look, LookRefusal>,
    commits: Result<u64, LookRefusal>,
) -> Result<(), LookRefusal> {
    let age = begun?.elapsed(rt)?.as_millis();
    let seen = seen?;
    let newer = commits?.saturating_sub(seen.commits);
    // nobody may be listening
    let _ = eprintln!(rt;
        "look {look}: {} transfers, {newer} more in {age} ms since; {} accounts, {} components",
        seen.commits, seen.accounts, seen.components
    );
    'rings: for ring in seen.rings.iter() {
        let _ = eprintln!(rt; "look {look}: {ring}");
    }
    Ok(())
}
