//! A desk that takes transfers while it looks for rings of money.
//!
//! 1. Two clerks, each in a thread of its own, book the transfers of a file as if these came in: the one has the first
//!    half of them, the other one the rest.
//! 2. A watcher in a third thread looks for rings again and again, each time on a snapshot. What it sees depends on the
//!    threads, so it says that on the standard error.
//! 3. Once all transfers are booked, all accounts are looked at once more. What is said of that on the standard output
//!    is the same in each run.
#![tactic(auto)]

mod clerk;
mod duty;
mod known;
mod leave;
mod look;
mod refusal;
mod ring;
mod rings;
mod times;
mod transfer;
mod watcher;
mod words;

use anyhow::Result;
use clerk::Clerk;
use duty::{Duty, LastLook};
use known::KnownRings;
use look::Look;
use refusal::LookRefusal;
use std::alloc::Global;
use std::rt::Clock;
use std::sync::Wait;
use std::sync::atomic::AtomicU64;
use std::thread::Threads;
use std::time::Duration;
use teseo_store::{Config, GraphStore, Kind, MAX_TXNS_PER_PASS};
use transfer::{Transfer, read_transfers};
use watcher::Watcher;
use words::{Words, read_words};

/// How many clerks there are.
const CLERKS: u64 = 2;

/// So many sessions the store has: one for each clerk, and one for the watcher.
const SESSIONS: u32 = 3;

fn main(rt: HostRuntime) -> Result<()> {
    let words = read_words(&rt)?;
    let transfers = read_transfers(&rt, words.transfers.as_str())?;
    run(&rt, rt.alloc(), &words, transfers.as_slice())
}

/// Books the transfers while the watcher looks, and says what there is at the end.
fn run<'a, R: Threads + Wait + Clock + Print + Eprint + Sync>(
    rt: &'a R,
    alloc: Global,
    words: &Words,
    transfers: &'a [Transfer],
) -> Result<()> {
    let config = Config {
        kind: Kind::Directed,
        leaves: 4096,
        passes: SESSIONS,
        txns_per_pass: MAX_TXNS_PER_PASS,
    };
    let mut store = GraphStore::open(alloc, config)?;
    let busy = AtomicU64::new(CLERKS);
    let (first, rest) = transfers.split_at(transfers.len() / 2);
    let mut duties = [
        Duty::Book(new_clerk(rt, words, first, &busy)),
        Duty::Book(new_clerk(rt, words, rest, &busy)),
        Duty::Watch(new_watcher(rt, alloc, words, &busy)),
    ];
    store.run(rt, &mut duties);
    let mut last = LastLook {
        rt,
        alloc,
        seen: None,
    };
    store.run_one(rt, &mut last);
    let LastLook {
        rt: _,
        alloc: _,
        seen,
    } = last;
    let closed = store.close();
    say_end(rt, &duties, seen, closed.journal.len())
}

/// A clerk who has booked nothing yet.
fn new_clerk<'a, R: Clock>(
    rt: &'a R,
    words: &Words,
    transfers: &'a [Transfer],
    busy: &'a AtomicU64,
) -> Clerk<'a, R> {
    Clerk {
        rt,
        pause: Duration::from_millis(words.between_transfers),
        transfers,
        busy,
        booked: 0,
        refused: 0,
        taken: None,
    }
}

/// A watcher who hasn't looked yet.
fn new_watcher<'a, R: Threads + Clock + Eprint + Sync>(
    rt: &'a R,
    alloc: Global,
    words: &Words,
    busy: &'a AtomicU64,
) -> Watcher<'a, R> {
    Watcher {
        rt,
        alloc,
        pause: words.between_looks,
        busy,
        known: KnownRings::nothing(alloc),
        looks: 0,
        refused: None,
    }
}

/// Says what was booked, and what the last look has found out.
fn say_end<R: Threads + Clock + Print + Eprint + Sync>(
    rt: &R,
    duties: &[Duty<'_, R>],
    seen: Option<Result<Look, LookRefusal>>,
    commits: usize,
) -> Result<()> {
    let mut booked: u64 = 0;
    let mut refused: u64 = 0;
    'duties: for duty in duties {
        match duty {
            Duty::Book(clerk) => {
                booked = booked.saturating_add(clerk.booked);
                refused = refused.saturating_add(clerk.refused);
                say_taken(rt, clerk.booked, clerk.taken);
            }
            Duty::Watch(watcher) => say_refused(rt, watcher.refused),
        }
    }
    println!(rt; "{booked} transfers booked, {refused} refused, {commits} commits")?;
    let Some(seen) = seen else {
        return Ok(());
    };
    let seen = seen?;
    println!(rt;
        "{} accounts, {} components, {} rings, {} paid in all",
        seen.accounts,
        seen.components,
        seen.rings.len(),
        seen.amount
    )?;
    'rings: for ring in seen.rings.iter() {
        println!(rt; "{ring}")?;
    }
    Ok(())
}

/// Says how long a clerk took for what it has booked.
fn say_taken<R: Eprint>(rt: &R, booked: u64, taken: Option<Duration>) {
    if let Some(taken) = taken {
        // nobody may be listening
        let _ = eprintln!(rt; "a clerk: {booked} booked in {} ms", taken.as_millis());
    }
}

/// Says why the watcher looked no more, where it was refused.
fn say_refused<R: Eprint>(rt: &R, refused: Option<LookRefusal>) {
    if let Some(why) = refused {
        let _ = eprintln!(rt; "the watcher was refused: {why}");
    }
}
