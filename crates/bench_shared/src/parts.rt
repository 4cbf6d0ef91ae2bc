//! Each pass of a store makes its part of the changes, in a thread of its own.
//!
//! A change that finds no place for a row in its cell is counted and let go, since nobody makes room meanwhile.

ghost use Rattle.std.specs.Prelude.{◌≡◌};
ghost use Rattle.shared_store.specs.Ends.{AreIdle};
ghost use Rattle.shared_store.specs.Passes.{IsIdle, IsOpen};

use crate::counts::{EditCounts, Tally};
use bench_graphs::{Act, Edit};
use graph_model::{Refusal, Write};
use shared_store::{Pass, Store, Written, begin, commit, write};
use std::sync::Wait;
use std::thread::{Threads, for_each_mut};

/// All passes make their parts of the changes at once.
pub fn run_parts<R: Threads + Wait + Sync>(
    rt: &R,
    store: &Store,
    passes: &mut [Pass],
    edits: &[Edit],
    counts: &EditCounts,
)
    requires { AreIdle store.now passes.old }
    ensures { AreIdle store.now passes.new }
{
    let parts = passes.len().max(1);
    for_each_mut(
        rt,
        passes,
        parts,
        &|place: usize, pass: &mut Pass|
            requires { IsIdle store.now pass.old }
            ensures { IsIdle store.entry.now pass.new × (pass.new.seats.number ≡ pass.old.seats.number) }
        { counts.add(run_part(rt, store, pass, part_of(edits, place, parts))) },
    );
}

/// One of so many parts, each of which follows the one before.
fn part_of(edits: &[Edit], place: usize, parts: usize) -> &[Edit] {
    let size = edits.len() / parts.max(1) + 1;
    let (_, behind) = edits.split_at(size.saturating_mul(place).min(edits.len()));
    let (part, _) = behind.split_at(size.min(behind.len()));
    part
}

/// Makes each change in a transaction of its own.
fn run_part(rt: &impl Wait, store: &Store, pass: &mut Pass, edits: &[Edit]) -> Tally
    requires idle { IsIdle store.now pass.old }
    ensures idle { IsIdle store.now pass.new }
    ensures number { pass.new.seats.number ≡ pass.old.seats.number }
{
    let mut tally = Tally {
        made: 0,
        crowded: 0,
        refused: 0,
    };
    'edits: for number in 0..edits.len() {
        match make(rt, store, pass, edits[number]) {
            EditOutcome::Made => tally.made = tally.made.wrapping_add(1),
            EditOutcome::Crowded => tally.crowded = tally.crowded.wrapping_add(1),
            EditOutcome::Refused => tally.refused = tally.refused.wrapping_add(1),
        }
    }
    tally
}

/// What becomes of a change.
#[derive(Clone, Copy, Debug, PartialEq, Eq)]
enum EditOutcome {
    Made,
    Crowded,
    Refused,
}

/// Makes a change in a transaction of its own.
fn make(rt: &impl Wait, store: &Store, pass: &mut Pass, edit: Edit) -> EditOutcome
    requires idle { IsIdle store.now pass.old }
    ensures idle { IsIdle store.now pass.new }
    ensures number { pass.new.seats.number ≡ pass.old.seats.number }
{
    match begin(rt, store, pass) {
        Ok(_) => {}
        Err(_) => return EditOutcome::Refused,
    }
    let outcome = try_write(rt, store, pass, edit);
    commit(rt, store, pass);
    outcome
}

/// Makes a change in the open transaction.
fn try_write(rt: &impl Wait, store: &Store, pass: &mut Pass, edit: Edit) -> EditOutcome
    requires opened { IsOpen store.now pass.old }
    ensures opened { IsOpen store.now pass.new }
    ensures number { pass.new.seats.number ≡ pass.old.seats.number }
{
    let u = u64::from(edit.u);
    let v = u64::from(edit.v);
    let written = match edit.act {
        Act::Add => write(rt, store, pass, Write::AddEdge { u, v, weight: 1 }),
        Act::Set => write(rt, store, pass, Write::SetEdge { u, v, weight: 2 }),
        Act::Drop => write(rt, store, pass, Write::DropEdge { u, v }),
    };
    outcome_of(&written)
}

fn outcome_of(written: &Result<Written, Refusal>) -> EditOutcome {
    match written {
        Ok(Written::Done) => EditOutcome::Made,
        Ok(_) => EditOutcome::Crowded,
        Err(_) => EditOutcome::Refused,
    }
}
