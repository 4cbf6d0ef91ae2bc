//! Parts over segments of versioned rows.
//!
//! 1. A segment has the rows of four vertices, as in the parts over segments without versions.
//! 2. All writers have committed, so a prune settles all rows.

ghost use Rattle.std.specs.Prelude.{◌≡◌};
ghost use Rattle.leaf_array.specs.Segments.{KeepsFences};

use crate::best::{Best, CALLS, ROUNDS};
use crate::known::AllCommitted;
use crate::random::{Random, drawn_order};
use crate::segments::{FEW, FULL, USUAL, row};
use anyhow::Result;
use graph_model::{Key, NoMemory, TxnName};
use leaf_array::below::{Rows32, VersionSegment};
use std::alloc::Global;
use std::rt::Clock;
use std::time::Instant;
use undo_chain::Snapshot;

/// Who writes all rows.
const WRITER: TxnName = TxnName { job: 1, number: 1 };

/// Who reads them.
const READER: Snapshot = Snapshot {
    start: 9,
    own: TxnName { job: 2, number: 1 },
};

/// Times each part, and prints a line for each.
pub fn time<R: Clock + Print>(rt: &R, alloc: Global, random: &mut Random) -> Result<()> {
    time_writes(rt, alloc, random)?;
    let mut full = segments_of(alloc, FULL)?;
    time_reads(rt, "row-read-changed", full.as_slice(), random)?;
    settle_all(full.as_mut_slice());
    time_reads(rt, "row-read", full.as_slice(), random)?;
    let mut usual = segments_of(alloc, USUAL)?;
    time_runs(rt, "row-run-changed", usual.as_slice(), random)?;
    settle_all(usual.as_mut_slice());
    time_runs(rt, "row-run", usual.as_slice(), random)
}

/// So many rows in each of some segments, none of them settled.
fn segments_of(alloc: Global, rows: u64) -> Result<Vec<VersionSegment>, NoMemory> {
    let mut made = Vec::new(alloc);
    for s in 0..FEW {
        let mut segment = VersionSegment::new(alloc, Key { src: 0, second: 0 }, Key::END)?;
        for place in 0..rows {
            write(&mut segment, row(s, place).key, place)?;
        }
        made.push(segment)?;
    }
    Ok(made)
}

/// Writes a row's value where the segment may have its key and has room.
pub(crate) fn write(segment: &mut VersionSegment, key: Key, value: u64) -> Result<(), NoMemory>
    ensures { KeepsFences segment.old segment.new }
{
    segment.reserve()?;
    let is_within = !key.is_below(segment.low()) && key.is_below(segment.high());
    if is_within && segment.room() > 0 {
        segment.write(key, Some(value), WRITER);
    }
    Ok(())
}

/// Takes all records of a segment away.
pub(crate) fn settle(segment: &mut VersionSegment) -> usize
    ensures { KeepsFences segment.old segment.new }
{
    segment.prune(9, &mut AllCommitted {})
}

fn settle_all(segments: &mut [VersionSegment]) {
    for segment in segments {
        settle(segment);
    }
}

/// Fills all segments in each round, with their rows in an order that is drawn anew.
fn time_writes<R: Clock + Print>(rt: &R, alloc: Global, random: &mut Random) -> Result<()> {
    let mut best = Best::new();
    for _round in 0..ROUNDS {
        let mut segments = segments_of(alloc, 0)?;
        let order = drawn_order(alloc, FEW.wrapping_mul(FULL), random)?;
        let begun = Instant::now(rt)?;
        for n in order.iter() {
            if let Some(segment) = segments.get_mut((n / FULL) as usize) {
                write(segment, row(n / FULL, n % FULL).key, *n)?;
            }
        }
        let count = order.len() as u64;
        best.add(begun.elapsed(rt)?, count, count);
    }
    best.say(rt, "row-write")
}

/// Reads again and again, from a segment that is drawn the row at a place.
fn time_reads<R: Clock + Print>(
    rt: &R,
    name: &str,
    segments: &[VersionSegment],
    random: &mut Random,
) -> Result<()> {
    let mut best = Best::new();
    for _round in 0..ROUNDS {
        let mut sum: u64 = 0;
        let begun = Instant::now(rt)?;
        for _call in 0..CALLS {
            let drawn = random.below(FEW.wrapping_mul(FULL));
            let s = drawn / FULL;
            if let Some(segment) = segments.get(s as usize) {
                sum = sum.wrapping_add(read(segment, row(s, drawn % FULL).key));
            }
        }
        best.add(begun.elapsed(rt)?, CALLS, sum);
    }
    best.say(rt, name)
}

/// The value of a key, or nothing.
fn read(segment: &VersionSegment, key: Key) -> u64 {
    match segment.read(key, &READER, &mut AllCommitted {}) {
        Some(value) => value,
        None => 0,
    }
}

/// Has all rows of a segment that is drawn lent again and again.
fn time_runs<R: Clock + Print>(
    rt: &R,
    name: &str,
    segments: &[VersionSegment],
    random: &mut Random,
) -> Result<()> {
    let mut best = Best::new();
    let mut buffer = Rows32::new();
    for _round in 0..ROUNDS {
        let mut sum: u64 = 0;
        let begun = Instant::now(rt)?;
        for _call in 0..CALLS {
            let drawn = random.below(FEW.wrapping_mul(FULL));
            let s = drawn / FULL;
            if let Some(segment) = segments.get(s as usize) {
                sum = sum.wrapping_add(run(segment, s, drawn % FULL, &mut buffer));
            }
        }
        best.add(begun.elapsed(rt)?, CALLS, sum);
    }
    best.say(rt, name)
}

/// Lends all rows, by keys between which all lie.
fn run(segment: &VersionSegment, s: u64, place: u64, buffer: &mut Rows32) -> u64 {
    let from = Key {
        src: row(s, 0).key.src,
        second: 0,
    };
    let until = Key {
        src: row(s, FULL).key.src,
        second: place,
    };
    match segment.run_at(from, until, &READER, &mut AllCommitted {}, buffer) {
        [first, .., last] => first.weight.wrapping_add(last.weight),
        _ => 0,
    }
}
