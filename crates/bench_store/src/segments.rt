//! Parts over segments.
//!
//! 1. A segment has the rows of four vertices, of each its own row and those of seven arcs. Those of another
//!    segment are of other vertices.
//! 2. Which segment a call is made on, and with which key, is drawn anew for each call.

use crate::best::{Best, CALLS, ROUNDS};
use crate::random::{Random, drawn_order};
use anyhow::Result;
use gap_segment::Segment;
use graph_model::{Key, NoMemory, Row, SEGMENT_ROWS};
use std::alloc::Global;
use std::rt::Clock;
use std::time::Instant;

/// So many segments take less than half of a second cache of 1 MiB.
pub(crate) const FEW: u64 = 512;

/// So many take three times a last cache of 36 MiB.
const MANY: u64 = 131072;

/// How many rows a full segment has, and how many one has in the mean.
pub(crate) const FULL: u64 = 32;

pub(crate) const USUAL: u64 = 20;

/// Times each part, and prints a line for each.
pub fn time<R: Clock + Print>(rt: &R, alloc: Global, random: &mut Random) -> Result<()> {
    time_inserts(rt, alloc, random)?;
    let full = segments_of(alloc, FEW, FULL)?;
    time_calls(rt, "draw", full.as_slice(), random, |_, _, place| place)?;
    time_calls(rt, "segment-find", full.as_slice(), random, find)?;
    time_calls(rt, "segment-run-cut", full.as_slice(), random, run_of_some)?;
    let usual = segments_of(alloc, FEW, USUAL)?;
    time_calls(rt, "segment-run-all", usual.as_slice(), random, run_of_all)?;
    let many = segments_of(alloc, MANY, FULL)?;
    time_calls(rt, "segment-find-far", many.as_slice(), random, find)
}

/// So many segments with so many rows each.
fn segments_of(alloc: Global, segments: u64, rows: u64) -> Result<Vec<Segment>, NoMemory> {
    let mut made = Vec::new(alloc);
    for s in 0..segments {
        let mut segment = Segment::new(alloc, Key { src: 0, second: 0 }, Key::END)?;
        for place in 0..rows {
            put(&mut segment, row(s, place));
        }
        made.push(segment)?;
    }
    Ok(made)
}

/// The row at a place of a full segment.
pub(crate) fn row(segment: u64, place: u64) -> Row {
    let vertex = segment.wrapping_mul(4).wrapping_add(place / 8);
    Row {
        key: Key {
            src: vertex.wrapping_add(1),
            second: (place % 8).wrapping_mul(1000003),
        },
        weight: place,
    }
}

/// Looks the row's key up and puts the row there, where a segment has room and no such key.
fn put(segment: &mut Segment, row: Row) {
    let is_within = !row.key.is_below(segment.low()) && row.key.is_below(segment.high());
    if is_within && segment.len() < SEGMENT_ROWS {
        if let Err(place) = segment.find(row.key) {
            segment.insert_at(place, row);
        }
    }
}

/// Fills all of the few segments in each round, with their rows in an order that is drawn anew.
fn time_inserts<R: Clock + Print>(rt: &R, alloc: Global, random: &mut Random) -> Result<()> {
    let mut best = Best::new();
    for _round in 0..ROUNDS {
        let mut segments = segments_of(alloc, FEW, 0)?;
        let order = drawn_order(alloc, FEW.wrapping_mul(FULL), random)?;
        let begun = Instant::now(rt)?;
        for n in order.iter() {
            if let Some(segment) = segments.get_mut((n / FULL) as usize) {
                put(segment, row(n / FULL, n % FULL));
            }
        }
        best.add(
            begun.elapsed(rt)?,
            order.len() as u64,
            rows_in(segments.as_slice()),
        );
    }
    best.say(rt, "segment-insert")
}

/// How many rows segments have together.
fn rows_in(segments: &[Segment]) -> u64 {
    let mut rows: u64 = 0;
    for segment in segments {
        rows = rows.wrapping_add(segment.len() as u64);
    }
    rows
}

/// Makes a call again and again, on a segment that is drawn and with the place of one of its rows.
fn time_calls<R: Clock + Print, F: Fn(&Segment, u64, u64) -> u64>(
    rt: &R,
    name: &str,
    segments: &[Segment],
    random: &mut Random,
    call: F,
) -> Result<()>
    requires { F.IsAlwaysCallable call }
{
    let count = segments.len() as u64;
    let mut best = Best::new();
    for _round in 0..ROUNDS {
        let mut sum: u64 = 0;
        let begun = Instant::now(rt)?;
        for _call in 0..CALLS {
            let drawn = random.below(count.wrapping_mul(FULL));
            let s = drawn / FULL;
            if let Some(segment) = segments.get(s as usize) {
                sum = sum.wrapping_add(call(segment, s, drawn % FULL));
            }
        }
        best.add(begun.elapsed(rt)?, CALLS, sum);
    }
    best.say(rt, name)
}

/// Looks the key of a row up.
fn find(segment: &Segment, s: u64, place: u64) -> u64 {
    match segment.find(row(s, place).key) {
        Ok(found) => found as u64,
        Err(_) => 0,
    }
}

/// Lends all rows, by keys between which all lie.
fn run_of_all(segment: &Segment, s: u64, place: u64) -> u64 {
    let from = Key {
        src: row(s, 0).key.src,
        second: 0,
    };
    let until = Key {
        src: row(s, FULL).key.src,
        second: place,
    };
    sum_of(segment.run(from, until))
}

/// Lends twenty rows out of 32, with rows before them and after them.
fn run_of_some(segment: &Segment, s: u64, place: u64) -> u64 {
    let first = place % 11 + 1;
    sum_of(segment.run(row(s, first).key, row(s, first + USUAL).key))
}

/// Of lent rows, so much that they have to be lent.
fn sum_of(run: &[Row]) -> u64 {
    match run {
        [first, ..] => first.weight.wrapping_add(run.len() as u64),
        [] => 0,
    }
}
