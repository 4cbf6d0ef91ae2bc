//! The words after the program's name.

use anyhow::Result;
use std::env;
use std::env::Env;

/// What is timed.
#[derive(Clone, Copy, Debug, PartialEq, Eq)]
pub enum TimedPart {
    /// Reads of edges, alone and beside a writer.
    Reads,
    /// Scans of all rows, alone and beside a writer.
    Scans,
    /// Turns of the service that have nothing to do.
    Turns,
    /// The same edges set again and again, beside the service.
    Churn,
    /// Edges set while a transaction stays open, and sweeps of what it held back.
    Held,
}

/// What is timed, and how much of it.
#[derive(Clone, Copy, Debug, PartialEq, Eq)]
pub struct PartWords {
    pub part: TimedPart,
    pub vertices: u64,
    pub edges: u64,
    pub seed: u64,
    pub threads: u64,
    pub count: u64,
}

/// The words, or none where the first isn't the name of a part. A number that isn't there is 0.
pub fn read_words<R: Env + Alloc>(rt: &R) -> Result<Option<PartWords>> {
    let mut part = None;
    let mut numbers = [0; 5];
    let mut count = 0;
    for word in env::args(rt)?.skip(1) {
        if count == 0 {
            part = part_named(word.as_str());
        } else if count < 6 {
            numbers[count - 1] = word.parse()?;
        }
        if count < 6 {
            count += 1;
        }
    }
    let Some(part) = part else {
        return Ok(None);
    };
    let [vertices, edges, seed, threads, count] = numbers;
    Ok(Some(PartWords {
        part,
        vertices,
        edges,
        seed,
        threads,
        count,
    }))
}

/// The part of this name.
fn part_named(name: &str) -> Option<TimedPart> {
    if name == "reads" {
        return Some(TimedPart::Reads);
    }
    if name == "scans" {
        return Some(TimedPart::Scans);
    }
    if name == "turns" {
        return Some(TimedPart::Turns);
    }
    if name == "churn" {
        return Some(TimedPart::Churn);
    }
    (name == "held").then_some(TimedPart::Held)
}
