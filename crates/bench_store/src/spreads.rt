//! Parts over leaves.
//!
//! 1. Of the eight segments of a leaf the first four are full, and the others have no rows.
//! 2. All rows are settled.

ghost use Rattle.std.specs.Prelude.{◌<◌};
ghost use Rattle.leaf_array.specs.Leaves.{IsWindow};

use crate::best::{Best, ROUNDS};
use crate::random::Random;
use crate::rows::{settle, write};
use anyhow::Result;
use density_tree::Window;
use graph_model::{Key, NoMemory};
use leaf_array::{Leaf, spread};
use std::alloc::Global;
use std::marker::Model;
use std::rt::Clock;
use std::time::Instant;

/// How many leaves are spread between two looks at the clock.
const LEAVES: u64 = 64;

/// How many rows four segments have.
const ROWS: u64 = 128;

/// A leaf whose segments follow each other.
#[derive(Drop)]
struct Whole {
    leaf: Leaf,
}

impl Model for Whole {
    ghost use Rattle.std.specs.Prelude.{List};
    ghost use Rattle.leaf_array.specs.VersionSegment.Rows.{VersionedRows};
    ghost use Rattle.leaf_array.specs.Leaves.{IsLeaf};

    ghost Value = { List VersionedRows };

    ghost view = { λ w. w.leaf.segments };

    ghost invariant = { λ w. IsLeaf w.leaf.segments };
}

/// Times the spreading of whole leaves, and prints a line for it.
pub fn time<R: Clock + Print>(rt: &R, alloc: Global, random: &mut Random) -> Result<()> {
    let mut best = Best::new();
    for _round in 0..ROUNDS {
        let mut leaves = leaves_of(alloc, random.below(ROWS))?;
        let begun = Instant::now(rt)?;
        for whole in leaves.iter_mut() {
            spread_all(alloc, whole)?;
        }
        best.add(begun.elapsed(rt)?, LEAVES, leaves.len() as u64);
    }
    best.say(rt, "leaf-spread")
}

fn leaves_of(alloc: Global, first: u64) -> Result<Vec<Whole>, NoMemory> {
    let mut made = Vec::new(alloc);
    for n in 0..LEAVES {
        made.push(front_full(alloc, first.wrapping_add(n) % ROWS)?)?;
    }
    Ok(made)
}

/// A leaf whose first four segments are full.
fn front_full(alloc: Global, first: u64) -> Result<Whole, NoMemory> {
    let leaf = Leaf::new(alloc, Key { src: 0, second: 0 }, Key::END)?;
    let mut whole = Whole { leaf };
    fill(&mut whole, first, 0, 4)?;
    spread_window(alloc, &mut whole, Window { first: 0, len: 2 })?;
    fill(&mut whole, first, 2, 4)?;
    spread_window(alloc, &mut whole, Window { first: 0, len: 4 })?;
    fill(&mut whole, first, 1, 2)?;
    Ok(whole)
}

/// Writes the rows of each so many'th source into the segments that may have them, and settles them.
fn fill(whole: &mut Whole, first: u64, begin: u64, step: u64) -> Result<(), NoMemory>
    requires { 0 < step }
{
    for n in 0..ROWS {
        if n % step == begin {
            for place in 0..8 {
                write_at(whole, place, first.wrapping_add(n))?;
            }
        }
    }
    for place in 0..8 {
        settle_at(whole, place);
    }
    Ok(())
}

/// Writes a row into a segment, if it may have it.
fn write_at(whole: &mut Whole, place: usize, src: u64) -> Result<(), NoMemory>
    requires { place < 8 }
{
    write(&mut whole.leaf.segments[place], Key { src, second: 0 }, src)
}

fn settle_at(whole: &mut Whole, place: usize)
    requires { place < 8 }
{
    settle(&mut whole.leaf.segments[place]);
}

fn spread_all(alloc: Global, whole: &mut Whole) -> Result<(), NoMemory> {
    spread_window(alloc, whole, Window { first: 0, len: 8 })
}

fn spread_window(alloc: Global, whole: &mut Whole, window: Window) -> Result<(), NoMemory>
    requires { IsWindow window }
{
    spread(&mut whole.leaf, window, alloc)
}
