//! The search from level to level.
//!
//! 1. A round gives each place that has no distance, and to which an arc leads from the frontier, the next distance.
//! 2. Top-down it follows the arcs out of the frontier, which is cheap while few places are in it. Bottom-up each place
//!    without a distance looks for one arc that comes from the frontier, and stops at the first: where the frontier is
//!    large that looks at far fewer arcs.
//! 3. Both ways have one contract, so when to change is a matter of time alone.

ghost use Rattle.std.specs.Prelude.{◌≡◌, ◌+◌, ◌^◌, ◌<◌, ◌≤◌, ◌/◌, true, false, length, IfOk, OnOk};
ghost use Rattle.graph_model.specs.Graph.{Graph};
ghost use Rattle.graph_image.specs.Images.{IsImageOf, Leads};
ghost use Rattle.kernel_bfs.specs.Levels.{HasNoneAbove, IsFrontier, IsSearched};
ghost use Rattle.kernel_bfs.specs.declared.levels.TheConstants.{UNREACHED};
ghost use Rattle.kernel_bfs.specs.PlaceSets.{HasPlaces};
ghost use Rattle.kernel_bfs.specs.Frontiers.{IsAtLevel};
ghost use Rattle.kernel_bfs.specs.Rounds.{HasRound};

use crate::arcs_into::bottom_up;
use crate::arcs_out::top_down;
use crate::frontier::{Frontier, count_at, list_at};
use crate::place_set::PlaceSet;
use graph_image::{Image, NoMemory};
use std::alloc::Global;
use std::mem;
use std::thread::Threads;

/// Stands for no distance: a graph has fewer places.
pub const UNREACHED: u32 = 4294967295;

/// A frontier of more than one place in so many is large.
const LARGE: usize = 20;

/// The distance of each place from the root's.
pub fn search<R: Threads + Sync>(
    rt: &R,
    alloc: Global,
    image: &Image,
    root: usize,
) -> Result<Vec<u32>, NoMemory>
    requires { root < length image.now.vertices }
    ensures count { IfOk result (λ distances. length distances.items ≡ length image.now.vertices) }
    ensures searched { IfOk result (λ distances. (g : Graph) → IsImageOf image.now g
        → IsSearched (Leads g image.now.vertices) root distances.items) }
{
    let count = image.len();
    let mut distances = vec![in alloc; UNREACHED; count]?;
    distances[root] = 0;
    // Each has room for all places from the start, so no round takes memory for it.
    let mut frontier = Frontier::of(alloc, root as u32, count)?;
    let mut next = Frontier::none(alloc, count)?;
    // Made once: a round along the arcs into places fills it with its frontier.
    let mut set = PlaceSet::new(alloc, count)?;
    'levels: for level in 0..count as u32 - 1 {
        round(
            rt,
            image,
            level,
            &frontier,
            &mut set,
            &mut distances,
            &mut next,
        )?;
        if next.is_empty() {
            return Ok(distances);
        }
        mem::swap(&mut frontier, &mut next);
    }
    Ok(distances)
}

/// A round: bottom-up where the frontier is large, else top-down.
fn round<R: Threads + Sync>(
    rt: &R,
    image: &Image,
    level: u32,
    frontier: &Frontier,
    set: &mut PlaceSet,
    distances: &mut Vec<u32>,
    next: &mut Frontier,
) -> Result<(), NoMemory>
    requires level { (level + 1 < UNREACHED) × HasNoneAbove level distances.old.items }
    requires count { length distances.old.items ≡ length image.now.vertices }
    requires room { HasPlaces (length image.now.vertices) set.old }
    requires frontier { IsAtLevel (length image.now.vertices) level distances.old.items frontier.now }
    ensures room { HasPlaces (length image.now.vertices) set.new }
    ensures round { OnOk result (HasRound image.now level distances.old.items distances.new.items next.new) }
{
    if is_large(frontier.count, image.len()) {
        let before = distances.as_slice();
        set.set_to_level(rt, level, before);
        bottom_up(rt, image, level, set, distances);
        let after = distances.as_slice();
        take_level(level + 1, after, next)
    } else {
        round_out(image, level, frontier, distances, next)
    }
}

/// A round top-down.
fn round_out(
    image: &Image,
    level: u32,
    frontier: &Frontier,
    distances: &mut Vec<u32>,
    next: &mut Frontier,
) -> Result<(), NoMemory>
    requires level { (level + 1 < UNREACHED) × HasNoneAbove level distances.old.items }
    requires count { length distances.old.items ≡ length image.now.vertices }
    requires frontier { IsFrontier level distances.old.items frontier.now.places.items }
    ensures { OnOk result (HasRound image.now level distances.old.items distances.new.items next.new) }
{
    next.places.clear();
    top_down(image, level, &frontier.places, distances, &mut next.places)?;
    next.count = next.places.len();
    Ok(())
}

/// Counts the places at the level, and lists them where they are few.
fn take_level(level: u32, distances: &[u32], frontier: &mut Frontier) -> Result<(), NoMemory>
    requires { length distances.now < 2 ^ 32 }
    ensures { OnOk result (IsAtLevel (length distances.now) level distances.now frontier.new) }
{
    frontier.count = count_at(level, distances);
    if is_large(frontier.count, distances.len()) {
        return Ok(());
    }
    list_at(level, distances, &mut frontier.places)
}

/// Whether a frontier of so many of the places is worth looking at all of them.
fn is_large(frontier: usize, places: usize) -> bool
    ensures large { result ≡ true → places / 20 < frontier }
    ensures small { result ≡ false → frontier ≤ places / 20 }
{
    frontier > places / LARGE
}
