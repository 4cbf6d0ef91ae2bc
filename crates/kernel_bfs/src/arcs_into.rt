//! A round along the arcs into each place that isn't reached, on several threads.
//!
//! 1. Each thread writes the distances of places of its own, and reads the set of the frontier, which nobody writes
//!    meanwhile. So threads need nothing of each other.
//! 2. A place stops at the first arc that comes from the frontier.
//! 3. The round makes no list of what it reaches: where the next one goes along the arcs into places as well, it reads
//!    the distances alone.

ghost use Rattle.std.specs.Prelude.{◌≡◌, ℕ, ◌+◌, ◌<◌, [], length};
ghost use Rattle.graph_image.specs.Images.{AreWithin};
ghost use Rattle.graph_image.specs.Fields.{IsImage};
ghost use Rattle.kernel_bfs.specs.Levels.{Spreads, HasNoneAbove, FromLevel};
ghost use Rattle.kernel_bfs.specs.declared.levels.TheConstants.{UNREACHED};
ghost use Rattle.kernel_bfs.specs.PlaceSets.{HasPlaces, IsOfLevel, meets, distance_after, IsSwept};
ghost use Rattle.kernel_bfs.specs.Frontiers.{places_at};

use crate::levels::UNREACHED;
use crate::place_set::{PlaceSet, SMALL};
use graph_image::{Arc, Image};
use rayon::prelude::*;
use std::thread::Threads;

/// Reaches each place into which an arc leads from the frontier, which is this set.
pub fn bottom_up<R: Threads + Sync>(
    rt: &R,
    image: &Image,
    level: u32,
    frontier: &PlaceSet,
    distances: &mut Vec<u32>,
)
    requires image { IsImage image.now }
    requires level { (level + 1 < UNREACHED) × HasNoneAbove level distances.old.items }
    requires count { length distances.old.items ≡ length image.now.vertices }
    requires room { HasPlaces (length image.now.vertices) frontier.now }
    requires frontier { IsOfLevel level distances.old.items frontier.now }
    ensures { Spreads (FromLevel image.now distances.old.items level) (level + 1)
        distances.old.items [] distances.new.items (places_at (level + 1) distances.new.items) }
{
    sweep(rt, image, level, frontier, distances);
}

/// Gives each place without a distance the next one where an arc leads into it from the set.
fn sweep<R: Threads + Sync>(
    rt: &R,
    image: &Image,
    level: u32,
    frontier: &PlaceSet,
    distances: &mut Vec<u32>,
)
    requires level { level + 1 < UNREACHED }
    requires count { length distances.old.items ≡ length image.now.vertices }
    requires room { HasPlaces (length image.now.vertices) frontier.now }
    ensures { IsSwept image.now frontier.now level distances.old.items distances.new.items }
{
    if image.len() < SMALL {
        sweep_alone(image, level, frontier, distances);
    } else {
        sweep_together(rt, image, level, frontier, distances);
    }
}

/// The same on one thread.
fn sweep_alone(image: &Image, level: u32, frontier: &PlaceSet, distances: &mut Vec<u32>)
    requires level { level + 1 < UNREACHED }
    requires count { length distances.old.items ≡ length image.now.vertices }
    requires room { HasPlaces (length image.now.vertices) frontier.now }
    ensures { IsSwept image.now frontier.now level distances.old.items distances.new.items }
{
    'places: for place in 0..image.len() {
        if distances[place] == UNREACHED && meets(image.into(place), image.len(), frontier) {
            distances[place] = level + 1;
        }
    }
}

/// The same on several threads.
fn sweep_together<R: Threads + Sync>(
    rt: &R,
    image: &Image,
    level: u32,
    frontier: &PlaceSet,
    distances: &mut Vec<u32>,
)
    requires level { level + 1 < UNREACHED }
    requires count { length distances.old.items ≡ length image.now.vertices }
    requires room { HasPlaces (length image.now.vertices) frontier.now }
    ensures { IsSwept image.now frontier.now level distances.old.items distances.new.items }
{
    par_for_each_mut(
        rt,
        distances.as_mut_slice(),
        |place: usize, distance: &mut u32|
            requires { (place < length image.now.vertices) × (level + 1 < UNREACHED)
                × HasPlaces (length image.now.vertices) frontier.now }
            ensures { distance.new ≡ distance_after image.entry.now frontier.entry.now level place distance.old }
        {
            // Each call writes its own place's distance and reads the set, which nobody writes: so it can't see what
            // another one has found in this round.
            if *distance == UNREACHED && meets(image.into(place), image.len(), frontier) {
                *distance = level + 1;
            }
        },
    );
}

/// Whether the other end of one of the arcs is in the set.
fn meets(arcs: &[Arc], count: usize, set: &PlaceSet) -> bool
    requires within { AreWithin count arcs.now }
    requires room { HasPlaces count set.now }
    ensures { result ≡ meets set.now arcs.now }
{
    'arcs: for i in 0..arcs.len() {
        if set.contains(arcs[i].other) {
            return true;
        }
    }
    false
}
