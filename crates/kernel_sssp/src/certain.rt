//! Whether distances are the least ones, whoever found them.
//!
//! 1. No arc may lead to a place at a lesser distance than the place has, and to each reached place but the root an arc
//!    that weighs something has to lead at just its distance. From place to place along such arcs distances fall, so they
//!    lead back to the root (McConnell, Mehlhorn, Näher and Schweitzer, *Certifying algorithms*, Computer Science Review,
//!    2011).
//! 2. The least distances themselves may be refused, where an arc of weight 0 alone leads to a place at its distance.
//! 3. Each place is looked at by itself along the arcs into it, so threads share the places.
//! 4. Distances have 32 bits here, as those have who find them: what is looked up along each arc fits a cache twice as
//!    well. The clauses speak of the distances that they stand for.

ghost use Rattle.std.specs.Prelude.{◌≡◌, ℕ, ◌<◌, length, map, slice_get, slice_index, Some, IsTrue};
ghost use Rattle.graph_image.specs.Images.{AreWithin};
ghost use Rattle.graph_image.specs.declared.edge.Arc.{Arc};
ghost use Rattle.kernel_sssp.specs.Distances.{wide_of};
ghost use Rattle.kernel_sssp.specs.Certain.{AreAllowed, IsAllowed, IsMet, HasMeeting, IsCertain, AreCertain};

use crate::distances::{UNREACHED, wide};
use graph_image::{Arc, Image};
use rayon::prelude::*;
use std::thread::Threads;

/// Whether these are told to be the least distances from the root.
pub fn are_certain<R: Threads + Sync>(rt: &R, image: &Image, root: usize, distances: &[u32]) -> bool
    ensures { IsTrue result → AreCertain image.now root (map wide_of distances.now) }
{
    if distances.len() != image.len() || root >= distances.len() || distances[root] != 0 {
        return false;
    }
    all_certain(rt, image, root, distances)
}

/// Whether each distance is told to be right if all others are.
fn all_certain<R: Threads + Sync>(rt: &R, image: &Image, root: usize, distances: &[u32]) -> bool
    requires count { length distances.now ≡ length image.now.vertices }
    ensures { IsTrue result → (place : ℕ) → place < length image.now.vertices
        → IsCertain image.now root (map wide_of distances.now) place }
{
    (0..image.len()).into_par_iter().all(
        rt,
        |place: usize| -> bool
            requires { (place < length image.now.vertices) × (length distances.now ≡ length image.now.vertices) }
            ensures { IsTrue result → IsCertain image.entry.now root (map wide_of distances.entry.now) place }
        { is_certain(image, root, distances, place) },
    )
}

/// Whether the distance of a place is told to be right if all others are.
fn is_certain(image: &Image, root: usize, distances: &[u32], place: usize) -> bool
    requires place { place < length image.now.vertices }
    requires count { length distances.now ≡ length image.now.vertices }
    ensures { IsTrue result → IsCertain image.now root (map wide_of distances.now) place }
{
    let distance = distance_at(distances, place);
    let arcs = image.into(place);
    are_allowed(distances, arcs, distance)
        && (place == root || distance == UNREACHED || has_meeting(distances, arcs, distance))
}

/// Whether no arc leads from a reached place to a lesser distance than this.
fn are_allowed(distances: &[u32], arcs: &[Arc], distance: u64) -> bool
    requires { AreWithin (length distances.now) arcs.now }
    ensures { IsTrue result → AreAllowed (map wide_of distances.now) arcs.now (length arcs.now) distance }
{
    'arcs: for i in 0..arcs.len() {
        let Arc { other, weight } = arcs[i];
        if !is_allowed(distance_at(distances, other as usize), weight, distance) {
            return false;
        }
    }
    true
}

/// Whether an arc of this weight doesn't lead from the one distance to a lesser one than the other.
fn is_allowed(before: u64, weight: u32, distance: u64) -> bool
    ensures { IsTrue result → IsAllowed before weight distance }
{
    if before == UNREACHED {
        return true;
    }
    match before.checked_add(weight as u64) {
        Some(sum) => distance <= sum && distance != UNREACHED,
        None => false,
    }
}

/// Whether one of the arcs, with a weight, leads at just this distance.
fn has_meeting(distances: &[u32], arcs: &[Arc], distance: u64) -> bool
    requires { AreWithin (length distances.now) arcs.now }
    ensures { IsTrue result → HasMeeting (map wide_of distances.now) arcs.now distance }
{
    'arcs: for i in 0..arcs.len() {
        let Arc { other, weight } = arcs[i];
        if is_met(distance_at(distances, other as usize), weight, distance) {
            return true;
        }
    }
    false
}

/// Whether an arc of this weight, which isn't 0, leads from the one distance to the other.
fn is_met(before: u64, weight: u32, distance: u64) -> bool
    ensures { IsTrue result → IsMet before weight distance }
{
    weight > 0 && before.checked_add(weight as u64) == Some(distance)
}

/// The distance of a place, in 64 bits.
fn distance_at(distances: &[u32], place: usize) -> u64
    requires { place < length distances.now }
    ensures { result ≡ slice_index (map wide_of distances.now) place }
{
    wide(distances[place])
}
