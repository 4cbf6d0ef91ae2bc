//! Reads what the next visits will read.
//!
//! 1. A search waits for memory most of the time: at each visit for the distance of the place, then for where
//!    its arcs begin, then for the arcs, and then for the distances where they lead.
//! 2. Here each of these is read for many visits before the next one is, with no choice that hangs on it. So
//!    the processor asks the memory for many of them at once, and finds them near by when the visits are made.
//! 3. Kept are a sum of what was read, so that no compiler leaves the reads out, and up to which visit that was. The
//!    sum can't be wrong, since nobody asks for it; the other may be, where visits have come or gone, and then some
//!    reads are made twice or not at all, which costs time alone. No clause speaks of either.

use crate::buckets::Visit;
use graph_image::Image;

/// For how many visits at a time it reads: what these read stays in the nearest caches meanwhile.
pub const AHEAD: usize = 32;

/// For fewer visits it isn't worth it.
pub const FEW: usize = 4;

/// How far it was read ahead.
#[derive(Clone, Copy)]
pub struct Ahead {
    /// For the visits up to this one.
    pub until: usize,
    /// The sum of what was read. Nobody asks for it: it is kept so that no compiler leaves out the reads.
    pub sum: u64,
}

/// The sum of what these visits will read.
pub fn sum_ahead(image: &Image, distances: &[u64], visits: &[Visit]) -> u64 {
    let known = distances_of(distances, visits);
    let mut places = [0u32; AHEAD];
    let mut count = 0;
    'visits: for i in 0..visits.len() {
        // A visit whose place has a lesser distance by now won't be made.
        if i < AHEAD && count < AHEAD && known[i] == visits[i].distance {
            places[count] = visits[i].place;
            count += 1;
        }
    }
    let places = places.get(..count).unwrap_or(&[]);
    sum_of_ends(image, places).wrapping_add(sum_of_distances(image, distances, places))
}

/// The distances of the places of the visits.
fn distances_of(distances: &[u64], visits: &[Visit]) -> [u64; AHEAD] {
    let mut known = [0u64; AHEAD];
    'visits: for i in 0..visits.len() {
        let place = visits[i].place as usize;
        if i < AHEAD && place < distances.len() {
            known[i] = distances[place];
        }
    }
    known
}

/// The sum of the weights of the first and the last arc of each place.
pub fn sum_of_ends(image: &Image, places: &[u32]) -> u64 {
    let mut sum = 0u64;
    'places: for i in 0..places.len() {
        let place = places[i] as usize;
        if place < image.len() {
            let arcs = image.out(place);
            if !arcs.is_empty() {
                let ends = arcs[0].weight as u64 + arcs[arcs.len() - 1].weight as u64;
                sum = sum.wrapping_add(ends);
            }
        }
    }
    sum
}

/// The sum of the distances to which the arcs of the places lead.
fn sum_of_distances(image: &Image, distances: &[u64], places: &[u32]) -> u64 {
    let mut sum = 0u64;
    'places: for i in 0..places.len() {
        let place = places[i] as usize;
        if place < image.len() {
            let arcs = image.out(place);
            'arcs: for k in 0..arcs.len() {
                let other = arcs[k].other as usize;
                if other < distances.len() {
                    sum = sum.wrapping_add(distances[other]);
                }
            }
        }
    }
    sum
}
