//! The workers of a search that several threads make, and what they offer each other.
//!
//! 1. Each worker has a share of the places, which follow each other: it alone writes their distances, and keeps the
//!    buckets of their visits.
//! 2. A worker looks at the arcs out of what it visits while all distances stand still, and offers each lesser
//!    distance that it finds to the worker that has the place.
//! 3. Then each worker takes what it was offered. So threads need nothing of each other.
//! 4. Distances have 32 bits, so twice as many fit a cache. A place at a greater one stays unreached.

ghost use Rattle.std.specs.Prelude.{◌<◌, length};

use crate::ahead::{AHEAD, sum_of_ends};
use graph_image::{Image, NoMemory};
use std::alloc::Global;
use std::mem;

/// Stands for the distance of a place that isn't reached, or whose distance is as great.
pub const FAR: u32 = 4294967295;

/// How many buckets after the one at hand a worker keeps apart. Visits of all further ones stand in the last of them,
/// so they are made too soon, and made again where their places get lesser distances.
const SLOTS: u64 = 64;

/// For so many arcs of a place it is read ahead where they lead: a place with many more fills the cache by itself.
const FIRST_ARCS: usize = 32;

/// How places are shared out, and which bucket is at hand.
#[derive(Clone, Copy)]
pub struct Sharing {
    /// How many places a worker has.
    pub share: usize,
    /// How wide a bucket is.
    pub width: u32,
    /// The number of the bucket at hand.
    pub bucket: u64,
}

/// A place, and a distance that it is offered. As a visit it counts as long as the place has that distance.
#[derive(Clone, Copy)]
pub struct Offer {
    /// The number of the place.
    pub place: u32,
    /// Its distance when the offer was made.
    pub distance: u32,
}

/// What a worker keeps beside the distances of its places.
#[derive(Drop)]
pub struct SearchWorker {
    /// The visits of the bucket at hand.
    pub visits: Vec<Offer>,
    /// Those of the buckets after it, each at the rest of its number by so many buckets as there are.
    later: Vec<Vec<Offer>>,
    /// Whether it ran out of memory.
    pub lacks_memory: bool,
}

/// What a worker offers.
#[derive(Drop)]
pub struct Offers {
    /// For each worker, lesser distances of places of its share.
    lists: Vec<Vec<Offer>>,
    /// The sum of what was read ahead. Nobody asks for it: it is kept so that no compiler leaves out the reads.
    sum: u64,
    /// Whether it ran out of memory.
    pub lacks_memory: bool,
}

impl SearchWorker {
    /// Nothing to visit.
    pub fn new(alloc: Global) -> Result<SearchWorker, NoMemory> {
        Ok(SearchWorker {
            visits: Vec::new(alloc),
            later: lists_of(alloc, SLOTS as usize)?,
            lacks_memory: false,
        })
    }

    /// Takes what was offered to the worker of this number. The distances are those of its share.
    pub fn take(
        &mut self,
        sharing: Sharing,
        number: usize,
        offers: &[Offers],
        distances: &mut [u32],
    ) {
        self.visits.clear();
        let first = number.saturating_mul(sharing.share);
        'offers: for from in offers {
            if number < from.lists.len() {
                let list = from.lists[number].as_slice();
                if self.take_list(sharing, first, list, distances).is_err() {
                    self.lacks_memory = true;
                }
            }
        }
    }

    /// Gives each place the distance that is offered, where that is less, and puts it into its bucket.
    fn take_list(
        &mut self,
        sharing: Sharing,
        first: usize,
        offers: &[Offer],
        distances: &mut [u32],
    ) -> Result<(), NoMemory> {
        let width = sharing.width.max(1);
        'offers: for i in 0..offers.len() {
            let offer = offers[i];
            let place = (offer.place as usize).wrapping_sub(first);
            if place < distances.len() && offer.distance < distances[place] {
                distances[place] = offer.distance;
                let bucket = (offer.distance / width) as u64;
                self.put(sharing.bucket, bucket, offer)?;
            }
        }
        Ok(())
    }

    /// Puts a visit into a bucket.
    fn put(&mut self, at: u64, bucket: u64, visit: Offer) -> Result<(), NoMemory> {
        if bucket <= at {
            self.visits.push(visit)?;
            return Ok(());
        }
        let slot = slot_of(at, bucket - at);
        if slot < self.later.len() {
            self.later[slot].push(visit)?;
        }
        Ok(())
    }

    /// How far it is from this bucket to the next one with visits.
    pub fn distance_to_next(&self, at: u64) -> Option<u64> {
        'ahead: for ahead in 1..SLOTS {
            let slot = slot_of(at, ahead);
            if slot < self.later.len() && !self.later[slot].is_empty() {
                return Some(ahead);
            }
        }
        None
    }

    /// Makes this bucket the one at hand.
    pub fn advance(&mut self, bucket: u64) {
        self.visits.clear();
        let slot = slot_of(bucket, 0);
        if slot < self.later.len() {
            mem::swap(&mut self.visits, &mut self.later[slot]);
        }
    }
}

/// Where the bucket stands that comes so many after this one.
fn slot_of(at: u64, ahead: u64) -> usize {
    (at.wrapping_add(ahead.min(SLOTS - 1)) % SLOTS) as usize
}

/// So many empty lists.
fn lists_of(alloc: Global, count: usize) -> Result<Vec<Vec<Offer>>, NoMemory> {
    let mut lists = Vec::new(alloc);
    'lists: for _list in 0..count {
        lists.push(Vec::new(alloc))?;
    }
    Ok(lists)
}

impl Offers {
    /// No offers to so many workers.
    pub fn new(alloc: Global, workers: usize) -> Result<Offers, NoMemory> {
        Ok(Offers {
            lists: lists_of(alloc, workers)?,
            sum: 0,
            lacks_memory: false,
        })
    }

    /// Offers what is found along the arcs out of the places of these visits, in place of what was offered before.
    pub fn look(&mut self, image: &Image, share: usize, distances: &[u32], visits: &[Offer]) {
        'lists: for i in 0..self.lists.len() {
            self.lists[i].clear();
        }
        'blocks: for block in visits.chunks(AHEAD) {
            if self.look_at(image, share, distances, block).is_err() {
                self.lacks_memory = true;
            }
        }
    }

    /// The same for a few visits, behind what was offered before: first what they read is read for all of them.
    fn look_at(
        &mut self,
        image: &Image,
        share: usize,
        distances: &[u32],
        visits: &[Offer],
    ) -> Result<(), NoMemory> {
        let mut places = [0u32; AHEAD];
        let mut count = 0;
        'visits: for i in 0..visits.len() {
            let place = visits[i].place as usize;
            if count < AHEAD && place < distances.len() && distances[place] == visits[i].distance {
                places[count] = visits[i].place;
                count += 1;
            }
        }
        let places = places.get(..count).unwrap_or(&[]);
        let ends = sum_of_ends(image, places);
        let others = sum_of_others(image, distances, places);
        self.sum = self.sum.wrapping_add(ends).wrapping_add(others);
        'places: for i in 0..places.len() {
            self.follow(image, share, distances, places[i] as usize)?;
        }
        Ok(())
    }

    /// Offers what is found along the arcs out of a place.
    fn follow(
        &mut self,
        image: &Image,
        share: usize,
        distances: &[u32],
        place: usize,
    ) -> Result<(), NoMemory> {
        if place >= image.len() || place >= distances.len() {
            return Ok(());
        }
        let share = share.max(1);
        let before = distances[place];
        let arcs = image.out(place);
        'arcs: for i in 0..arcs.len() {
            let place = arcs[i].other;
            let distance = before.saturating_add(arcs[i].weight);
            if (place as usize) < distances.len() && distance < distances[place as usize] {
                let worker = place as usize / share;
                if worker < self.lists.len() {
                    self.lists[worker].push(Offer { place, distance })?;
                }
            }
        }
        Ok(())
    }
}

/// The sum of the distances to which the first arcs of the places lead.
fn sum_of_others(image: &Image, distances: &[u32], places: &[u32]) -> u64 {
    let mut sum = 0u64;
    'places: for i in 0..places.len() {
        let place = places[i] as usize;
        if place < image.len() {
            let arcs = image.out(place);
            let count = arcs.len().min(FIRST_ARCS);
            'arcs: for k in 0..count {
                let other = arcs[k].other as usize;
                if other < distances.len() {
                    sum = sum.wrapping_add(distances[other] as u64);
                }
            }
        }
    }
    sum
}
