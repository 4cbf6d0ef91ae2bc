//! The search, bucket by bucket.
//!
//! 1. All distances below the bucket at hand are final: arcs have no weight below 0, so whatever is still to come is no
//!    nearer.
//! 2. A visit may put others into the bucket at hand, so a bucket is at its end when its list is, and not after one
//!    round.
//! 3. What a visit reads of memory is read ahead for those that come next, which changes nothing.

ghost use Rattle.std.specs.Prelude.{◌≡◌, ◌<◌, ◌^◌, false, length, slice_get, Some, IsTrue, IfOk, OnOk};
ghost use Rattle.kernel_sssp.specs.Search.{IsSearchOf, IsVisit, IsStart, IsLowered};
ghost use Rattle.kernel_sssp.specs.Search.{Follows, Steps, Settles, Advances, spread};
ghost use Rattle.kernel_sssp.specs.Buckets.{HasNone};

use crate::ahead::{AHEAD, Ahead, FEW, sum_ahead};
use crate::buckets::{Buckets, Visit};
use crate::distances::UNREACHED;
use graph_image::{Arc, Image, NoMemory};
use std::alloc::Global;

/// How far the search has come.
#[derive(Clone, Copy)]
pub struct BucketStage {
    /// The place of the root.
    pub root: usize,
    /// How wide a bucket is.
    pub width: u32,
    /// The number of the bucket at hand.
    pub bucket: u64,
    /// How many of its visits are made.
    pub made: usize,
}

/// What is known of the weights.
#[derive(Drop)]
pub struct BucketSearch {
    /// How far it has come.
    pub stage: BucketStage,
    /// The least weight of a path to each place, of the paths that were found.
    pub distances: Vec<u64>,
    /// The visits of the bucket at hand.
    pub visits: Vec<Visit>,
    /// The buckets after it.
    pub later: Buckets,
    /// For which visits of the bucket at hand it was read ahead.
    pub ahead: Ahead,
}

impl BucketSearch {
    /// Just the root is reached, and is to be visited.
    pub fn new(
        alloc: Global,
        count: usize,
        root: usize,
        width: u32,
    ) -> Result<BucketSearch, NoMemory>
        requires root { root < count }
        requires few { count < 2 ^ 32 }
        ensures { IfOk result (IsStart count root width) }
    {
        let mut distances = vec![in alloc; UNREACHED; count]?;
        let mut visits = Vec::new(alloc);
        distances[root] = 0;
        visits.push(Visit {
            place: root as u32,
            distance: 0,
        })?;
        let stage = BucketStage {
            root,
            width,
            bucket: 0,
            made: 0,
        };
        Ok(BucketSearch {
            stage,
            distances,
            visits,
            later: Buckets::new(alloc),
            ahead: Ahead { until: 0, sum: 0 },
        })
    }

    /// Settles the bucket: all arcs out of its places are followed.
    pub fn settle(&mut self, image: &Image) -> Result<(), NoMemory>
        requires { IsSearchOf image.now self.old }
        ensures { OnOk result (Settles image.now self.old self.new) }
    {
        'visits: while self.stage.made < self.visits.len() {
            self.read_ahead(image);
            self.step(image)?;
        }
        Ok(())
    }

    /// Makes the next bucket in use the one at hand, and says whether there is one.
    pub fn advance(&mut self) -> bool
        ensures more { IsTrue result → Advances self.old self.new }
        ensures none { result ≡ false → HasNone self.old.later × (self.new.distances.items ≡ self.old.distances.items) }
    {
        let Some((bucket, visits)) = self.later.take_first() else {
            return false;
        };
        self.stage = BucketStage {
            bucket,
            made: 0,
            ..self.stage
        };
        self.visits = visits;
        // What was read ahead was of the bucket before.
        self.ahead.until = 0;
        true
    }

    /// Reads ahead for the next visits, unless that was done.
    fn read_ahead(&mut self, image: &Image)
        ensures { self.new ≡ record self.old { ahead = self.new.ahead } }
    {
        let made = self.stage.made;
        // Some visits at a time: to read ahead for one would be no gain.
        if made < self.ahead.until {
            return;
        }
        let end = self.visits.len().min(made.saturating_add(AHEAD));
        self.ahead.until = end;
        if end.saturating_sub(made) >= FEW {
            let next = self.visits.as_slice().get(made..end).unwrap_or(&[]);
            let sum = sum_ahead(image, self.distances.as_slice(), next);
            self.ahead.sum = self.ahead.sum.wrapping_add(sum);
        }
    }

    /// Makes the next visit.
    fn step(&mut self, image: &Image) -> Result<(), NoMemory>
        requires search { IsSearchOf image.now self.old }
        requires left { self.old.stage.made < length self.old.visits.items }
        ensures { OnOk result (Steps image.now self.old self.new) }
    {
        let visit = self.visits[self.stage.made];
        self.visit(image, visit)?;
        self.stage.made += 1;
        Ok(())
    }

    /// Follows the arcs of a visit, if it still counts.
    fn visit(&mut self, image: &Image, visit: Visit) -> Result<(), NoMemory>
        requires search { IsSearchOf image.now self.old }
        requires visit { IsVisit (length image.now.vertices) self.old.stage.width self.old.stage.bucket visit }
        ensures { OnOk result (Follows image.now visit self.old self.new) }
    {
        if self.distances[visit.place as usize] == visit.distance {
            self.follow(image, visit)?;
        }
        Ok(())
    }

    /// Follows the arcs out of a place.
    fn follow(&mut self, image: &Image, visit: Visit) -> Result<(), NoMemory>
        requires search { IsSearchOf image.now self.old }
        requires visit { IsVisit (length image.now.vertices) self.old.stage.width self.old.stage.bucket visit }
        requires here { slice_get self.old.distances.items visit.place ≡ Some visit.distance }
        ensures { OnOk result (Follows image.now visit self.old self.new) }
    {
        let arcs = image.out(visit.place as usize);
        'arcs: for i in 0..arcs.len() {
            let Arc { other, weight } = arcs[i];
            let distance = visit.distance + weight as u64;
            if distance < self.distances[other as usize] {
                self.lower(other, distance)?;
            }
        }
        Ok(())
    }

    /// Gives a place a lesser distance, and puts it into its bucket.
    fn lower(&mut self, place: u32, distance: u64) -> Result<(), NoMemory>
        requires place { place < length self.old.distances.items }
        requires wide { 0 < self.old.stage.width }
        ensures { OnOk result (IsLowered place distance self.old self.new) }
    {
        self.distances[place as usize] = distance;
        let visit = Visit { place, distance };
        let bucket = distance / self.stage.width as u64;
        // An arc that is short leads into the bucket at hand. None leads to an earlier one: weights are at least 0.
        if bucket == self.stage.bucket {
            self.visits.push(visit)?;
        } else {
            self.later.put(bucket, visit)?;
        }
        Ok(())
    }
}
