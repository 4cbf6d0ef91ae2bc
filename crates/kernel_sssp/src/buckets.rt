//! The buckets in use.
//!
//! 1. Buckets stand in an ordered map by their numbers: with narrow buckets and great weights most numbers have none,
//!    so a list by number would be far longer than the visits.
//! 2. A visit is never taken out of a bucket when its place gets a lesser distance. It is passed over when its bucket's
//!    turn comes, since its distance is no longer that of its place.

ghost use Rattle.std.specs.Prelude.{◌≡◌, ℕ, IfSome, IfNone, OnOk};
ghost use Rattle.kernel_sssp.specs.Buckets.{Puts, TakesFirst, HasNone};

use graph_image::NoMemory;
use items::Items;
use std::alloc::Global;
use std::collections::BTreeMap;

/// A place, and the distance at which its arcs are to be followed. It counts for nothing once the place has
/// a lesser distance.
#[derive(Clone, Copy)]
pub struct Visit {
    /// The number of the place.
    pub place: u32,
    /// Its distance when the visit was put into a bucket.
    pub distance: u64,
}

/// Buckets by their numbers.
#[derive(Drop)]
pub struct Buckets {
    pub alloc: Global,
    /// By bucket, the visits in the order in which they came.
    pub lists: BTreeMap<u64, Items<Visit>>,
}

impl Buckets {
    /// No buckets.
    pub fn new(alloc: Global) -> Buckets
        ensures { HasNone result }
    {
        Buckets {
            alloc,
            lists: BTreeMap::new(alloc),
        }
    }

    /// Puts a visit into a bucket.
    pub fn put(&mut self, bucket: u64, visit: Visit) -> Result<(), NoMemory>
        ensures { OnOk result (Puts bucket visit self.old self.new) }
    {
        let list = self.lists.entry(bucket)?.or_insert(Items::new(self.alloc));
        list.push(visit)
    }

    /// Takes the first bucket out.
    pub fn take_first(&mut self) -> Option<(u64, Vec<Visit>)>
        ensures some { IfSome result (λ first. TakesFirst first.0 first.1.items self.old self.new) }
        ensures none { IfNone result (HasNone self.old) }
    {
        let (bucket, list) = self.lists.pop_first()?;
        Some((bucket, list.into_vec()))
    }
}
