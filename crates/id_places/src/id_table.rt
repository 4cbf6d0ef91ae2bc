//! Which ids a graph has, and where each stands among them.
//!
//! 1. Where no id is missing between the least and some other, an id of these is found by its distance from the least.
//! 2. All others are found in a table of slots or, where they have none, by a search: how an id is found is a matter of
//!    time alone.

ghost use Rattle.std.specs.Prelude.{◌≡◌, ◌<◌, ℕ, length, slice_index, true, false, All};
ghost use Rattle.std.specs.Prelude.{IfOk, IfSome, MatchOption, Some};
ghost use Rattle.std.specs.List.Sorted.{IsNonDecreasing};
ghost use Rattle.id_places.specs.Places.{is_among, StartsDense, place_of, IsRight};

use crate::slots::{IdSlots, stands_first};
use items::NoMemory;
use std::alloc::Global;
use std::marker::Model;

/// The ids of a graph in rising order.
#[derive(Drop)]
pub struct IdTable {
    /// Without repeats.
    sorted: Vec<u64>,
    /// How many ids at the front have no gap between them. A look-up among these reads no memory, which is what files
    /// with the ids 1 to n need.
    dense: usize,
    /// Where most of the others stand.
    slots: IdSlots,
    ghost rises: { IsNonDecreasing sorted.items },
    ghost starts: { StartsDense sorted.items dense },
    ghost right: { All (IsRight sorted.items) slots },
}

impl Model for IdTable {
    ghost use Rattle.std.specs.Prelude.{ℕ, List};

    ghost Value = { List ℕ };

    ghost view = { λ known. known.sorted.items };
}

impl IdTable {
    /// Whether the id is one of them.
    pub fn knows(&self, id: u64) -> bool
        ensures { result ≡ is_among self.now id }
    {
        self.find(id).is_some()
    }

    /// Sorts a copy of the ids.
    pub fn of(alloc: Global, ids: &[u64]) -> Result<IdTable, NoMemory>
        ensures { IfOk result (λ known. (v : ℕ) → is_among known v ≡ is_among ids.now v) }
    {
        let mut sorted = Vec::from_slice(alloc, ids)?;
        sorted.sort_unstable();
        // In most files all ids follow each other, and then no table is needed.
        let dense = dense_front(sorted.as_slice());
        let slots = IdSlots::of(alloc, sorted.as_slice(), dense)?;
        Ok(IdTable {
            sorted,
            dense,
            slots,
        })
    }

    /// The first place of an id.
    pub fn find(&self, id: u64) -> Option<usize>
        ensures place { result ≡ place_of self.now id }
        ensures among { MatchOption result (is_among self.now id ≡ false) (λ _. is_among self.now id ≡ true) }
    {
        match self.find_dense(id) {
            Some(place) => Some(place),
            None => match self.slots.find(id) {
                Some(place) => Some(place),
                None => self.search(id),
            },
        }
    }

    /// The first place of an id, where it stands among those at the front that have no gap between them.
    fn find_dense(&self, id: u64) -> Option<usize>
        ensures { IfSome result (λ place. place_of self.now id ≡ Some place) }
    {
        if self.sorted.is_empty() {
            return None;
        }
        let least = self.sorted[0];
        if least <= id && id - least < self.dense as u64 {
            Some((id - least) as usize)
        } else {
            None
        }
    }

    /// A place at which an id stands, where it doesn't stand before it.
    fn as_first(&self, place: usize, id: u64) -> Option<usize>
        requires within { place < length self.now }
        requires here { slice_index self.now place ≡ id }
        ensures { IfSome result (λ place. place_of self.now id ≡ Some place) }
    {
        if stands_first(self.sorted.as_slice(), place) {
            Some(place)
        } else {
            None
        }
    }

    /// The first place of an id, by a binary search.
    fn search(&self, id: u64) -> Option<usize>
        ensures { result ≡ place_of self.now id }
    {
        match self.sorted.binary_search(&id) {
            Err(_) => None,
            Ok(place) => match self.as_first(place, id) {
                Some(place) => Some(place),
                None => first_place(self.sorted.as_slice(), id),
            },
        }
    }
}

/// The first place of an id that may stand at several.
fn first_place(ids: &[u64], id: u64) -> Option<usize>
    ensures { result ≡ place_of ids.now id }
{
    ids.iter().position(|known| *known == id)
}

/// How many numbers at the front have no gap between them.
fn dense_front(sorted: &[u64]) -> usize
    requires { IsNonDecreasing sorted.now }
    ensures { StartsDense sorted.now result }
{
    'places: for i in 0..sorted.len() {
        if sorted[i] - sorted[0] != i as u64 {
            return i;
        }
    }
    sorted.len()
}
