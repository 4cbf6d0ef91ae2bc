//! Where ids stand in a list, by a table: an id and its place lie in one of a few slots after the one that its bits
//! give, so that a look-up mostly reads one line of memory.
//!
//! Of ids that crowd at one slot some have none, so a look-up may miss an id that stands in the list.

ghost use Rattle.std.specs.Prelude.{◌≡◌, ◌<◌, ℕ, List, length, slice_index, All, IfOk, IfSome, Some};
ghost use Rattle.std.specs.Bool.{OnTrue};
ghost use Rattle.std.specs.List.Sorted.{IsNonDecreasing};
ghost use Rattle.id_places.specs.Places.{place_of, IsRight};

use items::NoMemory;
use std::alloc::Global;
use std::marker::Model;

/// How many slots are looked at for an id.
const TRIES: usize = 16;

/// The place of an empty slot, which is beyond every list.
const NOWHERE: usize = usize::MAX;

/// An odd number near `2 ^ 64` divided by the golden ratio: its multiples spread over all leading bits.
const SPREAD: u64 = 11400714819323198485;

/// An id, and the first place where it stands.
#[derive(Clone, Copy, Debug)]
pub struct IdSlot {
    /// What stands in the file.
    pub id: u64,
    /// Its place among the ids.
    pub place: usize,
}

/// The slots, at least twice as many as ids.
#[derive(Drop)]
pub(crate) struct IdSlots {
    /// An id has one of the slots that are looked at for it, if one of these was empty when it came.
    slots: Vec<IdSlot>,
    /// How many bits of an id's multiple are dropped; the others give its first slot.
    shift: u32,
    ghost small: { shift < 64 },
}

impl Model for IdSlots {
    ghost use Rattle.std.specs.Prelude.{List};
    ghost use Rattle.id_places.specs.declared.slots.IdSlot.{IdSlot};

    ghost Value = { List IdSlot };

    ghost view = { λ slots. slots.slots.items };
}

impl IdSlots {
    /// A table of the ids from a place on.
    pub(crate) fn of(alloc: Global, sorted: &[u64], from: usize) -> Result<IdSlots, NoMemory>
        requires { IsNonDecreasing sorted.now }
        ensures { IfOk result (All (IsRight sorted.now)) }
    {
        let mut slots = IdSlots::empty(alloc, sorted.len().saturating_sub(from))?;
        'places: for place in from..sorted.len() {
            // Of an id that stands several times the first place counts.
            if stands_first(sorted, place) {
                slots.put(IdSlot {
                    id: sorted[place],
                    place,
                });
            }
        }
        Ok(slots)
    }

    /// Empty slots for so many ids.
    fn empty(alloc: Global, count: usize) -> Result<IdSlots, NoMemory>
        ensures { IfOk result (λ slots. (ids : List ℕ) → All (IsRight ids) slots) }
    {
        let bits = bits_of(count);
        let empty = IdSlot {
            id: 0,
            place: NOWHERE,
        };
        let slots = vec![in alloc; empty; (1usize << bits).saturating_add(TRIES)]?;
        Ok(IdSlots {
            slots,
            shift: 64 - bits,
        })
    }

    /// Fills an empty slot, if one is among those that are looked at for the id.
    fn put(&mut self, slot: IdSlot)
        ensures { (ids : List ℕ) → All (IsRight ids) self.old → IsRight ids slot → All (IsRight ids) self.new }
    {
        if let Some(at) = self.empty_slot(slot.id) {
            self.slots[at] = slot;
        }
    }

    /// The first empty slot of those that are looked at for an id.
    fn empty_slot(&self, id: u64) -> Option<usize>
        ensures { IfSome result (λ at. at < length self.now) }
    {
        let first = self.first(id);
        'slots: for at in first..first.saturating_add(TRIES) {
            if at < self.slots.len() && self.slots[at].place == NOWHERE {
                return Some(at);
            }
        }
        None
    }

    /// The first place of an id, if it has a slot.
    pub(crate) fn find(&self, id: u64) -> Option<usize>
        ensures { IfSome result (λ place. (ids : List ℕ) → All (IsRight ids) self.now
            → place_of ids id ≡ Some place) }
    {
        let first = self.first(id);
        'slots: for at in first..first.saturating_add(TRIES) {
            if self.slots.len() <= at {
                return None;
            }
            let slot = self.slots[at];
            if slot.id == id && slot.place != NOWHERE {
                return Some(slot.place);
            }
        }
        None
    }

    /// The first slot that is looked at for an id.
    fn first(&self, id: u64) -> usize {
        (id.wrapping_mul(SPREAD) >> self.shift) as usize
    }
}

/// Whether an id of a sorted list doesn't stand before this place too.
pub(crate) fn stands_first(sorted: &[u64], place: usize) -> bool
    requires rises { IsNonDecreasing sorted.now }
    requires within { place < length sorted.now }
    ensures { OnTrue result (place_of sorted.now (slice_index sorted.now place) ≡ Some place) }
{
    if place == 0 {
        return true;
    }
    sorted[place - 1] < sorted[place]
}

/// How many bits number twice so many slots.
fn bits_of(count: usize) -> u32
    ensures above { 0 < result }
    ensures below { result < 64 }
{
    'bits: for bits in 1..32u32 {
        if count <= 1usize << (bits - 1) {
            return bits;
        }
    }
    32
}
