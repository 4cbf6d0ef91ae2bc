//! Undo records under keys, in one block of memory.
//!
//! 1. A key stays a record's until that is taken away. Then it is the first that is given out again.
//! 2. The keys are those that a `Link` can name.

ghost use Rattle.std.specs.Prelude.{◌≡◌, ◌≢◌, ℕ, ◌+◌, ◌≤◌, ◌<◌, [], length, count_by, false, is_some, Some, None, IsSome, IsSomeAnd, IsOk, OnOk};
ghost use Rattle.undo_chain.specs.declared.link.TheConstants.{MOST_RECORDS};
ghost use Rattle.undo_chain.specs.Packed.{IsNameable};
ghost use Rattle.undo_chain.specs.Chains.{record_at};
ghost use Rattle.undo_chain.specs.Walks.{Remarks, Restamps};

use crate::link::MOST_RECORDS;
use crate::packed::PackedSlot;
use crate::undo::Undo;
use graph_model::NoMemory;
use std::alloc::Global;
use std::marker::Model;
use std::mem;

/// Undo records under keys that are picked here.
#[derive(Drop)]
pub(crate) struct Slots {
    /// Vacant ones are a list too, each of which names the next.
    slots: Vec<PackedSlot>,
    /// How many have a record.
    len: usize,
    /// The first vacant slot, or the number of slots where none is.
    next: usize,
}

impl Model for Slots {
    ghost use Rattle.std.specs.Prelude.{◌-◌, min};
    ghost use Rattle.std.specs.Vec.{vec_capacity};
    ghost use Rattle.undo_chain.specs.declared.link.TheConstants.{MOST_RECORDS};
    ghost use Rattle.undo_chain.specs.Chains.{ChainMap};
    ghost use Rattle.undo_chain.specs.Slots.{records_in, AreSlots};

    ghost Value = { ChainMap };

    ghost view = { λ s. record {
      slots = records_in s.slots.items;
      spare = min (vec_capacity s.slots) MOST_RECORDS - s.len;
    } };

    ghost invariant = { λ s. AreSlots s.slots.items s.len s.next };
}

impl Slots {
    /// No records. Takes no memory.
    pub(crate) fn new(alloc: Global) -> Slots
        ensures slots { result.slots ≡ [] }
        ensures spare { result.spare ≡ 0 }
    {
        Slots {
            slots: Vec::new(alloc),
            len: 0,
            next: 0,
        }
    }

    /// Each key can be named, so there are no more records than that.
    pub(crate) fn keys_can_be_named(&self)
        ensures keys { length self.now.slots ≤ MOST_RECORDS }
        ensures records { count_by is_some self.now.slots ≤ MOST_RECORDS }
    {
        let _ = &self.slots;
    }

    /// How many records there are.
    pub(crate) fn len(&self) -> usize
        ensures { result ≡ count_by is_some self.now.slots }
    {
        self.len
    }

    /// How many more records there is room for.
    pub(crate) fn spare(&self) -> usize
        ensures { result ≡ self.now.spare }
    {
        self.slots.capacity().min(MOST_RECORDS) - self.len
    }

    /// The sum of what is read ahead of the slot that a record will be put in, or of the one before it.
    pub(crate) fn sum_ahead(&self) -> u64 {
        match (self.slots.get(self.next), self.slots.last()) {
            (Some(next), _) => next.any_number(),
            (None, Some(last)) => last.any_number(),
            (None, None) => 0,
        }
    }

    /// Makes room for so many more records. Takes no memory where there is room already. For more than can be
    /// named there is no memory.
    pub(crate) fn reserve(&mut self, records: usize) -> Result<(), NoMemory>
        ensures ok { OnOk result (records ≤ self.new.spare) }
        ensures room { records ≤ self.old.spare → IsOk result }
        ensures had_room { records ≤ self.old.spare → self.new ≡ self.old }
        ensures kept { self.new.slots ≡ self.old.slots }
        ensures spare { self.old.spare ≤ self.new.spare }
    {
        if records <= self.spare() {
            return Ok(());
        }
        // Beyond that a link couldn't name a record. No machine has the memory, so it is answered as if that ran out.
        if records > MOST_RECORDS - self.len {
            return Err(NoMemory);
        }
        let vacant = self.slots.len() - self.len;
        self.slots.reserve(records - vacant)?;
        Ok(())
    }

    /// Puts a record where there is room for it, and answers its key.
    pub(crate) fn insert(&mut self, undo: Undo) -> usize
        requires room { 0 < self.old.spare }
        requires link { IsNameable undo.next }
        requires fresh { undo.all_stamped ≡ false }
        ensures was_vacant { record_at self.old.slots result ≡ None }
        ensures put { record_at self.new.slots result ≡ Some undo }
        ensures others { (k : ℕ) → k ≢ result → record_at self.new.slots k ≡ record_at self.old.slots k }
        ensures spare { self.old.spare ≡ self.new.spare + 1 }
    {
        let key = self.next;
        let slot = PackedSlot::occupied(undo);
        self.len += 1;
        // No slot is vacant. A new one is made only then, so there are never more slots than records stood here at
        // once.
        if key == self.slots.len() {
            self.slots.push_reserved(slot);
            self.next = key + 1;
            return key;
        }
        let vacant = mem::replace(&mut self.slots[key], slot);
        self.next = vacant.next_vacant();
        key
    }

    /// Takes the record at a key away.
    pub(crate) fn remove(&mut self, key: usize) -> Undo
        requires { IsSome (record_at self.old.slots key) }
        ensures was { record_at self.old.slots key ≡ Some result }
        ensures gone { record_at self.new.slots key ≡ None }
        ensures others { (k : ℕ) → k ≢ key → record_at self.new.slots k ≡ record_at self.old.slots k }
        ensures spare { self.new.spare ≡ self.old.spare + 1 }
    {
        let occupied = mem::replace(&mut self.slots[key], PackedSlot::vacant(self.next));
        self.len -= 1;
        self.next = key;
        occupied.undo()
    }

    /// The record at a key.
    pub(crate) fn get(&self, key: usize) -> Undo
        requires { IsSome (record_at self.now.slots key) }
        ensures { record_at self.now.slots key ≡ Some result }
    {
        self.slots[key].undo()
    }

    /// Gives the record at a key this stamp.
    pub(crate) fn set_stamp(&mut self, key: usize, stamp: u64)
        requires { IsSome (record_at self.old.slots key) }
        ensures { Restamps self.old self.new key stamp }
    {
        self.slots[key].set_stamp(stamp);
    }

    /// Says of the record at a key that from it on all have stamps.
    pub(crate) fn set_all_stamped(&mut self, key: usize)
        requires { IsSomeAnd (record_at self.old.slots key) (λ undo. IsSome undo.stamp) }
        ensures { Remarks self.old self.new key }
    {
        self.slots[key].set_all_stamped();
    }
}
