//! A new latch table, seats for its passes, and its end.
//!
//! 1. The first seat has all passes. They are dealt one by one, the last one first.
//! 2. A pass that holds no cell may be merged back into a seat. A seat that has all of them back closes the table, and
//!    then each slot has a value that fits.

ghost use Rattle.std.specs.Prelude.{◌≡◌, ◌<◌, ◌≤◌, ◌+◌, ℕ, [], length, replicate, IfOk, IfErr};
ghost use Rattle.std.specs.Vec.{vec_capacity};
ghost use Rattle.latch_table.specs.Latched.{IsPassOf, number_of};
ghost use Rattle.latch_table.specs.Opening.{first_pass, other_passes, merged, spent, HasPasses, IsBack, IsWhole, AreFit};

use crate::cells::Cells;
use crate::rule::{LatchRule, LatchSeat};
use crate::sight::LatchSight;
use crate::slot::Slot;
use atomic_table::{Join, Refused, Split, Table};
use std::alloc::{AllocError, Global};

/// A latch table with its memory.
#[derive(Drop)]
pub struct LatchTable<V: Slot<K>, K> {
    /// A word for the version of each cell, and a slot for its value.
    pub table: Table<V, LatchSight<K>, K, LatchRule<V>, Global>,
    pub ghost square: { table.shared.table_id.words ≡ table.shared.table_id.slots },
}

/// Cuts the first pass off a view that has several.
pub struct Deals;

impl<K> Split<LatchSight<K>> for Deals {
    ghost left = { λ v. other_passes v };

    ghost right = { λ v. first_pass v };
}

/// Takes another view in.
pub struct Merges;

impl<K> Join<LatchSight<K>> for Merges {
    ghost both = { λ v w. merged v w };

    ghost spent = { spent };
}

impl<K, V: Slot<K>> LatchTable<V, K> {
    /// A table with a cell for each value, none of which is held. The seat has all passes.
    pub fn open(
        alloc: Global,
        values: Vec<V>,
        about: &K,
    ) -> Result<(LatchTable<V, K>, LatchSeat<V, K>), Refused<V, Global>>
        requires fits { AreFit (V.fits about.now) values.items }
        ensures table { IfOk result (λ t. (t.0.table.shared.table_id.words ≡ length values.items)
            × (t.0.table.shared.key ≡ about.now)) }
        ensures pass { IfOk result (λ t. (t.1.table_id ≡ t.0.table.shared.table_id)
            × HasPasses about.now (V.passes about.now) t.1.me.0 × (t.1.me.1 ≡ [])) }
        ensures err { IfErr result (λ r. r.slots.items ≡ values.items) }
    {
        let Ok(words) = even_words(alloc, values.len()) else {
            return Err(Refused { slots: values });
        };
        match Table::new(alloc, words.as_slice(), values, about) {
            Ok((table, pass)) => Ok((LatchTable { table }, pass)),
            Err(refused) => Err(refused),
        }
    }

    /// The cells, as passes see them.
    pub fn cells(&self) -> Cells<'_, V, K>
        ensures { result.table.now ≡ self.now.table.shared }
    {
        Cells {
            table: &self.table.shared,
        }
    }

    /// Moves the values of all cells, in their order, into a list that has the room.
    pub fn close(self, all: LatchSeat<V, K>, values: &mut Vec<V>)
        requires pass { all.table_id ≡ self.table.shared.table_id }
        requires whole { IsWhole (V.passes self.table.shared.key) all.me.0 }
        requires room { (values.old.items ≡ []) × (self.table.shared.table_id.words ≤ vec_capacity values.old) }
        ensures count { length values.new.items ≡ self.table.shared.table_id.words }
        ensures fits { AreFit (V.fits self.table.shared.key) values.new.items }
    {
        let LatchTable { table } = self;
        let mut closed = table.close_with(all);
        let count = closed.slot_count();
        'slots: for place in 0..count {
            let value = closed.take(place);
            match values.push(value) {
                Ok(()) => {}
                Err(_) => unreachable!(),
            }
        }
        closed.free();
    }
}

/// The words of so many free cells.
fn even_words(alloc: Global, count: usize) -> Result<Vec<u64>, AllocError>
    ensures { IfOk result (λ v. v.items ≡ replicate count 0) }
{
    vec![in alloc; 0u64; count]
}

impl<'a, K, V: Slot<K>> Cells<'a, V, K> {
    /// A seat for the last of the passes that are still to be dealt, which has this number.
    pub fn deal(&self, all: &mut LatchSeat<V, K>, number: u32) -> LatchSeat<V, K>
        requires table { (all.old.table_id ≡ self.now.table.now.table_id)
            × (0 < self.now.table.now.table_id.words) }
        requires passes { HasPasses self.now.table.now.key (number + 1) all.old.me.0
            × (number < V.passes self.now.table.now.key) }
        ensures pass { IsPassOf (V.passes self.now.table.now.key) self.now.table.now.key
            self.now.table.now.table_id result }
        ensures dealt { (result.me.1 ≡ []) × (number_of result.me.0 ≡ number) }
        ensures passes { HasPasses self.now.table.now.key number all.new.me.0 }
        ensures rest { (all.new.table_id ≡ all.old.table_id) × (all.new.me.1 ≡ all.old.me.1) }
    {
        self.table.split_seat::<Deals>(all)
    }

    /// Takes a pass that holds no cell into a seat.
    pub fn merge(&self, all: &mut LatchSeat<V, K>, pass: LatchSeat<V, K>)
        requires table { (all.old.table_id ≡ self.now.table.now.table_id)
            × (0 < self.now.table.now.table_id.words) }
        requires pass { IsPassOf (V.passes self.now.table.now.key) self.now.table.now.key
            self.now.table.now.table_id pass }
        requires idle { pass.me.1 ≡ [] }
        ensures back { IsBack all.new.me.0 (number_of pass.me.0) }
        ensures others { (p : ℕ) → IsBack all.old.me.0 p → IsBack all.new.me.0 p }
        ensures view { all.new.me ≡ (merged all.old.me.0 pass.me.0, all.old.me.1) }
        ensures table { all.new.table_id ≡ all.old.table_id }
    {
        self.table.join_seat::<Merges>(all, pass);
    }
}
