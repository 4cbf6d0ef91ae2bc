//! Cells that are taken, put back and released.
//!
//! 1. A cell has a version word and a slot. The word is odd while a pass holds the cell, and then the value of the
//!    slot is with that pass.
//! 2. A cell is taken by one compare-exchange from an even word to the odd one above it, and released by one store of
//!    an even word. Between the two nobody else reads or writes the slot, so it needs no atomic step.
//! 3. The word is two higher after each hold that changed the cell. A hold that changed nothing leaves the word that
//!    it found.
//! 4. Each step is sequentially consistent, and says which order it needs.

ghost use Rattle.std.specs.Prelude.{◌≡◌, ◌<◌, ◌%◌, ◌+◌, ◌-◌, [], ◌∷◌, ◌++◌, List, false, IfErr, IfOk};
ghost use Rattle.atomic_table.specs.Table.{rest};
ghost use Rattle.latch_table.specs.declared.sight.CellWord.{CellWord};
ghost use Rattle.latch_table.specs.Latched.{IsPassOf, IsBusy, IsEven, number_of, gave, looked, last_word, word_after, cell_word};

use crate::backoff::Backoff;
use crate::rule::{Gives, LatchRule, LatchSeat, Looks, Takes};
use crate::sight::LatchSight;
use crate::slot::Slot;
use atomic_table::Shared;
use std::sync::Wait;

/// The last even word. A cell that has it isn't taken any more: two higher would be no number of 64 bits.
const LAST_WORD: u64 = u64::MAX - 1;

/// The cells of a table.
#[derive(Drop)]
pub struct Cells<'a, V: Slot<K>, K> {
    /// The table whose cells they are.
    pub table: &'a Shared<V, LatchSight<K>, K, LatchRule<V>>,
    pub ghost square: { table.now.table_id.words ≡ table.now.table_id.slots },
}

/// A cell that is held, with what lay in its slot. It must be put back.
pub struct Held<V> {
    /// The number of the cell.
    pub cell: u32,
    /// The even word that was found.
    pub found: u64,
    /// Whether the value may be another one. The holder sets it before it changes the value.
    pub changed: bool,
    /// What lay in the slot.
    pub value: V,
    pub ghost even: { IsEven found × (found < last_word) },
}

/// A cell that is held, and whose value lies in its slot again. It must be released.
pub struct Laid {
    /// The number of the cell.
    pub cell: u32,
    /// The even version word under which it was taken.
    pub found: u64,
    /// Whether it gets another version: then whoever read it meanwhile reads it again.
    pub changed: bool,
    pub ghost even: { IsEven found × (found < last_word) },
}

/// The cell wasn't taken.
#[derive(Clone, Copy, Debug, Drop, PartialEq)]
pub struct Busy {
    /// The word that was in the way: odd, the last one, or another than this call had found before.
    pub found: u64,
}

impl<'a, K, V: Slot<K>> Cells<'a, V, K> {
    /// Takes a cell, if this call's look finds it free. It waits for nobody and takes no memory.
    pub fn try_take(&self, pass: &mut LatchSeat<V, K>, cell: u32) -> Result<Held<V>, Busy>
        requires pass { IsPassOf (V.passes self.now.table.now.key) self.now.table.now.key
            self.now.table.now.table_id pass.old }
        requires cell { cell < self.now.table.now.table_id.words }
        ensures pass { IsPassOf (V.passes self.now.table.now.key) self.now.table.now.key
            self.now.table.now.table_id pass.new }
        ensures number { number_of pass.new.me.0 ≡ number_of pass.old.me.0 }
        ensures held { IfOk result (λ h. (h.cell ≡ cell) × (h.changed ≡ false)
            × V.fits self.now.table.now.key cell h.value) }
        ensures slots { IfOk result (λ h. pass.new.me.1 ≡ (cell, V.vacant) ∷ pass.old.me.1) }
        ensures found { IfOk result (λ h. pass.new.me.0.looks
            ≡ cell_word cell h.found ∷ cell_word cell h.found ∷ pass.old.me.0.looks) }
        ensures stored { pass.new.me.0.stored ≡ pass.old.me.0.stored }
        ensures busy { IfErr result (λ b. (pass.new.me.1 ≡ pass.old.me.1)
            × IsBusy cell b.found pass.old.me.0.looks pass.new.me.0.looks) }
    {
        let place = cell as usize;
        // Loads the word first, since a compare-exchange that must fail would take the line of the cache from the
        // holder. What it finds may be past by the next step, which compares the word again.
        let found = self.table.load::<Looks>(pass, place);
        if found % 2 == 1 || found == LAST_WORD {
            return Err(Busy { found });
        }
        // Sequentially consistent, and has to be an acquire: what the last holder wrote in the slot is there.
        let seen = self
            .table
            .compare_exchange::<Takes<V>>(pass, place, found, found + 1);
        if seen != found {
            return Err(Busy { found: seen });
        }
        // The place is this pass's alone now, so the slot is exchanged with no look at what others do.
        let value = self.table.exchange(pass, place, V::new_vacant());
        Ok(Held {
            cell,
            found,
            changed: false,
            value,
        })
    }

    /// Takes a cell as soon as this call's look finds it free: pauses between looks, twice as long each time, and
    /// after some of them leaves the processor to others. A pass that takes a cell that it holds waits for ever.
    pub fn take(&self, rt: &impl Wait, pass: &mut LatchSeat<V, K>, cell: u32) -> Held<V>
        requires pass { IsPassOf (V.passes self.now.table.now.key) self.now.table.now.key
            self.now.table.now.table_id pass.old }
        requires cell { cell < self.now.table.now.table_id.words }
        ensures pass { IsPassOf (V.passes self.now.table.now.key) self.now.table.now.key
            self.now.table.now.table_id pass.new }
        ensures number { number_of pass.new.me.0 ≡ number_of pass.old.me.0 }
        ensures held { (result.cell ≡ cell) × (result.changed ≡ false)
            × V.fits self.now.table.now.key cell result.value }
        ensures slots { pass.new.me.1 ≡ (cell, V.vacant) ∷ pass.old.me.1 }
        ensures found { (before : List CellWord)
            × (pass.new.me.0.looks ≡ cell_word cell result.found ∷ cell_word cell result.found ∷ before) }
        ensures stored { pass.new.me.0.stored ≡ pass.old.me.0.stored }
    {
        let mut backoff = Backoff::new();
        'tries: for _ in rt.forever() {
            match self.try_take(pass, cell) {
                Ok(held) => return held,
                Err(_) => backoff.wait(),
            }
        }
        unreachable!()
    }

    /// Lays the value back in its slot. The cell stays held until it is released. Cells that are out longer come next.
    pub fn put_back(&self, pass: &mut LatchSeat<V, K>, held: Held<V>) -> Laid
        requires pass { IsPassOf (V.passes self.now.table.now.key) self.now.table.now.key
            self.now.table.now.table_id pass.old }
        requires holds { pass.old.me.1 ≡ (held.cell, V.vacant) ∷ rest pass.old.me.1 }
        ensures pass { IsPassOf (V.passes self.now.table.now.key) self.now.table.now.key
            self.now.table.now.table_id pass.new }
        ensures laid { (result.cell ≡ held.cell) × (result.found ≡ held.found)
            × (result.changed ≡ held.changed) }
        ensures view { pass.new.me.0 ≡ pass.old.me.0 }
        ensures slots { pass.new.me.1 ≡ rest pass.old.me.1 ++ (held.cell, held.value) ∷ [] }
    {
        let Held {
            cell,
            found,
            changed,
            value,
        } = held;
        let vacant = self.table.exchange(pass, cell as usize, value);
        // Nothing lay there while the value was out.
        vacant.forget_vacant();
        pass.turn();
        Laid {
            cell,
            found,
            changed,
        }
    }

    /// Makes the version word even again. Whoever takes the cell next finds the value that was put back.
    pub fn release(&self, pass: &mut LatchSeat<V, K>, laid: Laid)
        requires pass { IsPassOf (V.passes self.now.table.now.key) self.now.table.now.key
            self.now.table.now.table_id pass.old }
        requires cell { laid.cell < self.now.table.now.table_id.words }
        requires lies { (value : V) × (pass.old.me.1 ≡ (laid.cell, value) ∷ rest pass.old.me.1)
            × V.fits self.now.table.now.key laid.cell value }
        ensures pass { IsPassOf (V.passes self.now.table.now.key) self.now.table.now.key
            self.now.table.now.table_id pass.new }
        ensures released { pass.new.me ≡ (
          gave pass.old.me.0 laid.cell (word_after laid.found laid.changed),
          rest pass.old.me.1,
        ) }
    {
        let word = if laid.changed {
            laid.found + 2
        } else {
            laid.found
        };
        let Laid {
            cell,
            found: _,
            changed: _,
        } = laid;
        // Sequentially consistent, and has to be a release: the slot was written before. Whoever looks meanwhile finds
        // the odd word, and is told that the cell is busy, which it was.
        self.table.store::<Gives>(pass, cell as usize, word);
    }

    /// Puts the value of a cell back and releases the cell. The pass holds no other one.
    pub fn give(&self, pass: &mut LatchSeat<V, K>, held: Held<V>)
        requires pass { IsPassOf (V.passes self.now.table.now.key) self.now.table.now.key
            self.now.table.now.table_id pass.old }
        requires cell { held.cell < self.now.table.now.table_id.words }
        requires holds { pass.old.me.1 ≡ (held.cell, V.vacant) ∷ [] }
        requires fits { V.fits self.now.table.now.key held.cell held.value }
        ensures pass { IsPassOf (V.passes self.now.table.now.key) self.now.table.now.key
            self.now.table.now.table_id pass.new }
        ensures released { pass.new.me ≡ (
          gave pass.old.me.0 held.cell (word_after held.found held.changed),
          [],
        ) }
    {
        self.give_last(pass, held);
    }

    /// The same of the cell that was taken last, where the pass may hold others, which it keeps.
    pub fn give_last(&self, pass: &mut LatchSeat<V, K>, held: Held<V>)
        requires pass { IsPassOf (V.passes self.now.table.now.key) self.now.table.now.key
            self.now.table.now.table_id pass.old }
        requires cell { held.cell < self.now.table.now.table_id.words }
        requires holds { pass.old.me.1 ≡ (held.cell, V.vacant) ∷ rest pass.old.me.1 }
        requires fits { V.fits self.now.table.now.key held.cell held.value }
        ensures pass { IsPassOf (V.passes self.now.table.now.key) self.now.table.now.key
            self.now.table.now.table_id pass.new }
        ensures released { pass.new.me ≡ (
          gave pass.old.me.0 held.cell (word_after held.found held.changed),
          rest pass.old.me.1,
        ) }
    {
        let Held {
            cell,
            found,
            changed,
            value,
        } = held;
        let vacant = self.table.exchange(pass, cell as usize, value);
        vacant.forget_vacant();
        // Its slot stays the first one, before those of the others.
        let laid = Laid {
            cell,
            found,
            changed,
        };
        self.release(pass, laid);
    }

    /// The version word of a cell. It may be another one by the time that the caller reads it.
    pub fn version(&self, pass: &mut LatchSeat<V, K>, cell: u32) -> u64
        requires pass { IsPassOf (V.passes self.now.table.now.key) self.now.table.now.key
            self.now.table.now.table_id pass.old }
        requires cell { cell < self.now.table.now.table_id.words }
        ensures pass { IsPassOf (V.passes self.now.table.now.key) self.now.table.now.key
            self.now.table.now.table_id pass.new }
        ensures found { pass.new.me ≡ (looked pass.old.me.0 cell result, pass.old.me.1) }
    {
        // Sequentially consistent, so two loads with reads between them come in that order for all. A holder may have
        // come and gone since: then the word is higher, and the next load tells.
        self.table.load::<Looks>(pass, cell as usize)
    }
}
