//! Several cells at once.
//!
//! 1. All values are put back before the first cell is released. So whoever takes one of the cells finds the values of
//!    all as the pass left them.
//! 2. What is put back goes after what is still out. So once all are put back their slots stand in the old order, the
//!    cell that was taken last first, and they are released in that order.

ghost use Rattle.std.specs.Prelude.{◌≡◌, ◌≤◌, [], ◌++◌, length, map};
ghost use Rattle.std.specs.Vec.{vec_capacity};
ghost use Rattle.latch_table.specs.Latched.{IsPassOf, number_of};
ghost use Rattle.latch_table.specs.Several.{taken_of, laid_of, words_of, laid_word, held_word, stored_after, AreHeldFit, AreLaid};

use crate::cells::{Cells, Held, Laid};
use crate::rule::LatchSeat;
use crate::slot::Slot;

impl<'a, K, V: Slot<K>> Cells<'a, V, K> {
    /// Gives all cells of a pass back, as they were taken: puts each value back, and then releases each cell. The
    /// second list is work space with room for all.
    pub fn give_all(
        &self,
        pass: &mut LatchSeat<V, K>,
        held: &mut Vec<Held<V>>,
        laid: &mut Vec<Laid>,
    )
        requires pass { IsPassOf (V.passes self.now.table.now.key) self.now.table.now.key
            self.now.table.now.table_id pass.old }
        requires holds { pass.old.me.1 ≡ taken_of V.vacant held.old.items }
        requires fits { AreHeldFit (V.fits self.now.table.now.key) self.now.table.now.table_id.words
            held.old.items }
        requires room { (laid.old.items ≡ []) × (length held.old.items ≤ vec_capacity laid.old) }
        ensures pass { IsPassOf (V.passes self.now.table.now.key) self.now.table.now.key
            self.now.table.now.table_id pass.new }
        ensures number { number_of pass.new.me.0 ≡ number_of pass.old.me.0 }
        ensures none { (pass.new.me.1 ≡ []) × (held.new.items ≡ []) × (laid.new.items ≡ []) }
        ensures capacity { (vec_capacity held.old ≤ vec_capacity held.new)
            × (vec_capacity laid.old ≤ vec_capacity laid.new) }
        ensures stored { pass.new.me.0.stored ≡ map held_word held.old.items ++ pass.old.me.0.stored }
    {
        self.put_back_all(pass, held, laid);
        self.release_all(pass, laid);
    }

    /// Puts all values back, the cell that was taken last first. The pass holds no other cell.
    pub fn put_back_all(
        &self,
        pass: &mut LatchSeat<V, K>,
        held: &mut Vec<Held<V>>,
        laid: &mut Vec<Laid>,
    )
        requires pass { IsPassOf (V.passes self.now.table.now.key) self.now.table.now.key
            self.now.table.now.table_id pass.old }
        requires holds { pass.old.me.1 ≡ taken_of V.vacant held.old.items }
        requires fits { AreHeldFit (V.fits self.now.table.now.key) self.now.table.now.table_id.words
            held.old.items }
        requires room { (laid.old.items ≡ []) × (length held.old.items ≤ vec_capacity laid.old) }
        ensures pass { IsPassOf (V.passes self.now.table.now.key) self.now.table.now.key
            self.now.table.now.table_id pass.new }
        ensures view { pass.new.me.0 ≡ pass.old.me.0 }
        ensures slots { pass.new.me.1 ≡ laid_of held.old.items }
        ensures laid { AreLaid (V.fits self.now.table.now.key) self.now.table.now.table_id.words
            laid.new.items pass.new.me.1 }
        ensures words { map laid_word laid.new.items ≡ words_of held.old.items }
        ensures none { held.new.items ≡ [] }
        ensures capacity { (vec_capacity held.old ≤ vec_capacity held.new)
            × (vec_capacity laid.old ≤ vec_capacity laid.new) }
    {
        // All values first, and releases after them: a cell is free only once all have their values.
        'back: while let Some(one) = held.pop() {
            let done = self.put_back(pass, one);
            match laid.push(done) {
                Ok(()) => {}
                Err(_) => unreachable!(),
            }
        }
    }

    /// Releases all cells that were put back, in the order of their slots.
    pub fn release_all(&self, pass: &mut LatchSeat<V, K>, laid: &mut Vec<Laid>)
        requires pass { IsPassOf (V.passes self.now.table.now.key) self.now.table.now.key
            self.now.table.now.table_id pass.old }
        requires laid { AreLaid (V.fits self.now.table.now.key) self.now.table.now.table_id.words
            laid.old.items pass.old.me.1 }
        ensures pass { IsPassOf (V.passes self.now.table.now.key) self.now.table.now.key
            self.now.table.now.table_id pass.new }
        ensures number { number_of pass.new.me.0 ≡ number_of pass.old.me.0 }
        ensures stored { pass.new.me.0.stored ≡ stored_after
            (map laid_word laid.old.items) pass.old.me.0.stored }
        ensures none { (pass.new.me.1 ≡ []) × (laid.new.items ≡ [])
            × (vec_capacity laid.old ≤ vec_capacity laid.new) }
    {
        'cells: while !laid.is_empty() {
            let one = laid.remove(0);
            self.release(pass, one);
        }
    }
}
