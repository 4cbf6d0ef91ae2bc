//! How a pass comes by the cells of keys.
//!
//! 1. Cells are taken in the order of their fence keys: the least key that no cell in hand covers comes next.
//! 2. A hint names the cell. All that are named are read before the first is taken, so that these reads wait for memory
//!    together. Once a cell is held its fence keys tell whether it is the key's. Where it isn't, hints are told what the
//!    blocks of its leaf spell, and where that is no news the index is asked, with no cell in hand.
//! 3. Hints may lag behind, and then two passes may want each other's cells. So a pass that holds a cell looks at the
//!    next one a number of times, and gives all back where that stays busy.

ghost use Rattle.std.specs.Prelude.{◌≡◌, ◌<◌, ◌≤◌, ◌+◌, [], ◌∷◌, length, true, false};
ghost use Rattle.row_writes.specs.Held.{AreHeld};
ghost use Rattle.store_rule.specs.RuleModel.Sight.{cells_of};
ghost use Rattle.store_rule.specs.Slots.{IsCellSlot};
ghost use Rattle.pass_cells.specs.Holding.{HasTaken, Holds, HoldsNone, IsGathered, KeepsPass};
ghost use Rattle.pass_cells.specs.Taken.{held_rows};

use crate::latch::{give_place, take_next_place, take_place};
use crate::own::PassCells;
use crate::taken::TakenCell;
use graph_model::Key;
use latch_table::Held;
use row_writes::below::VersionSegment;
use std::sync::Wait;
use store_rule::{Pass, Store, StoreSlot};

impl PassCells {
    /// Takes the cells of these keys, four at most, each once. They are gathered and unpacked then. Takes no memory. It
    /// waits until it has all of them, and for a key that no cell covers without end.
    pub fn take(&mut self, rt: &impl Wait, store: &Store, pass: &mut Pass, keys: &[Key])
        requires none { HoldsNone store.now pass.old × (self.old.taken.list.items ≡ []) }
        requires few { length keys.now ≤ 4 }
        ensures holds { Holds store.now pass.new self.new.taken.list.items }
        ensures held { AreHeld (held_rows self.new.taken.list.items) keys.now }
        ensures kept { KeepsPass pass.old pass.new }
    {
        self.hints.survey(store);
        // Hints first: the index is one latch for all passes, and asking it at each write would have them wait for each
        // other.
        let mut guesses = self.hints.of_all(store, keys);
        // All cells are read ahead before the first latch is taken: under it the others would wait for this pass to
        // wait for memory.
        let (likely, _) = guesses.split_at(keys.len().min(4));
        self.hints.read_ahead(store, likely);
        'tries: for _ in rt.forever() {
            if self.take_guessed(rt, store, pass, keys, &guesses) {
                return;
            }
            // Rows have moved within a leaf most often, as its blocks tell with no latch.
            let again = self.hints.of_all_again(store, keys);
            guesses = if again == guesses {
                self.ask(rt, store, pass, keys)
            } else {
                again
            };
        }
        unreachable!()
    }

    /// Takes the cells that were guessed. Where one isn't its key's, or stays busy, all are given back.
    fn take_guessed(
        &mut self,
        rt: &impl Wait,
        store: &Store,
        pass: &mut Pass,
        keys: &[Key],
        guesses: &[u32; 4],
    ) -> bool
        requires none { HoldsNone store.now pass.old × (self.old.taken.list.items ≡ []) }
        requires few { length keys.now ≤ 4 }
        ensures held { result ≡ true → Holds store.now pass.new self.new.taken.list.items
            × AreHeld (held_rows self.new.taken.list.items) keys.now }
        ensures none { result ≡ false → HoldsNone store.now pass.new × (self.new.taken.list.items ≡ []) }
        ensures kept { KeepsPass pass.old pass.new }
    {
        'keys: for _round in 0..keys.len() {
            // One cell often covers several of the keys, so after each cell it is looked which keys are left.
            let Some(place) = self.taken.least_missing(keys) else {
                return true;
            };
            // All go back, and not this one alone: the next guess may be a cell before those in hand, and would break
            // the order.
            if !self.take_next(rt, store, pass, keys[place], guesses[place]) {
                self.put_back(store, pass);
                return false;
            }
        }
        if self.taken.least_missing(keys).is_none() {
            return true;
        }
        self.put_back(store, pass);
        false
    }

    /// Takes a cell, and answers whether it is the key's and stands after those that were taken before. One that isn't
    /// may have been taken too: the caller gives it back with the others.
    fn take_next(
        &mut self,
        rt: &impl Wait,
        store: &Store,
        pass: &mut Pass,
        key: Key,
        cell: u32,
    ) -> bool
        requires holds { Holds store.now pass.old self.old.taken.list.items }
        requires few { length self.old.taken.list.items < 4 }
        ensures taken { HasTaken store.now pass.new self.new.taken.list.items }
        ensures next { result ≡ true → Holds store.now pass.new self.new.taken.list.items }
        ensures more { length self.new.taken.list.items ≤ length self.old.taken.list.items + 1 }
        ensures kept { KeepsPass pass.old pass.new }
    {
        // A guess may be anything. The places from there on are the index and the journal, and no cells.
        if cell >= store.index_place() {
            return false;
        }
        // A cell in hand that doesn't cover the key was named again: to wait for it would be to wait for oneself.
        if self.taken.is_taken(cell) {
            return false;
        }
        let end = self.taken.end();
        let holds_none = self.taken.list.is_empty();
        let Some(held) = take_next_place(rt, store, &mut pass.latch, cell, holds_none) else {
            return false;
        };
        // Its fence keys tell whether it is the key's only now, under its latch, when nobody can move its rows.
        let held = gather(store, pass, held);
        let rows = held.value.len();
        let taken = TakenCell {
            held,
            rows,
            words_changed: false,
        };
        let is_next = taken.follows(key, end);
        self.taken.add(taken);
        is_next
    }

    /// Asks the index for the cells of keys, and notes what it tells of their leaves.
    fn ask(&mut self, rt: &impl Wait, store: &Store, pass: &mut Pass, keys: &[Key]) -> [u32; 4]
        requires none { HoldsNone store.now pass.old }
        ensures none { HoldsNone store.now pass.new }
        ensures taken { self.new.taken.list.items ≡ self.old.taken.list.items }
        ensures kept { KeepsPass pass.old pass.new }
    {
        // With no cell in hand, so the wait may be without end.
        let held = take_place(rt, store, &mut pass.latch, store.index_place());
        let held = store.gather_index(pass, held);
        let guesses = self.hints.learn(&held.value, keys);
        let held = store.lay_index(pass, held);
        give_place(store, &mut pass.latch, held);
        guesses
    }
}

/// Takes in the note of a cell that was taken, and unpacks it.
pub fn gather(store: &Store, pass: &mut Pass, held: Held<StoreSlot>) -> Held<VersionSegment>
    requires table { pass.old.account.table_id ≡ store.now.accounts.table.shared.table_id }
    requires inside { held.cell < cells_of store.now.accounts.config }
    requires slot { IsCellSlot store.now.accounts.table.shared.table_id held.cell held.value }
    requires unchanged { held.changed ≡ false }
    requires buffer { 0 < pass.old.buffers }
    ensures held { (result.cell ≡ held.cell) × (result.changed ≡ false) }
    ensures gathered { IsGathered store.now.accounts.config pass.old pass.new result }
{
    let held = store.gather_cell(pass, held);
    store.unpack(pass, held)
}
