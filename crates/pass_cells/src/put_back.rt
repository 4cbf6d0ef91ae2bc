//! How a pass gives its cells back.
//!
//! 1. A cell is packed before it is given back, so that whoever reads its words finds its rows in them. It takes no
//!    memory: room for heads and records was made before the write.
//! 2. A cell of which no word changed keeps its version, so reads that are under way there stay valid.

ghost use Rattle.std.specs.Prelude.{◌≡◌, ◌≤◌, ◌++◌, ◌∷◌, [], length, ◌<◌};
ghost use Rattle.std.specs.Vec.{vec_capacity};
ghost use Rattle.pass_cells.specs.Holding.{HasTaken, HoldsNone, IsPutting, KeepsPass};

use crate::latch::give_places;
use crate::own::PassCells;
use crate::taken::{TakenCell, TakenCells};
use latch_table::{Held, Laid};
use store_rule::{Pass, Store, StoreSlot};

impl PassCells {
    /// Packs all cells in hand, puts each back, and then releases each. A cell of which no word changed keeps its
    /// version. Takes no memory.
    pub fn put_back(&mut self, store: &Store, pass: &mut Pass)
        requires taken { HasTaken store.now pass.old self.old.taken.list.items }
        ensures none { HoldsNone store.now pass.new × (self.new.taken.list.items ≡ []) }
        ensures kept { KeepsPass pass.old pass.new }
    {
        pack_all(store, pass, &mut self.taken, &mut self.packed);
        give_places(store, &mut pass.latch, &mut self.packed, &mut self.laid);
    }
}

/// Packs each cell, and lays a note for it.
fn pack_all(
    store: &Store,
    pass: &mut Pass,
    taken: &mut TakenCells,
    packed: &mut Vec<Held<StoreSlot>>,
)
    requires taken { HasTaken store.now pass.old taken.old.list.items }
    requires room { (packed.old.items ≡ []) × (4 ≤ vec_capacity packed.old) }
    ensures packed { IsPutting store.now pass.old pass.new taken.old.list.items [] packed.new.items }
    ensures none { taken.new.list.items ≡ [] }
    ensures capacity { (vec_capacity taken.old.list ≤ vec_capacity taken.new.list)
        × (vec_capacity packed.old ≤ vec_capacity packed.new) }
{
    'cells: while !taken.list.is_empty() {
        let TakenCell {
            held,
            rows: _,
            words_changed,
        } = taken.list.remove(0);
        // Words before the note: the note that is laid says what the block spells.
        let held = store.pack(pass, held, words_changed);
        let held = store.lay_cell(pass, held);
        match packed.push(held) {
            Ok(()) => {}
            Err(_) => unreachable!(),
        }
    }
}
