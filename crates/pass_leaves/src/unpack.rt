//! Cells that are taken in and unpacked, and packed again.
//!
//! 1. To unpack takes none of the cell's memory and none anew: a pass has room for the rows of two leaves.

ghost use Rattle.std.specs.Prelude.{◌≡◌, ◌≤◌, [], true, length};
ghost use Rattle.std.specs.Vec.{vec_capacity};
ghost use Rattle.latch_table.specs.Latched.{is_once};
ghost use Rattle.pass_cells.specs.StoreRuleDeclared.buffers.TheConstants.{MOST_UNPACKED};
ghost use Rattle.pass_cells.specs.Holding.{IsPutting};
ghost use Rattle.pass_leaves.specs.Hand.{AreCellsHeld, IsUnpacking, numbers_held};

use latch_table::Held;
use pass_cells::below::{Pass, Store, StoreSlot};
use pass_cells::{TakenCell, gather};

/// Takes in the notes of all cells, and unpacks them.
pub fn unpack_all(
    store: &Store,
    pass: &mut Pass,
    packed: &mut Vec<Held<StoreSlot>>,
    cells: &mut Vec<TakenCell>,
)
    requires table { pass.old.account.table_id ≡ store.now.accounts.table.shared.table_id }
    requires held { AreCellsHeld store.now packed.old.items }
    requires once { is_once (numbers_held packed.old.items) ≡ true }
    requires few { length packed.old.items ≤ 16 }
    requires none { (cells.old.items ≡ []) × (pass.old.account.me.0.cells ≡ []) }
    requires buffers { pass.old.buffers ≡ MOST_UNPACKED }
    requires room { 16 ≤ vec_capacity cells.old }
    ensures unpacked { IsUnpacking store.now pass.old pass.new packed.old.items [] cells.new.items }
    ensures none { packed.new.items ≡ [] }
    ensures capacity { (vec_capacity packed.old ≤ vec_capacity packed.new)
        × (vec_capacity cells.old ≤ vec_capacity cells.new) }
{
    'places: while !packed.is_empty() {
        let held = packed.remove(0);
        let held = gather(store, pass, held);
        let rows = held.value.len();
        match cells.push(TakenCell {
            held,
            rows,
            words_changed: false,
        }) {
            Ok(()) => {}
            Err(_) => unreachable!(),
        }
    }
}

/// Packs each cell, and lays a note for it.
pub fn pack_all(
    store: &Store,
    pass: &mut Pass,
    cells: &mut Vec<TakenCell>,
    packed: &mut Vec<Held<StoreSlot>>,
)
    requires putting { IsPutting store.now pass.old pass.old cells.old.items cells.old.items [] }
    requires none { packed.old.items ≡ [] }
    requires few { length cells.old.items ≤ 16 }
    requires room { 17 ≤ vec_capacity packed.old }
    ensures packed { IsPutting store.now pass.old pass.new cells.old.items [] packed.new.items }
    ensures none { cells.new.items ≡ [] }
    ensures few { length packed.new.items ≤ 16 }
    ensures capacity { (vec_capacity cells.old ≤ vec_capacity cells.new)
        × (vec_capacity packed.old ≤ vec_capacity packed.new) }
{
    'places: while !cells.is_empty() {
        let TakenCell {
            held,
            rows: _,
            words_changed,
        } = cells.remove(0);
        let held = store.pack(pass, held, words_changed);
        let held = store.lay_cell(pass, held);
        match packed.push(held) {
            Ok(()) => {}
            Err(_) => unreachable!(),
        }
    }
}
