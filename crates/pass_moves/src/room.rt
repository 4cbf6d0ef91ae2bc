//! Places for rows in the leaf in hand.
//!
//! 1. Counts are looked at under the latches, so what is found holds until they are released.

ghost use Rattle.std.specs.Prelude.{◌≡◌, ◌≤◌, ℕ, true, [], ◌∷◌, length, IfOk, OnErr};
ghost use Rattle.graph_model.specs.Rows.{is_below, end_key};
ghost use Rattle.pass_leaves.specs.LeafArray.Segments.{AreSame, counts_of};
ghost use Rattle.pass_leaves.specs.PassCells.Holding.{KeepsPass};
ghost use Rattle.pass_leaves.specs.Fit.{TellsFit};
ghost use Rattle.pass_leaves.specs.Hand.{HoldsLeaves, IsLeafOfKey};
ghost use Rattle.pass_moves.specs.Moving.{values_of};
ghost use Rattle.pass_moves.specs.Room.{IsCrowdedAt, IsRoom, KnowsLeaf};

use crate::spread::spread_window;
use graph_model::{Key, LEAF_SEGMENTS, NoMemory};
use pass_leaves::HeldIndex;
use pass_leaves::below::{Leaf, Pass, Store, TakenCell};
use room_choice::{RoomChoice, choose_room};
use std::alloc::Global;

/// Whether a key's cell has the free places that were asked for.
#[derive(Clone, Copy, Debug, PartialEq, Eq)]
pub enum CellRoom {
    /// It has them.
    Free,
    /// No window of the leaf has room for the rows needed.
    Crowded,
}

/// Has so many places be free in the cell in hand that covers the key: where they aren't yet, spreads the smallest
/// window of the leaf that has room for the rows needed. A crowded leaf stays as it is.
pub fn free_places(
    store: &Store,
    pass: &mut Pass,
    cells: &mut [TakenCell],
    index: &mut HeldIndex,
    key: Key,
    need: u8,
    space: &mut Leaf,
    alloc: Global,
) -> Result<CellRoom, NoMemory>
    requires holds { (leaf : ℕ) × HoldsLeaves store.now pass.old (leaf ∷ []) cells.old index.old
        × IsLeafOfKey key index.old.value.value leaf }
    requires fit { TellsFit store.now.accounts.config pass.old.account.me.0 }
    requires below { is_below key end_key ≡ true }
    requires some { 1 ≤ need }
    requires few { need ≤ 2 }
    ensures room { (leaf : ℕ) → IsLeafOfKey key index.old.value.value leaf
        → IfOk result (λ room. IsRoom key need index.new.value.value leaf (values_of cells.new) room) }
    ensures holds { (leaf : ℕ) → HoldsLeaves store.now pass.old (leaf ∷ []) cells.old index.old
        → HoldsLeaves store.now pass.new (leaf ∷ []) cells.new index.new }
    ensures fit { TellsFit store.now.accounts.config pass.new.account.me.0 }
    ensures err { OnErr result ((pass.new ≡ pass.old) × (index.new ≡ index.old)
        × AreSame (values_of cells.old) (values_of cells.new)) }
    ensures kept { KeepsPass pass.old pass.new }
{
    let counts = counts_in(cells);
    let route = index.value.route(key);
    let segment = (route.cell % 8) as usize;
    // As if a leaf were free: whether one is, is asked by whoever splits.
    match choose_room(counts, segment, need, 1) {
        RoomChoice::Enough => Ok(CellRoom::Free),
        RoomChoice::Spread { window } => {
            spread_window(store, pass, cells, index, window, space, alloc)?;
            Ok(CellRoom::Free)
        }
        // A split needs a free leaf, whose cells may come before those in hand in the order.
        RoomChoice::Split => Ok(CellRoom::Crowded),
        RoomChoice::Full => unreachable!(),
    }
}

/// Whether the leaf in hand is crowded for the key.
pub fn is_crowded(
    store: &Store,
    pass: &Pass,
    cells: &[TakenCell],
    index: &HeldIndex,
    key: Key,
    need: u8,
) -> bool
    requires knows { (leaf : ℕ)
        × KnowsLeaf store.now.accounts.config pass.now.account.me.0 leaf cells.now index.now
        × IsLeafOfKey key index.now.value.value leaf }
    requires fit { TellsFit store.now.accounts.config pass.now.account.me.0 }
    requires below { is_below key end_key ≡ true }
    requires some { 1 ≤ need }
    requires few { need ≤ 2 }
    ensures { (leaf : ℕ) → KnowsLeaf store.now.accounts.config pass.now.account.me.0 leaf cells.now index.now
        → IsLeafOfKey key index.now.value.value leaf
        → result ≡ true → IsCrowdedAt key need index.now.value.value leaf (values_of cells.now) }
{
    let counts = counts_in(cells);
    let route = index.value.route(key);
    let segment = (route.cell % 8) as usize;
    match choose_room(counts, segment, need, 1) {
        RoomChoice::Split => true,
        _ => false,
    }
}

/// How many rows each cell of a leaf has.
pub fn counts_in(cells: &[TakenCell]) -> [u8; LEAF_SEGMENTS]
    requires { length cells.now ≡ 8 }
    ensures { result ≡ counts_of (values_of cells.now) }
{
    let [first, second, third, fourth, fifth, sixth, seventh, eighth] = cells else {
        unreachable!()
    };
    [
        count(first),
        count(second),
        count(third),
        count(fourth),
        count(fifth),
        count(sixth),
        count(seventh),
        count(eighth),
    ]
}

/// How many rows a cell has.
fn count(cell: &TakenCell) -> u8
    ensures { result ≡ length cell.now.held.value.rows }
{
    cell.held.value.len() as u8
}
