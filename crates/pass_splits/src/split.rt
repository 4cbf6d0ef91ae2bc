//! The leaf in hand is split into a free one in hand.
//!
//! 1. Both leaves were chosen while nothing was in hand, so they are looked at again here before anything moves.

ghost use Rattle.std.specs.Prelude.{◌≡◌, ◌≤◌, ℕ, true, [], ◌∷◌, take, List, Some, IfOk, OnErr, OnOk};
ghost use Rattle.graph_model.specs.Rows.{is_below, end_key};
ghost use Rattle.pass_moves.specs.LeafArray.Segments.{AreSame};
ghost use Rattle.pass_moves.specs.PassCells.Holding.{KeepsPass};
ghost use Rattle.pass_moves.specs.PassLeaves.Fit.{TellsFit};
ghost use Rattle.pass_moves.specs.PassLeaves.Hand.{HoldsLeaves, IsLeafOfKey};
ghost use Rattle.pass_moves.specs.Moving.{values_of};
ghost use Rattle.pass_moves.specs.Room.{HasRoom, IsCrowdedAt};
ghost use Rattle.pass_splits.specs.Splitting.{IsNextFree, IsSplit, KeepsIndex};

use crate::free::is_next_free;
use crate::rows::split_next;
use graph_model::{Key, LEAF_SEGMENTS, NoMemory};
use pass_moves::below::{HeldIndex, Leaf, Pass, Store, TakenCell};
use pass_moves::{Moving, count_rows, is_crowded};
use std::alloc::Global;

/// Whether the leaf was split.
#[derive(Clone, Copy, Debug, PartialEq, Eq)]
pub enum Split {
    /// It was.
    Done,
    /// The leaf isn't crowded for the key, or another leaf is the next free one: whoever asks looks again.
    Other,
}

/// Splits the key's leaf in hand into the other leaf in hand, where no window has room for the rows needed and that
/// leaf is the next free one. Else nothing changes.
pub fn split_free(
    store: &Store,
    pass: &mut Pass,
    cells: &mut [TakenCell],
    index: &mut HeldIndex,
    key: Key,
    need: u8,
    other: u32,
    space: &mut Leaf,
    alloc: Global,
) -> Result<Split, NoMemory>
    requires holds { (leaf : ℕ) × HoldsLeaves store.now pass.old (leaf ∷ other ∷ []) cells.old index.old
        × IsLeafOfKey key index.old.value.value leaf }
    requires fit { TellsFit store.now.accounts.config pass.old.account.me.0 }
    requires below { is_below key end_key ≡ true }
    requires some { 1 ≤ need }
    requires few { need ≤ 2 }
    ensures room { IfOk result (λ split. IsSplit key need (values_of cells.new) split) }
    ensures holds { (leaves : List ℕ) → HoldsLeaves store.now pass.old leaves cells.old index.old
        → HoldsLeaves store.now pass.new leaves cells.new index.new }
    ensures err { OnErr result ((pass.new ≡ pass.old) × KeepsIndex index.old index.new
        × AreSame (values_of cells.old) (values_of cells.new)) }
    ensures kept { KeepsPass pass.old pass.new }
{
    let (left, _) = cells.split_at(LEAF_SEGMENTS);
    if !is_crowded(store, pass, left, index, key, need) {
        // Between the look by which the caller chose both leaves and this one all latches were released, so somebody
        // may have made room meanwhile.
        return Ok(Split::Other);
    }
    if !is_next_free(&mut index.value, other) {
        return Ok(Split::Other);
    }
    split_crowded(store, pass, cells, index, key, need, other, space, alloc)?;
    Ok(Split::Done)
}

/// The same of a crowded leaf and the next free one.
fn split_crowded(
    store: &Store,
    pass: &mut Pass,
    cells: &mut [TakenCell],
    index: &mut HeldIndex,
    key: Key,
    need: u8,
    other: u32,
    space: &mut Leaf,
    alloc: Global,
) -> Result<(), NoMemory>
    requires holds { (leaf : ℕ) × HoldsLeaves store.now pass.old (leaf ∷ other ∷ []) cells.old index.old
        × IsCrowdedAt key need index.old.value.value leaf (values_of (take 8 cells.old)) }
    requires fit { TellsFit store.now.accounts.config pass.old.account.me.0 }
    requires next { IsNextFree index.old.value.value (Some other) }
    requires below { is_below key end_key ≡ true }
    requires few { need ≤ 2 }
    ensures room { OnOk result (HasRoom key need (values_of cells.new)) }
    ensures holds { (leaves : List ℕ) → HoldsLeaves store.now pass.old leaves cells.old index.old
        → HoldsLeaves store.now pass.new leaves cells.new index.new }
    ensures err { OnErr result ((pass.new ≡ pass.old) × KeepsIndex index.old index.new
        × AreSame (values_of cells.old) (values_of cells.new)) }
    ensures kept { KeepsPass pass.old pass.new }
{
    let (left, right) = cells.split_at_mut(LEAF_SEGMENTS);
    split_next(left, right, &mut index.value, space, other, alloc)?;
    index.changed = true;
    index.value.is_index();
    let planned = Moving {
        index: &index.value,
        cells,
    };
    store.change(pass, &planned);
    count_rows(cells);
    Ok(())
}
