//! Rows that move in leaves in hand, and what is told of it.
//!
//! 1. What a turn has done is a value that is made while the leaves are in hand: afterwards others may change them at
//!    once.

ghost use Rattle.std.specs.Prelude.{◌≡◌, ◌≤◌, [], ◌∷◌, IfOk};
ghost use Rattle.std.specs.Vec.{vec_capacity};
ghost use Rattle.pass_moves.specs.LeafArray.Segments.{counts_of};
ghost use Rattle.pass_moves.specs.LeafStore.Merging.{IsLeftmostWindow};
ghost use Rattle.pass_moves.specs.LeafStore.Pairs.{Stands};
ghost use Rattle.pass_moves.specs.PassCells.Holding.{HoldsNone, KeepsPass};
ghost use Rattle.pass_moves.specs.PassLeaves.Fit.{TellsFit};
ghost use Rattle.pass_moves.specs.PassLeaves.Hand.{HoldsLeaves};
ghost use Rattle.pass_moves.specs.Moving.{values_of};
ghost use Rattle.pass_merges.specs.Turns.{IsPairTurn, IsTurnOf};

use crate::pair::{LeafPair, merge_pair};
use crate::sparse::rows_in;
use crate::turn::{LeavesMerged, MergeTurn, WindowSpread};
use crate::work::stand_together;
use density_tree::Window;
use graph_model::{Key, NoMemory};
use pass_moves::below::{
    CellHints, HeldIndex, Leaf, MERGE_ROWS, Pass, PassLeaves, Store, TakenCell,
};
use pass_moves::spread_window;
use std::alloc::Global;
use std::sync::Wait;

/// Spreads the first sparse window of a leaf in hand.
pub(crate) fn spread_in_hand(
    store: &Store,
    pass: &mut Pass,
    cells: &mut Vec<TakenCell>,
    index: &mut HeldIndex,
    leaf: u32,
    window: Window,
    space: &mut Leaf,
    alloc: Global,
) -> Result<MergeTurn, NoMemory>
    requires holds { HoldsLeaves store.now pass.old (leaf ∷ []) cells.old.items index.old }
    requires stands { Stands index.old.value.value.entries leaf }
    requires fit { TellsFit store.now.accounts.config pass.old.account.me.0 }
    requires window { IsLeftmostWindow (counts_of (values_of cells.old.items)) window }
    ensures holds { HoldsLeaves store.now pass.new (leaf ∷ []) cells.new.items index.new }
    ensures turn { IfOk result (IsTurnOf leaf) }
    ensures kept { KeepsPass pass.old pass.new }
    ensures capacity { vec_capacity cells.old ≤ vec_capacity cells.new }
{
    spread_leaf(
        store,
        pass,
        cells.as_mut_slice(),
        index,
        leaf,
        window,
        space,
        alloc,
    )
}

/// The same of a list of cells.
fn spread_leaf(
    store: &Store,
    pass: &mut Pass,
    cells: &mut [TakenCell],
    index: &mut HeldIndex,
    leaf: u32,
    window: Window,
    space: &mut Leaf,
    alloc: Global,
) -> Result<MergeTurn, NoMemory>
    requires holds { HoldsLeaves store.now pass.old (leaf ∷ []) cells.old index.old }
    requires stands { Stands index.old.value.value.entries leaf }
    requires fit { TellsFit store.now.accounts.config pass.old.account.me.0 }
    requires window { IsLeftmostWindow (counts_of (values_of cells.old)) window }
    ensures holds { HoldsLeaves store.now pass.new (leaf ∷ []) cells.new index.new }
    ensures turn { IfOk result (IsTurnOf leaf) }
    ensures kept { KeepsPass pass.old pass.new }
{
    spread_window(store, pass, cells, index, window, space, alloc)?;
    let spread = WindowSpread::of(store, pass, cells, index, leaf, window);
    Ok(MergeTurn::Spread(spread))
}

/// Makes one leaf of two, if they are in hand at the first try, and still neighbours with few rows.
pub(crate) fn merge_with(
    rt: &impl Wait,
    store: &Store,
    pass: &mut Pass,
    leaves: &mut PassLeaves,
    space: &mut Leaf,
    hints: &mut CellHints,
    key: Key,
    pair: LeafPair,
    alloc: Global,
) -> Result<MergeTurn, NoMemory>
    requires none { HoldsNone store.now pass.old × (leaves.old.cells.items ≡ []) }
    ensures none { HoldsNone store.now pass.new × (leaves.new.cells.items ≡ []) }
    ensures turn { IfOk result (IsPairTurn pair) }
    ensures kept { KeepsPass pass.old pass.new }
{
    let both = [pair.left, pair.right];
    match leaves.take_leaves(rt, store, pass, hints, key, &both) {
        Ok(mut index) => {
            let cells = &mut leaves.cells;
            let turn = merge_in_hand(store, pass, cells, &mut index, key, pair, space, alloc);
            leaves.put_back(store, pass, index);
            turn
        }
        // One try alone: merging can wait for another turn, and nobody waits for it.
        Err(_next) => Ok(MergeTurn::Nothing),
    }
}

/// Makes one leaf of two in hand, if they are neighbours with few rows.
fn merge_in_hand(
    store: &Store,
    pass: &mut Pass,
    cells: &mut Vec<TakenCell>,
    index: &mut HeldIndex,
    key: Key,
    pair: LeafPair,
    space: &mut Leaf,
    alloc: Global,
) -> Result<MergeTurn, NoMemory>
    requires holds { HoldsLeaves store.now pass.old (pair.left ∷ pair.right ∷ []) cells.old.items index.old }
    requires fit { TellsFit store.now.accounts.config pass.old.account.me.0 }
    ensures holds { HoldsLeaves store.now pass.new (pair.left ∷ pair.right ∷ []) cells.new.items index.new }
    ensures turn { IfOk result (IsPairTurn pair) }
    ensures kept { KeepsPass pass.old pass.new }
    ensures capacity { vec_capacity cells.old ≤ vec_capacity cells.new }
{
    merge_both(
        store,
        pass,
        cells.as_mut_slice(),
        index,
        key,
        pair,
        space,
        alloc,
    )
}

/// The same of a list of cells.
fn merge_both(
    store: &Store,
    pass: &mut Pass,
    cells: &mut [TakenCell],
    index: &mut HeldIndex,
    key: Key,
    pair: LeafPair,
    space: &mut Leaf,
    alloc: Global,
) -> Result<MergeTurn, NoMemory>
    requires holds { HoldsLeaves store.now pass.old (pair.left ∷ pair.right ∷ []) cells.old index.old }
    requires fit { TellsFit store.now.accounts.config pass.old.account.me.0 }
    ensures holds { HoldsLeaves store.now pass.new (pair.left ∷ pair.right ∷ []) cells.new index.new }
    ensures turn { IfOk result (IsPairTurn pair) }
    ensures kept { KeepsPass pass.old pass.new }
{
    if rows_in(cells) > MERGE_ROWS || !stand_together(&index.value, key, pair) {
        return Ok(MergeTurn::Nothing);
    }
    merge_pair(store, pass, cells, index, pair, space, alloc)?;
    let merged = LeavesMerged::of(store, pass, cells, index, pair);
    Ok(MergeTurn::Merged(merged))
}
