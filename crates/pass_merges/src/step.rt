//! A turn of merging: the next leaf in the order of keys.
//!
//! 1. One leaf a turn, so a turn is short.
//! 2. It takes places as any call does, and gives all back where one stays busy: transactions come first.

ghost use Rattle.std.specs.Prelude.{◌≡◌, ℕ, [], IfOk};
ghost use Rattle.graph_model.specs.Rows.{first_key};
ghost use Rattle.pass_moves.specs.PassCells.Holding.{KeepsPass};
ghost use Rattle.pass_moves.specs.PassCells.Holding as holding;
ghost use Rattle.pass_sweeps.specs.PassSteps.Passes.{HoldsNone, IsPassOf};
ghost use Rattle.pass_sweeps.specs.Stepping.{ChoosesLeaf};
ghost use Rattle.pass_merges.specs.Turns.{IsTurnOf};

use crate::hand::{merge_with, spread_in_hand};
use crate::pair::LeafPair;
use crate::turn::MergeTurn;
use crate::work::{MergeWork, find_work};
use graph_model::{Key, NoMemory};
use pass_moves::below::{CellHints, Leaf, LeafInHand, Pass, PassLeaves, Store};
use pass_sweeps::key_after;
use std::alloc::Global;
use std::sync::Wait;

/// Where a pass's next turn of merging begins. Between two turns leaves may come and go: the leaf whose range holds the
/// key is the next one then.
#[derive(Clone, Copy, Debug, Drop, PartialEq, Eq)]
pub struct MergeKey {
    /// The leaf that has this key is the next one.
    pub next: Key,
}

impl MergeKey {
    /// The first leaf comes next.
    pub fn first() -> MergeKey
        ensures { result.next ≡ first_key }
    {
        MergeKey {
            next: Key { src: 0, second: 0 },
        }
    }
}

/// Spreads the first window of the next leaf that has a cell with too few rows and enough rows in all. Where it has
/// none, makes one leaf of it and the one after it if both have few rows, unless that one stays busy. The leaf after
/// comes next. No leaf is in hand before and after, and rows move in the space that is lent. May wait, and takes memory
/// before anything moves.
pub fn merge_step(
    rt: &impl Wait,
    store: &Store,
    pass: &mut Pass,
    leaves: &mut PassLeaves,
    space: &mut Leaf,
    hints: &mut CellHints,
    key: &mut MergeKey,
    alloc: Global,
) -> Result<MergeTurn, NoMemory>
    requires pass { IsPassOf store.now pass.old }
    requires none { HoldsNone pass.old }
    requires cells { leaves.old.cells.items ≡ [] }
    ensures pass { IsPassOf store.now pass.new }
    ensures none { HoldsNone pass.new }
    ensures cells { leaves.new.cells.items ≡ [] }
    ensures kept { KeepsPass pass.old pass.new }
    ensures chosen { (leaf : ℕ) × ChoosesLeaf key.old.next key.new.next leaf × IfOk result (IsTurnOf leaf) }
{
    take_turn(rt, store, pass, leaves, space, hints, key, alloc)
}

/// The same in the words of cells.
fn take_turn(
    rt: &impl Wait,
    store: &Store,
    pass: &mut Pass,
    leaves: &mut PassLeaves,
    space: &mut Leaf,
    hints: &mut CellHints,
    key: &mut MergeKey,
    alloc: Global,
) -> Result<MergeTurn, NoMemory>
    requires none { holding.HoldsNone store.now pass.old × (leaves.old.cells.items ≡ []) }
    ensures none { holding.HoldsNone store.now pass.new × (leaves.new.cells.items ≡ []) }
    ensures kept { KeepsPass pass.old pass.new }
    ensures chosen { (leaf : ℕ) × ChoosesLeaf key.old.next key.new.next leaf × IfOk result (IsTurnOf leaf) }
{
    let LeafInHand { leaf, mut index } = leaves.take(rt, store, pass, hints, key.next);
    let range = index.value.leaf_at(key.next);
    let work = find_work(leaves.cells.as_slice(), &index.value, range);
    // The key goes on whatever comes of this leaf, so one leaf that stays busy or full doesn't hold up the others.
    key.next = key_after(range.high);
    match work {
        MergeWork::Spread(window) => {
            let cells = &mut leaves.cells;
            let turn = spread_in_hand(store, pass, cells, &mut index, leaf, window, space, alloc);
            leaves.put_back(store, pass, index);
            turn
        }
        // The right leaf's cells come before the index in the order, which is in hand: so all goes back first.
        MergeWork::Look(right) => {
            leaves.put_back(store, pass, index);
            let pair = LeafPair { left: leaf, right };
            let low = range.low;
            merge_with(rt, store, pass, leaves, space, hints, low, pair, alloc)
        }
        MergeWork::Nothing => {
            leaves.put_back(store, pass, index);
            Ok(MergeTurn::Nothing)
        }
    }
}
