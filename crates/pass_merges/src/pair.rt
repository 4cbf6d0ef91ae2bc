//! Two leaves in hand that become one.
//!
//! 1. Rows move in memory that is lent, so a merge takes none but for records; where that is refused nothing has moved.
//! 2. The right leaf is retired with the clock that is loaded while its cells and the index are in hand: no pass that
//!    might still look into it began later.

ghost use Rattle.std.specs.Prelude.{◌≡◌, ◌≤◌, ◌<◌, ◌*◌, [], ◌∷◌, take, drop, length, IfOk, OnErr, OnOk};
ghost use Rattle.pass_moves.specs.LeafArray.Segments.{AreSame, rows_of};
ghost use Rattle.leaf_index.specs.Index.{IsIndex, IsTaken};
ghost use Rattle.pass_moves.specs.LeafStoreDeclared.pair.TheConstants.{MERGE_ROWS, STAMPS_END};
ghost use Rattle.pass_moves.specs.PassCells.Holding.{KeepsPass};
ghost use Rattle.pass_moves.specs.PassLeaves.Fit.{TellsFit};
ghost use Rattle.pass_moves.specs.PassLeaves.Hand.{HoldsLeaves};
ghost use Rattle.pass_moves.specs.Moving.{values_of};
ghost use Rattle.pass_moves.specs.Spreading.{KeepsContents};
ghost use Rattle.pass_merges.specs.Merging.{MayMerge, MergesCells, MergesInHand};
ghost use Rattle.pass_merges.specs.Pairs.{MayJoin, StandTogether, in_one};

use crate::retiring::Retiring;
use graph_model::{Key, LEAF_SEGMENTS, NoMemory};
use leaf_index::LeafIndex;
use pass_moves::below::{HeldIndex, Leaf, Pass, Store, TakenCell, cuts_of, merge_leaves};
use pass_moves::{count_rows, exchange, mark};
use std::alloc::Global;

/// Two neighbours by their numbers.
#[derive(Clone, Copy, Debug, PartialEq, Eq)]
pub struct LeafPair {
    /// The number of the one that gets all rows.
    pub left: u32,
    /// The number of the one that is retired.
    pub right: u32,
}

/// Makes one leaf of two neighbours in hand with few rows, and has the pass's view know it. The left one has all rows
/// and the range of both then; the right one is retired with the clock that is loaded for it. The rows move in the
/// space that is lent, which has none before and after, and in one more. Where memory is refused only room for records
/// has changed.
pub fn merge_pair(
    store: &Store,
    pass: &mut Pass,
    cells: &mut [TakenCell],
    index: &mut HeldIndex,
    pair: LeafPair,
    space: &mut Leaf,
    alloc: Global,
) -> Result<(), NoMemory>
    requires holds { HoldsLeaves store.now pass.old (pair.left ∷ pair.right ∷ []) cells.old index.old }
    requires together { StandTogether pair index.old.value.value.entries }
    requires fit { TellsFit store.now.accounts.config pass.old.account.me.0 }
    requires few { length (rows_of (values_of cells.old)) ≤ MERGE_ROWS }
    ensures holds { HoldsLeaves store.now pass.new (pair.left ∷ pair.right ∷ []) cells.new index.new }
    ensures merged { OnOk result (MergesInHand pair (values_of cells.old) (values_of cells.new)
        index.old.value.value index.new.value.value) }
    ensures err { OnErr result ((pass.new ≡ pass.old) × (index.new ≡ index.old)
        × AreSame (values_of cells.old) (values_of cells.new)) }
    ensures kept { KeepsPass pass.old pass.new }
{
    // Where the right leaf begins is read before its rows go: its entry is found by that key.
    let cut = low_of(&cells[LEAF_SEGMENTS]);
    let cuts = merge_cells(cells, space, alloc)?;
    index.changed = true;
    join_entries(&mut index.value, pair, cut, cuts);
    stamps_suffice(store);
    let planned = Retiring {
        index: &index.value,
        cells,
        leaf: pair.right,
    };
    // The number that is loaded is the stamp: loaded after the rows have left and before a latch is released, so no
    // transaction that begins later can have noted the leaf.
    let stamp = store.change(pass, &planned);
    index.value.retire(pair.right, stamp);
    count_rows(cells);
    Ok(())
}

/// Where a cell begins.
fn low_of(cell: &TakenCell) -> Key
    ensures { result ≡ cell.now.held.value.low }
{
    cell.held.value.low()
}

/// One entry with these cuts stands where those of two neighbours stood. The right one of them began at the key.
fn join_entries(index: &mut LeafIndex, pair: LeafPair, cut: Key, cuts: [Key; LEAF_SEGMENTS])
    requires { MayJoin pair cut cuts index.old.entries }
    ensures joined { (may : MayJoin pair cut cuts index.old.entries)
        → index.new ≡ record index.old { entries = in_one may.together cuts } }
    ensures taken { IsTaken index.new pair.right }
    ensures ready { IsIndex index.new }
{
    index.drop_leaf(cut);
    index.set_separators(cuts[0], cuts);
    index.is_index();
}

/// There are fewer commits than stamps.
fn stamps_suffice(store: &Store)
    ensures { store.now.accounts.config.passes * store.now.accounts.config.txns_per_pass < STAMPS_END }
{
    let _config = store.config();
}

/// Brings all rows of the cells of the second leaf to those of the first one, and answers the least keys of these then.
/// All cells are marked as changed.
fn merge_cells(
    cells: &mut [TakenCell],
    space: &mut Leaf,
    alloc: Global,
) -> Result<[Key; LEAF_SEGMENTS], NoMemory>
    requires leaves { MayMerge (values_of (take 8 cells.old)) (values_of (drop 8 cells.old)) }
    ensures ok { IfOk result (λ cuts. MergesCells cuts (take 8 cells.old) (drop 8 cells.old) (take 8 cells.new)
        (drop 8 cells.new)) }
    ensures err { OnErr result (KeepsContents cells.old cells.new) }
{
    let mut more = Leaf::new(alloc, Key::END, Key::END)?;
    let (first, second) = cells.split_at_mut(LEAF_SEGMENTS);
    merge_halves(first, second, space, &mut more, alloc)
}

/// The same with the cells of each leaf by themselves.
fn merge_halves(
    first: &mut [TakenCell],
    second: &mut [TakenCell],
    left: &mut Leaf,
    right: &mut Leaf,
    alloc: Global,
) -> Result<[Key; LEAF_SEGMENTS], NoMemory>
    requires leaves { MayMerge (values_of first.old) (values_of second.old) }
    ensures ok { IfOk result (λ cuts. MergesCells cuts first.old second.old first.new second.new) }
    ensures first_count { length first.new ≡ 8 }
    ensures second_count { length second.new ≡ 8 }
    ensures err { OnErr result (KeepsContents first.old first.new × KeepsContents second.old second.new) }
{
    // The rows of both leaves move in memory that is lent, as those of one owner do; where memory is refused the
    // contents go back as they were.
    exchange(first, &mut left.segments);
    exchange(second, &mut right.segments);
    let done = merge_leaves(left, right, alloc);
    let cuts = cuts_of(left);
    exchange(first, &mut left.segments);
    exchange(second, &mut right.segments);
    done?;
    mark(first, 0, LEAF_SEGMENTS);
    mark(second, 0, LEAF_SEGMENTS);
    Ok(cuts)
}
