//! What there is to do with a leaf in hand.
//!
//! 1. It is found by counts alone, before a row moves.

ghost use Rattle.std.specs.Prelude.{◌≡◌, true, length};
ghost use Rattle.pass_moves.specs.Moving.{values_of};
ghost use Rattle.pass_merges.specs.Pairs.{StandTogether};
ghost use Rattle.pass_merges.specs.Works.{IsWork};

use crate::pair::LeafPair;
use crate::sparse::{rows_in, sparse_window};
use density_tree::Window;
use graph_model::Key;
use leaf_index::{LeafIndex, LeafRange};
use pass_moves::below::{MERGE_ROWS, TakenCell};
use pass_moves::counts_in;

/// What it is.
#[derive(Clone, Copy, Debug, PartialEq, Eq)]
pub(crate) enum MergeWork {
    /// This window is to be spread.
    Spread(Window),
    /// The leaf has few rows, and this one is after it.
    Look(u32),
    /// There is nothing to do.
    Nothing,
}

/// Looks at a leaf with this range.
pub(crate) fn find_work(cells: &[TakenCell], index: &LeafIndex, range: LeafRange) -> MergeWork
    requires { length cells.now ≡ 8 }
    ensures { IsWork (values_of cells.now) result }
{
    // A window first: it needs this leaf alone.
    if let Some(window) = sparse_window(counts_in(cells)) {
        return MergeWork::Spread(window);
    }
    // Both leaves together may have so many at most, so a fuller one need not be looked at together with the next; and
    // the last leaf has none after it.
    if rows_in(cells) > MERGE_ROWS || !range.high.is_below(Key::END) {
        return MergeWork::Nothing;
    }
    MergeWork::Look(index.leaf_at(range.high).leaf)
}

/// Whether the leaf of the key is the left one, and the next one the right one.
pub(crate) fn stand_together(index: &LeafIndex, key: Key, pair: LeafPair) -> bool
    ensures { result ≡ true → StandTogether pair index.now.entries }
{
    index.is_index();
    // While no latch was held either leaf may have been split, merged or taken anew.
    let range = index.leaf_at(key);
    if range.leaf != pair.left || !range.high.is_below(Key::END) {
        return false;
    }
    let next = index.leaf_at(range.high);
    next.leaf == pair.right
}
