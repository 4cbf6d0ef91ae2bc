//! What a turn of merging has done.
//!
//! That a turn has changed something is told by values that are made here alone, of leaves in hand.

ghost use Rattle.std.specs.Prelude.{◌≡◌, ◌∷◌, []};
ghost use Rattle.pass_moves.specs.PassLeaves.Hand.{HoldsLeaves};
ghost use Rattle.pass_moves.specs.Moving.{values_of};
ghost use Rattle.pass_merges.specs.Turns.{WasMerged, WasSpread, changes, leaf_of, pair_of};

use crate::pair::LeafPair;
use density_tree::Window;
use pass_moves::below::{HeldIndex, Pass, Store, TakenCell};

/// A window of a leaf that was spread.
#[derive(Debug, Drop, PartialEq, Eq)]
pub struct WindowSpread {
    /// The number of the leaf.
    leaf: u32,
    /// Its segments, whose rows were divided evenly.
    window: Window,
}

impl WindowSpread {
    /// Of a leaf in hand, the first window that had a cell with too few rows and enough rows in all.
    pub(crate) fn of(
        store: &Store,
        pass: &Pass,
        cells: &[TakenCell],
        index: &HeldIndex,
        leaf: u32,
        window: Window,
    ) -> WindowSpread
        requires holds { HoldsLeaves store.now pass.now (leaf ∷ []) cells.now index.now }
        requires spread { WasSpread window (values_of cells.now) }
        ensures { leaf_of result ≡ leaf }
    {
        WindowSpread { leaf, window }
    }
}

/// Two leaves that have become one.
#[derive(Debug, Drop, PartialEq, Eq)]
pub struct LeavesMerged {
    /// Which leaves they were.
    pair: LeafPair,
}

impl LeavesMerged {
    /// Both in hand, with the index under which the right one is retired.
    pub(crate) fn of(
        store: &Store,
        pass: &Pass,
        cells: &[TakenCell],
        index: &HeldIndex,
        pair: LeafPair,
    ) -> LeavesMerged
        requires holds { HoldsLeaves store.now pass.now (pair.left ∷ pair.right ∷ []) cells.now index.now }
        requires merged { WasMerged pair (values_of cells.now) index.now.value.value }
        ensures { pair_of result ≡ pair }
    {
        LeavesMerged { pair }
    }
}

/// What a turn has done.
#[derive(Debug, Drop, PartialEq, Eq)]
pub enum MergeTurn {
    /// A window was spread.
    Spread(WindowSpread),
    /// Two leaves became one.
    Merged(LeavesMerged),
    /// Neither was to be done, or the next leaf stayed busy.
    Nothing,
}

impl MergeTurn {
    /// Whether it has changed a cell.
    pub fn has_changed(&self) -> bool
        ensures { result ≡ changes self.now }
    {
        match self {
            MergeTurn::Spread(_) => true,
            MergeTurn::Merged(_) => true,
            MergeTurn::Nothing => false,
        }
    }
}
