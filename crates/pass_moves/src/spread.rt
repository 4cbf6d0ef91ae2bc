//! A window of the leaf in hand that is spread.
//!
//! 1. Rows, then cuts, then one load of the clock by which the pass's view has both: others see none of it before the
//!    latches are released.

ghost use Rattle.std.specs.Prelude.{◌≡◌, ◌≤◌, ◌*◌, ℕ, [], ◌∷◌, length, IfOk, OnErr, OnOk};
ghost use Rattle.pass_leaves.specs.LeafArray.Leaves.{IsLeaf, IsWindow, SpreadsWindow, window_of};
ghost use Rattle.pass_leaves.specs.LeafArray.Segments.{AreSame, rows_of};
ghost use Rattle.pass_leaves.specs.LeafStore.Pairs.{Stands};
ghost use Rattle.pass_leaves.specs.PassCells.Holding.{KeepsPass};
ghost use Rattle.pass_leaves.specs.Fit.{TellsFit};
ghost use Rattle.pass_leaves.specs.Hand.{HoldsLeaves};
ghost use Rattle.pass_moves.specs.Moving.{values_of};
ghost use Rattle.pass_moves.specs.Spreading.{KeepsContents, SpreadsCells};

use crate::contents::{count_rows, exchange, mark};
use crate::step::Moving;
use density_tree::Window;
use graph_model::{Key, LEAF_SEGMENTS, NoMemory};
use pass_leaves::HeldIndex;
use pass_leaves::below::{Leaf, Pass, Store, TakenCell, cuts_of, spread};
use std::alloc::Global;

/// Spreads a window of the leaf in hand, gives the index the cuts that the leaf has then, and has the pass's view know
/// both. The rows move in the space that is lent, which has none before and after. Where memory is refused only room
/// for records has changed.
pub fn spread_window(
    store: &Store,
    pass: &mut Pass,
    cells: &mut [TakenCell],
    index: &mut HeldIndex,
    window: Window,
    space: &mut Leaf,
    alloc: Global,
) -> Result<(), NoMemory>
    requires holds { (leaf : ℕ) × HoldsLeaves store.now pass.old (leaf ∷ []) cells.old index.old
        × Stands index.old.value.value.entries leaf }
    requires fit { TellsFit store.now.accounts.config pass.old.account.me.0 }
    requires window { IsWindow window }
    requires few { length (rows_of (window_of window (values_of cells.old))) ≤ 30 * window.len }
    ensures holds { (leaf : ℕ) → HoldsLeaves store.now pass.old (leaf ∷ []) cells.old index.old
        → HoldsLeaves store.now pass.new (leaf ∷ []) cells.new index.new }
    ensures fit { TellsFit store.now.accounts.config pass.new.account.me.0 }
    ensures spread { OnOk result (SpreadsWindow window (values_of cells.old) (values_of cells.new)) }
    ensures err { OnErr result ((pass.new ≡ pass.old) × (index.new ≡ index.old)
        × AreSame (values_of cells.old) (values_of cells.new)) }
    ensures kept { KeepsPass pass.old pass.new }
{
    // Rows first: where memory is refused none has moved, and the index is as it was.
    let cuts = spread_cells(cells, space, window, alloc)?;
    index.changed = true;
    index.value.set_separators(cuts[0], cuts);
    index.value.is_index();
    let planned = Moving {
        index: &index.value,
        cells,
    };
    store.change(pass, &planned);
    count_rows(cells);
    Ok(())
}

/// Divides the rows of a window evenly among its cells, and answers the least keys of all cells of the leaf then. The
/// rows move in the space that is lent, which has none before and after.
fn spread_cells(
    cells: &mut [TakenCell],
    space: &mut Leaf,
    window: Window,
    alloc: Global,
) -> Result<[Key; LEAF_SEGMENTS], NoMemory>
    requires leaf { IsLeaf (values_of cells.old) }
    requires window { IsWindow window }
    ensures ok { IfOk result (λ cuts. SpreadsCells window cuts cells.old cells.new) }
    ensures err { OnErr result (KeepsContents cells.old cells.new) }
{
    // The rows move in a leaf that is lent, by the code that moves those of one owner; afterwards the contents go back
    // to the cells.
    exchange(cells, &mut space.segments);
    // Whether it is done is asked after the contents are back, since the cells need theirs in either case.
    let done = spread(space, window, alloc);
    let cuts = cuts_of(space);
    exchange(cells, &mut space.segments);
    done?;
    // Cells beside the window are as they were, so they keep their versions, and reads there stay valid.
    mark(cells, window.first, window.len);
    Ok(cuts)
}
