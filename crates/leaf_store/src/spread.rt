//! Windows of leaves that are spread.
//!
//! Cuts are set in the index as soon as the rows of a leaf have moved.

ghost use Rattle.std.specs.Prelude.{◌≡◌, IsOk, OnErr, OnOk};
ghost use Rattle.leaf_store.specs.Leaves.{record_count};
ghost use Rattle.leaf_store.specs.Merging.{KeepsParts};
ghost use Rattle.leaf_store.specs.Moving.{CanSpread, MovesWithin, SpreadsThere};
ghost use Rattle.leaf_store.specs.Table.{IsKept, leaves_of};

use density_tree::Window;
use graph_model::NoMemory;
use leaf_index::LeafIndex;
use leaf_table::below::{Leaf, spread};
use leaf_table::cuts_of;
use std::alloc::Global;

/// Divides the rows of a window of a live leaf anew, and sets the cuts of the leaf.
pub(crate) fn spread_window(
    index: &mut LeafIndex,
    leaves: &mut Vec<Option<Box<Leaf>>>,
    alloc: Global,
    leaf: usize,
    window: Window,
) -> Result<(), NoMemory>
    requires kept { IsKept index.old leaves.old.items }
    requires can { CanSpread window leaf index.old leaves.old.items }
    ensures ok { OnOk result
        (SpreadsThere window leaf index.old leaves.old.items (leaves_of index.new leaves.new.items)) }
    ensures moved { MovesWithin index.old index.new leaves.old.items leaves.new.items }
    ensures err { OnErr result (KeepsParts
        (leaves_of index.old leaves.old.items) (leaves_of index.new leaves.new.items)) }
    ensures settled { record_count (leaves_of index.old leaves.old.items) ≡ 0 → IsOk result }
{
    match &mut leaves[leaf] {
        Some(leaf) => {
            spread(leaf, window, alloc)?;
            let cuts = cuts_of(leaf);
            index.set_separators(cuts[0], cuts);
            index.is_index();
            Ok(())
        }
        None => unreachable!(),
    }
}
