//! Windows that have a segment with too few rows.
//!
//! 1. The smallest window that has enough rows for all its segments is spread, so few rows move.

ghost use Rattle.std.specs.Prelude.{◌≡◌, None, IfSome, length};
ghost use Rattle.leaf_table.specs.LeafArray.Leaves.{IsLeaf};
ghost use Rattle.leaf_table.specs.LeafArray.Segments.{counts_of};
ghost use Rattle.leaf_store.specs.Merging.{IsLeftmostWindow, IsLevel};
ghost use Rattle.leaf_store.specs.Table.{segments_at};

use density_tree::{LOWER_LIMITS, Window, window_for_sparse};
use graph_model::LEAF_SEGMENTS;
use leaf_table::below::Leaf;
use leaf_table::counts_of;

/// A window that is to be spread, in the live leaf with this number.
#[derive(Clone, Copy, Debug, PartialEq, Eq)]
pub(crate) struct SparseWindow {
    pub(crate) leaf: usize,
    pub(crate) window: Window,
}

/// The window of the first segment of a leaf that has one, if there is any.
pub(crate) fn sparse_at(leaves: &Vec<Option<Box<Leaf>>>, leaf: usize) -> Option<Window>
    requires { IsLeaf (segments_at leaves.now.items leaf) }
    ensures some { IfSome result (IsLeftmostWindow (counts_of (segments_at leaves.now.items leaf))) }
    ensures none { result ≡ None → IsLevel (segments_at leaves.now.items leaf) }
{
    match &leaves[leaf] {
        Some(leaf) => sparse_window(leaf),
        None => unreachable!(),
    }
}

/// The smallest window with enough rows, round the first segment with too few that has one.
fn sparse_window(leaf: &Leaf) -> Option<Window>
    requires { length leaf.now.segments ≡ 8 }
    ensures some { IfSome result (IsLeftmostWindow (counts_of leaf.now.segments)) }
    ensures none { result ≡ None → IsLevel leaf.now.segments }
{
    let counts = counts_of(leaf);
    'segments: for segment in 0..LEAF_SEGMENTS {
        if u32::from(counts[segment]) < LOWER_LIMITS[0] {
            if let Some(window) = window_for_sparse(counts, segment) {
                return Some(window);
            }
        }
    }
    None
}
