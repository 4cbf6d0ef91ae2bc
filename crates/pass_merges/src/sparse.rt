//! Windows of a leaf in hand that have a cell with too few rows.
//!
//! 1. They are those of `density_tree`, as for the owner of a store, by the counts of the cells.

ghost use Rattle.std.specs.Prelude.{◌≡◌, ◌*◌, ◌<◌, ◌≤◌, ℕ, None, IfSome, length};
ghost use Rattle.pass_moves.specs.LeafArray.Segments.{rows_of};
ghost use Rattle.pass_moves.specs.LeafStore.Merging.{HasNoWindow, IsLeftmostWindow};
ghost use Rattle.pass_moves.specs.Moving.{values_of};

use density_tree::{LOWER_LIMITS, Window, window_for_sparse};
use graph_model::LEAF_SEGMENTS;
use pass_moves::below::TakenCell;

/// The smallest window with enough rows, round the first cell with too few that has one.
pub(crate) fn sparse_window(counts: [u8; LEAF_SEGMENTS]) -> Option<Window>
    ensures some { IfSome result (IsLeftmostWindow counts) }
    ensures none { result ≡ None → (segment : ℕ) → segment < 8 → HasNoWindow counts segment }
{
    'segments: for segment in 0..LEAF_SEGMENTS {
        if u32::from(counts[segment]) < LOWER_LIMITS[0] {
            if let Some(window) = window_for_sparse(counts, segment) {
                return Some(window);
            }
        }
    }
    None
}

/// How many rows all cells have.
pub(crate) fn rows_in(cells: &[TakenCell]) -> usize
    requires { length cells.now ≤ 16 }
    ensures rows { result ≡ length (rows_of (values_of cells.now)) }
    ensures small { result ≤ 32 * length cells.now }
{
    let Some((cell, cells)) = cells.split_first() else {
        return 0;
    };
    cell.held.value.len() + rows_in(cells)
}
