//! Single rows of a leaf.
//!
//! 1. The key at which a right half will begin is told before a row moves, so the index can have its entry first.

ghost use Rattle.std.specs.Prelude.{◌≡◌, ◌<◌, ◌≤◌, length, slice_get, IsSomeAnd};
ghost use Rattle.leaf_array.specs.Leaves.{IsLeaf, IsSplitKey};
ghost use Rattle.leaf_array.specs.Segments.{rows_of};

use crate::counting::rows_in;
use crate::leaf::Leaf;
use graph_model::Key;
use version_segment::VersionSegment;

/// The key at which the right leaf will begin where a leaf is split.
pub fn split_key(leaf: &Leaf) -> Key
    requires leaf { IsLeaf leaf.now.segments }
    requires many { 207 ≤ length (rows_of leaf.now.segments) }
    ensures { IsSplitKey leaf.now.segments result }
{
    let rows = rows_in(&leaf.segments);
    key_at(&leaf.segments, rows - rows / 2)
}

/// The key of the row at a place among the rows of all segments.
fn key_at(segments: &[VersionSegment], row: usize) -> Key
    requires { row < length (rows_of segments.now) }
    ensures { IsSomeAnd (slice_get (rows_of segments.now) row) (λ found. result ≡ found.0) }
{
    let Some((first, rest)) = segments.split_first() else {
        unreachable!()
    };
    let len = first.len();
    if row < len {
        return first.key_at(row);
    }
    key_at(rest, row - len)
}
