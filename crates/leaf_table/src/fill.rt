//! Memory for a leaf of a load, with its rows laid in it.
//!
//! 1. Rows are laid from left to right, as many in a segment as the density limits allow, and each is copied once.
//! 2. A leaf ends where the first row after it begins, so that leaves may be made one by one, or several at a time.

ghost use Rattle.std.specs.Prelude.{◌≡◌, ◌*◌, ◌<◌, ◌≤◌, false, [], length, IfOk};
ghost use Rattle.graph_model.specs.Rows.{is_below, first_key, end_key};
ghost use Rattle.gap_segment.specs.Fenced.{AreSorted, AreWithin, first_key_or};
ghost use Rattle.leaf_array.specs.Leaves.{IsLeaf};
ghost use Rattle.leaf_array.specs.Segments.{rows_of};
ghost use Rattle.leaf_table.specs.Settled.{AreSettled, IsLeafFrom, IsLeafOf};

use graph_model::{Key, NoMemory, Row};
use leaf_array::Leaf;
use leaf_array::below::VersionSegment;
use std::alloc::Global;

/// How many rows a segment has in a leaf that is as full as a spread may leave it.
const FULL_SEGMENT: usize = 26;

/// How many rows such a leaf has.
pub const FULL_LEAF: usize = 208;

/// The key of the first row, or the other key where there is none.
fn begin_of(rows: &[Row], other: Key) -> Key
    ensures { result ≡ first_key_or rows.now other }
{
    match rows {
        [first, ..] => first.key,
        [] => other,
    }
}

/// Lays rows in segments that have none, from the low key on and up to the high one.
fn settle_all(segments: &mut [VersionSegment], alloc: Global, low: Key, high: Key, rows: &[Row])
    requires empty { rows_of segments.old ≡ [] }
    requires few { length rows.now ≤ 26 * length segments.old }
    requires fences { is_below high low ≡ false }
    requires none { length segments.old ≡ 0 → low ≡ high }
    requires sorted { AreSorted rows.now }
    requires within { AreWithin low high rows.now }
    ensures { AreSettled low high rows.now segments.new }
{
    let Some((first, rest)) = segments.split_first_mut() else {
        return;
    };
    let (here, behind) = rows.split_at(rows.len().min(FULL_SEGMENT));
    let cut = begin_of(behind, high);
    first.settle(alloc, low, cut, here);
    settle_all(rest, alloc, cut, high, behind);
}

/// Memory for a leaf with these rows.
fn settled_leaf(alloc: Global, low: Key, high: Key, rows: &[Row]) -> Result<Box<Leaf>, NoMemory>
    requires few { length rows.now ≤ 208 }
    requires fences { is_below high low ≡ false }
    requires sorted { AreSorted rows.now }
    requires within { AreWithin low high rows.now }
    ensures settled { IfOk result (λ leaf. AreSettled low high rows.now leaf.value.segments) }
    ensures leaf { IfOk result (λ leaf. IsLeaf leaf.value.segments) }
{
    let mut leaf = Leaf::new(alloc, low, high)?;
    settle_all(&mut leaf.segments, alloc, low, high, rows);
    Ok(Box::new(alloc, leaf)?)
}

/// Memory for a leaf with the rows from a place on.
pub(crate) fn leaf_from(alloc: Global, rows: &[Row], at: usize) -> Result<Box<Leaf>, NoMemory>
    requires sorted { AreSorted rows.now }
    requires within { AreWithin first_key end_key rows.now }
    requires more { at < length rows.now }
    ensures { IfOk result (IsLeafFrom rows.now at) }
{
    let (_, rest) = rows.split_at(at);
    let (here, behind) = rest.split_at(rest.len().min(FULL_LEAF));
    let low = begin_of(here, Key::END);
    let high = begin_of(behind, Key::END);
    settled_leaf(alloc, low, high, here)
}

/// Memory for the first leaf of a load with these rows: it begins with the first key.
pub(crate) fn first_leaf(alloc: Global, rows: &[Row]) -> Result<Box<Leaf>, NoMemory>
    requires sorted { AreSorted rows.now }
    requires within { AreWithin first_key end_key rows.now }
    ensures { IfOk result (IsLeafOf first_key rows.now) }
{
    let (here, behind) = rows.split_at(rows.len().min(FULL_LEAF));
    let low = Key { src: 0, second: 0 };
    let high = begin_of(behind, Key::END);
    settled_leaf(alloc, low, high, here)
}
