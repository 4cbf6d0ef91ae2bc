//! Leaves.
//!
//! 1. The segments of a leaf follow each other without a gap: where one ends the next begins, and the last one ends
//!    where the leaf does. So a key of the leaf lies in one segment.
//! 2. A segment without rows may have no keys either, where it begins at its end.

ghost use Rattle.std.specs.Prelude.{◌≡◌, ◌<◌, ◌++◌, ◌-◌, ◌^◌, true, false, length, min, IfOk};
ghost use Rattle.graph_model.specs.Rows.{is_below, is_between};
ghost use Rattle.version_segment.specs.Rows.{VersionedRows};
ghost use Rattle.leaf_array.specs.Segments.{AreChained, counts_of, lows_of, low_or, high_or, records_of, HoldsKey};
ghost use Rattle.leaf_array.specs.Leaves.{IsLeaf, IsEmpty, AreFourEmpty, IsEmptyFrom};

use crate::counting::records_in;
use graph_model::{Key, LEAF_SEGMENTS, NoMemory};
use std::alloc::Global;
use version_segment::VersionSegment;

/// Eight segments, each of which ends where the next one begins.
#[derive(Drop)]
pub struct Leaf {
    /// In the order of their keys.
    pub segments: [VersionSegment; LEAF_SEGMENTS],
}

impl Leaf {
    /// No rows. The first segment has the whole key range, and the others are empty at its end.
    pub fn new(alloc: Global, low: Key, high: Key) -> Result<Leaf, NoMemory>
        requires { is_below high low ≡ false }
        ensures { IfOk result (λ leaf. IsEmptyFrom low high leaf.segments) }
    {
        let front = four_segments(alloc, low, high)?;
        let back = four_segments(alloc, high, high)?;
        Ok(Leaf {
            segments: joined(front, back),
        })
    }

    /// How many rows each segment has, as the windows of density are found by.
    pub fn counts(&self) -> [u8; LEAF_SEGMENTS]
        requires { IsLeaf self.now.segments }
        ensures { result ≡ counts_of self.now.segments }
    {
        let [first, second, third, fourth, fifth, sixth, seventh, eighth] = &self.segments;
        [
            count(first),
            count(second),
            count(third),
            count(fourth),
            count(fifth),
            count(sixth),
            count(seventh),
            count(eighth),
        ]
    }

    /// Where each segment begins, as the index of leaves keeps it.
    pub fn cuts(&self) -> [Key; LEAF_SEGMENTS]
        requires { IsLeaf self.now.segments }
        ensures { result ≡ lows_of self.now.segments }
    {
        let [first, second, third, fourth, fifth, sixth, seventh, eighth] = &self.segments;
        [
            first.low(),
            second.low(),
            third.low(),
            fourth.low(),
            fifth.low(),
            sixth.low(),
            seventh.low(),
            eighth.low(),
        ]
    }

    /// How many records its rows have, up to the last number.
    pub fn records(&self) -> usize
        ensures { result ≡ min (records_of self.now.segments) (2 ^ 64 - 1) }
    {
        match records_in(&self.segments) {
            Some(records) => records,
            None => usize::MAX,
        }
    }

    /// The segment whose range holds a key of the leaf's range.
    pub fn segment(&self, key: Key) -> usize
        requires leaf { IsLeaf self.now.segments }
        requires from { is_below key (low_or self.now.segments key) ≡ false }
        requires until { is_below key (high_or self.now.segments key) ≡ true }
        ensures { HoldsKey self.now.segments key result }
    {
        segment_in(&self.segments, key)
    }
}

/// How many rows a segment has.
fn count(segment: &VersionSegment) -> u8
    ensures { result ≡ length segment.now.rows }
{
    segment.len() as u8
}

/// The segment whose range holds the key, which is the first one that ends above it.
fn segment_in(segments: &[VersionSegment], key: Key) -> usize
    requires chained { AreChained segments.now }
    requires from { is_below key (low_or segments.now key) ≡ false }
    requires until { is_below key (high_or segments.now key) ≡ true }
    ensures { HoldsKey segments.now key result }
{
    let Some((first, rest)) = segments.split_first() else {
        return 0;
    };
    if key.is_below(first.high()) {
        0
    } else {
        segment_in(rest, key) + 1
    }
}

/// A segment without rows.
fn empty_segment(alloc: Global, low: Key, high: Key) -> Result<VersionSegment, NoMemory>
    requires { is_below high low ≡ false }
    ensures { IfOk result (λ s. IsEmpty low high s) }
{
    VersionSegment::new(alloc, low, high)
}

/// Four segments without rows, of which the first has the whole range.
fn four_segments(alloc: Global, low: Key, high: Key) -> Result<[VersionSegment; 4], NoMemory>
    requires { is_below high low ≡ false }
    ensures { IfOk result (λ ss. AreFourEmpty low high ss) }
{
    let first = empty_segment(alloc, low, high)?;
    let second = empty_segment(alloc, high, high)?;
    let third = empty_segment(alloc, high, high)?;
    let fourth = empty_segment(alloc, high, high)?;
    Ok([first, second, third, fourth])
}

/// Four segments, and four after them.
fn joined(front: [VersionSegment; 4], back: [VersionSegment; 4]) -> [VersionSegment; LEAF_SEGMENTS]
    ensures { result ≡ front ++ back }
{
    let [first, second, third, fourth] = front;
    let [fifth, sixth, seventh, eighth] = back;
    [first, second, third, fourth, fifth, sixth, seventh, eighth]
}
