//! What stands by the number of a leaf.
//!
//! 1. It is all that a route needs once the leaf is known, in 144 bytes.
//! 2. A range that holds no key says that the leaf isn't live: so whoever has an old number sees it here.

ghost use Rattle.std.specs.Prelude.{◌≡◌, ◌+◌, ◌<◌, false, Some, slice_get, unwrap_or};
ghost use Rattle.graph_model.specs.Rows.{is_below};
ghost use Rattle.leaf_index.specs.Index.{AreSorted, IsSegment, NotAbove};
ghost use Rattle.leaf_index.specs.Slots.{holds_key};

use graph_model::{Key, LEAF_SEGMENTS};

/// The least keys of a leaf's segments, and the end of its range. That of a leaf that isn't live holds no key.
#[derive(Clone, Copy, Debug, PartialEq, Eq)]
pub struct IndexSlot {
    /// In rising order; a segment without keys begins where the next one does.
    pub cuts: [Key; LEAF_SEGMENTS],
    /// The first key beyond the leaf.
    pub high: Key,
}

impl IndexSlot {
    /// Whether the range holds the key.
    pub fn holds(&self, key: Key) -> bool
        ensures { result ≡ holds_key self.now key }
    {
        !key.is_below(self.cuts[0]) && key.is_below(self.high)
    }
}

/// The last segment whose cut is not above the key. The one that is near is looked at first, if there is such a one.
pub fn segment_near(cuts: &[Key; LEAF_SEGMENTS], key: Key, near: usize) -> usize
    requires low { (low : _) × (slice_get cuts.now 0 ≡ Some low) × NotAbove low key }
    requires sorted { (high : _) × AreSorted cuts.now high }
    ensures { IsSegment cuts.now key result }
{
    if near < LEAF_SEGMENTS - 1 && !key.is_below(cuts[near]) && key.is_below(cuts[near + 1]) {
        return near;
    }
    segment_of(cuts, key)
}

/// The same, by a look at one cut after the other, the last one first.
pub fn segment_of(cuts: &[Key; LEAF_SEGMENTS], key: Key) -> usize
    requires { (low : _) × (slice_get cuts.now 0 ≡ Some low) × NotAbove low key }
    ensures { IsSegment cuts.now key result }
{
    let mut segment = LEAF_SEGMENTS - 1;
    'down: while segment > 0 && key.is_below(cuts[segment]) {
        segment -= 1;
    }
    segment
}

/// Where the segment's range ends.
pub fn high_of(slot: &IndexSlot, segment: usize) -> Key
    requires { segment < 8 }
    ensures { result ≡ unwrap_or (slice_get slot.now.cuts (segment + 1)) slot.now.high }
{
    if segment + 1 < LEAF_SEGMENTS {
        slot.cuts[segment + 1]
    } else {
        slot.high
    }
}
