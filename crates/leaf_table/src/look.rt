//! What the segments of a leaf say of themselves.
//!
//! 1. Eight numbers as a value, and no list: it takes no memory, and is compared and copied as it is.

ghost use Rattle.std.specs.Prelude.{◌≡◌, length};
ghost use Rattle.std.specs.List.{AllByRecursion};
ghost use Rattle.leaf_array.specs.VersionSegment.Rows.{IsSegment};
ghost use Rattle.leaf_array.specs.Segments.{counts_of, lows_of};

use graph_model::{Key, LEAF_SEGMENTS};
use leaf_array::Leaf;

/// The least keys of the segments. What holds of each segment is a clause of this call.
pub fn cuts_of(leaf: &Leaf) -> [Key; LEAF_SEGMENTS]
    requires { length leaf.now.segments ≡ 8 }
    ensures cuts { result ≡ lows_of leaf.now.segments }
    ensures sound { AllByRecursion IsSegment leaf.now.segments }
{
    let mut cuts = [Key::END; LEAF_SEGMENTS];
    'segments: for place in 0..LEAF_SEGMENTS {
        let segment = &leaf.segments[place];
        segment.is_segment();
        cuts[place] = segment.low();
    }
    cuts
}

/// How many rows the segments have.
pub fn counts_of(leaf: &Leaf) -> [u8; LEAF_SEGMENTS]
    requires { length leaf.now.segments ≡ 8 }
    ensures counts { result ≡ counts_of leaf.now.segments }
    ensures sound { AllByRecursion IsSegment leaf.now.segments }
{
    let mut counts = [0; LEAF_SEGMENTS];
    'segments: for place in 0..LEAF_SEGMENTS {
        counts[place] = leaf.segments[place].len() as u8;
    }
    counts
}
