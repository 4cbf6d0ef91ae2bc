//! Memory for records.
//!
//! Moves want more room for records than is used in the end. What is left over is given back.

ghost use Rattle.leaf_array.specs.Segments.{AreSame};
ghost use Rattle.version_segment.specs.Rows.{IsSameSegment};

use crate::counting::records_of;
use graph_model::NoMemory;
use std::alloc::Global;
use version_segment::VersionSegment;

/// Leaves each segment the memory that its records take, and no more. Where memory runs out for that, a segment keeps
/// what it has.
pub(crate) fn give_back(segments: &mut [VersionSegment], alloc: Global)
    ensures { AreSame segments.old segments.new }
{
    let Some((first, rest)) = segments.split_first_mut() else {
        return;
    };
    let _ = tighten(first, alloc);
    give_back(rest, alloc);
}

/// Brings the records of a segment to memory that has room for them and for no more.
fn tighten(segment: &mut VersionSegment, alloc: Global) -> Result<(), NoMemory>
    ensures { IsSameSegment segment.old segment.new }
{
    let records = records_of(segment).ok_or(NoMemory)?;
    if records == 0 {
        segment.release(alloc);
        return Ok(());
    }
    let low = segment.low();
    let rows = segment.len();
    // A copy to memory of the right size: the old one is let go with the segment that is replaced.
    let mut tight = VersionSegment::new(alloc, low, low)?;
    tight.reserve_records(records)?;
    tight.move_left(segment, rows);
    *segment = tight;
    Ok(())
}
