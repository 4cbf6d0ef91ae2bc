//! Rows and records of segments, counted, and room for records.
//!
//! 1. Records may be more than a number says; then no room is made, as if memory ran out.

ghost use Rattle.std.specs.Prelude.{◌≡◌, ◌*◌, ◌<◌, ◌≤◌, ◌^◌, length, IfSome, IsSome, OnOk, IsOk};
ghost use Rattle.graph_model.specs.declared.limits.TheConstants.{SEGMENT_ROWS};
ghost use Rattle.version_segment.specs.Rows.{all_records};
ghost use Rattle.leaf_array.specs.Segments.{rows_of, records_of, AreSame, HaveRoom};

use graph_model::NoMemory;
use version_segment::VersionSegment;

/// How many rows the segments have.
pub(crate) fn rows_in(segments: &[VersionSegment]) -> usize
    requires { length segments.now < 2 ^ 32 }
    ensures rows { result ≡ length (rows_of segments.now) }
    ensures small { result ≤ SEGMENT_ROWS * length segments.now }
{
    let mut rows = 0;
    'segments: for segment in segments {
        rows += segment.len();
    }
    rows
}

/// How many records the rows of the segments have, unless there are more than a number can say.
pub(crate) fn records_in(segments: &[VersionSegment]) -> Option<usize>
    ensures records { IfSome result (λ n. n ≡ records_of segments.now) }
    ensures some { records_of segments.now < 2 ^ 64 → IsSome result }
{
    let mut records: usize = 0;
    'segments: for segment in segments {
        records = records.checked_add(records_of(segment)?)?;
    }
    Some(records)
}

/// How many records the rows of a segment have, unless there are more than a number can say.
pub(crate) fn records_of(segment: &VersionSegment) -> Option<usize>
    ensures records { IfSome result (λ n. n ≡ all_records segment.now.rows) }
    ensures some { all_records segment.now.rows < 2 ^ 64 → IsSome result }
{
    let mut records: usize = 0;
    'places: for place in 0..segment.len() {
        records = records.checked_add(segment.records_at(place))?;
    }
    Some(records)
}

/// Makes room for so many more records in each segment.
pub(crate) fn reserve(segments: &mut [VersionSegment], records: usize) -> Result<(), NoMemory>
    ensures ok { OnOk result (HaveRoom records segments.new) }
    ensures same { AreSame segments.old segments.new }
    ensures none { records ≡ 0 → IsOk result }
{
    let Some((first, rest)) = segments.split_first_mut() else {
        return Ok(());
    };
    first.reserve_records(records)?;
    reserve(rest, records)
}
