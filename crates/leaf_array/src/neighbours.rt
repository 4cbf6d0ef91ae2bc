//! Moves along segments one after the other.
//!
//! 1. Rows go from one segment to a neighbour, so they stay in order.
//! 2. No call takes memory: each segment has room for the records that come.

ghost use Rattle.std.specs.Prelude.{◌≡◌, ◌+◌, ◌*◌, ◌<◌, ◌≤◌, ◌∷◌, length, sum};
ghost use Rattle.std.specs.List.{AllByRecursion};
ghost use Rattle.graph_model.specs.declared.limits.TheConstants.{SEGMENT_ROWS};
ghost use Rattle.leaf_array.specs.Segments.{rows_of, records_of, AreChained, KeepsRows, HaveRoom, UseRoom, IsCut, IsDivided};

use graph_model::SEGMENT_ROWS;
use version_segment::VersionSegment;

/// Moves the first rows of the segments after one to its end.
fn fill(segment: &mut VersionSegment, rest: &mut [VersionSegment], rows: usize)
    requires chained { AreChained (segment.old ∷ rest.old) }
    requires rows { rows ≤ length (rows_of rest.old) }
    requires room { length segment.old.rows + rows ≤ SEGMENT_ROWS }
    requires spare { HaveRoom (records_of (segment.old ∷ rest.old)) (segment.old ∷ rest.old) }
    ensures moved { KeepsRows (segment.old ∷ rest.old) (segment.new ∷ rest.new) }
    ensures count { length segment.new.rows ≡ length segment.old.rows + rows }
    ensures used { UseRoom (records_of (segment.old ∷ rest.old)) (segment.old ∷ rest.old) (segment.new ∷ rest.new) }
{
    if rows == 0 {
        return;
    }
    let Some((next, rest)) = rest.split_first_mut() else {
        unreachable!()
    };
    // From the far end on: a segment has its rows before it gives them on.
    fill(next, rest, rows.saturating_sub(next.len()));
    segment.move_left(next, rows);
}

/// Moves the last rows of a segment to the front of those after it.
fn spill(segment: &mut VersionSegment, rest: &mut [VersionSegment], rows: usize)
    requires chained { AreChained (segment.old ∷ rest.old) }
    requires rows { rows ≤ length segment.old.rows }
    requires few { rows ≤ SEGMENT_ROWS }
    requires room { 0 < rows → rows + length (rows_of rest.old) ≤ SEGMENT_ROWS * length rest.old }
    requires spare { HaveRoom (records_of (segment.old ∷ rest.old)) rest.old }
    ensures moved { KeepsRows (segment.old ∷ rest.old) (segment.new ∷ rest.new) }
    ensures count { length segment.new.rows + rows ≡ length segment.old.rows }
    ensures kept { segment.old.spare ≤ segment.new.spare }
    ensures used { UseRoom (records_of (segment.old ∷ rest.old)) rest.old rest.new }
{
    if rows == 0 {
        return;
    }
    let Some((next, rest)) = rest.split_first_mut() else {
        unreachable!()
    };
    // Room first, at the far end.
    spill(next, rest, rows.saturating_sub(next.room()));
    segment.move_right(next, rows);
}

/// Brings a segment to so many rows, by moves between it and those after it.
fn level(segment: &mut VersionSegment, rest: &mut [VersionSegment], count: usize)
    requires chained { AreChained (segment.old ∷ rest.old) }
    requires few { count ≤ SEGMENT_ROWS }
    requires rows { count ≤ length (rows_of (segment.old ∷ rest.old)) }
    requires room { length (rows_of (segment.old ∷ rest.old)) ≤ count + SEGMENT_ROWS * length rest.old }
    requires spare { HaveRoom (records_of (segment.old ∷ rest.old)) (segment.old ∷ rest.old) }
    ensures moved { KeepsRows (segment.old ∷ rest.old) (segment.new ∷ rest.new) }
    ensures count { length segment.new.rows ≡ count }
    ensures used { UseRoom (records_of (segment.old ∷ rest.old)) (segment.old ∷ rest.old) (segment.new ∷ rest.new) }
{
    let has = segment.len();
    if has < count {
        fill(segment, rest, count - has);
    } else {
        spill(segment, rest, has - count);
    }
}

/// Lets the first of the segments after one begin with its first row.
fn cut(segment: &mut VersionSegment, rest: &mut [VersionSegment])
    requires chained { AreChained (segment.old ∷ rest.old) }
    requires few { length segment.old.rows ≤ SEGMENT_ROWS }
    ensures cut { IsCut (segment.old ∷ rest.old) (segment.new ∷ rest.new) }
    ensures used { UseRoom 0 (segment.old ∷ rest.old) (segment.new ∷ rest.new) }
{
    if let Some((next, _rest)) = rest.split_first_mut() {
        segment.move_left(next, 0);
    }
}

/// Divides the rows of segments among them.
pub(crate) fn divide(segments: &mut [VersionSegment], counts: &[u32])
    requires chained { AreChained segments.old }
    requires shares { sum counts.now ≡ length (rows_of segments.old) }
    requires each { length counts.now ≡ length segments.old }
    requires few { AllByRecursion (λ count. count ≤ SEGMENT_ROWS) counts.now }
    requires spare { HaveRoom (length segments.old * records_of segments.old) segments.old }
    ensures divided { IsDivided segments.old segments.new counts.now }
    ensures used { UseRoom (length segments.old * records_of segments.old) segments.old segments.new }
{
    let Some((first, rest)) = segments.split_first_mut() else {
        return;
    };
    let Some((count, counts)) = counts.split_first() else {
        unreachable!()
    };
    level(first, rest, *count as usize);
    divide(rest, counts);
    cut(first, rest);
}
