//! The rows of a window, divided anew among its segments.
//!
//! 1. Memory for records comes first, and what is left over is given back last: so a spread is whole or not begun.

ghost use Rattle.std.specs.Prelude.{◌≡◌, ◌+◌, ◌*◌, ◌≤◌, length, OnOk, OnErr, IsOk};
ghost use Rattle.density_tree.specs.Division.{evenly};
ghost use Rattle.leaf_array.specs.Leaves.{IsLeaf, IsWindow, SpreadsWindow, window_of};
ghost use Rattle.leaf_array.specs.Segments.{rows_of, records_of, AreChained, AreSame, HaveRoom, IsDivided};

use crate::counting::{records_in, reserve, rows_in};
use crate::leaf::Leaf;
use crate::memory::give_back;
use crate::neighbours::divide;
use density_tree::{Window, spread_counts};
use graph_model::NoMemory;
use std::alloc::Global;
use version_segment::VersionSegment;

/// Divides the rows of a window evenly among its segments.
pub fn spread(leaf: &mut Leaf, window: Window, alloc: Global) -> Result<(), NoMemory>
    requires leaf { IsLeaf leaf.old.segments }
    requires window { IsWindow window }
    ensures ok { OnOk result (SpreadsWindow window leaf.old.segments leaf.new.segments) }
    ensures err { OnErr result (AreSame leaf.old.segments leaf.new.segments) }
    ensures settled { records_of (window_of window leaf.old.segments) ≡ 0 → IsOk result }
{
    let (_, behind) = leaf.segments.split_at_mut(window.first);
    let (segments, _) = behind.split_at_mut(window.len);
    spread_all(segments, alloc)
}

/// Divides the rows evenly among all segments.
fn spread_all(segments: &mut [VersionSegment], alloc: Global) -> Result<(), NoMemory>
    requires chained { AreChained segments.old }
    requires some { 1 ≤ length segments.old }
    requires few { length segments.old ≤ 8 }
    ensures ok { OnOk result (IsDivided segments.old segments.new
        (evenly (length (rows_of segments.old)) (length segments.old))) }
    ensures err { OnErr result (AreSame segments.old segments.new) }
    ensures settled { records_of segments.old ≡ 0 → IsOk result }
{
    reserve_for(segments, segments.len())?;
    divide_evenly(segments, alloc);
    Ok(())
}

/// Divides the rows evenly among segments that have room for the records. Room that is left over is given back.
pub(crate) fn divide_evenly(segments: &mut [VersionSegment], alloc: Global)
    requires chained { AreChained segments.old }
    requires some { 1 ≤ length segments.old }
    requires few { length segments.old ≤ 8 }
    requires spare { HaveRoom (length segments.old * records_of segments.old) segments.old }
    ensures { IsDivided segments.old segments.new
        (evenly (length (rows_of segments.old)) (length segments.old)) }
{
    let rows = rows_in(segments);
    let counts = spread_counts(rows as u32, segments.len() as u32);
    divide(segments, counts.as_slice());
    give_back(segments, alloc);
}

/// Makes room in each segment for all records of all segments, so many times.
fn reserve_for(segments: &mut [VersionSegment], times: usize) -> Result<(), NoMemory>
    ensures ok { OnOk result (HaveRoom (times * records_of segments.old) segments.new) }
    ensures same { AreSame segments.old segments.new }
    ensures settled { records_of segments.old ≡ 0 → IsOk result }
{
    let records = records_in(segments).ok_or(NoMemory)?;
    let room = records.checked_mul(times).ok_or(NoMemory)?;
    reserve(segments, room)
}
