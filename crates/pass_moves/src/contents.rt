//! Contents of cells in hand that are exchanged with the segments of a leaf, where rows move.
//!
//! 1. The code that moves rows is that of `leaf_array`, and is proved there; cells lend it their contents.

ghost use Rattle.std.specs.Prelude.{◌≡◌, length};
ghost use Rattle.pass_leaves.specs.PassCells.Taken.{counted};
ghost use Rattle.pass_moves.specs.Moving.{AreMarked, HavePut, values_of};

use pass_leaves::below::{TakenCell, VersionSegment};
use std::mem::swap;

/// Exchanges the contents of cells with segments, one after the other.
pub fn exchange(cells: &mut [TakenCell], segments: &mut [VersionSegment])
    requires { length cells.old ≡ length segments.old }
    ensures cells { HavePut cells.old segments.old cells.new }
    ensures segments { segments.new ≡ values_of cells.old }
{
    let Some((cell, cells)) = cells.split_first_mut() else {
        return;
    };
    let Some((segment, segments)) = segments.split_first_mut() else {
        unreachable!()
    };
    // The segments change places as they are: no row is copied.
    swap(&mut cell.held.value, segment);
    exchange(cells, segments);
}

/// Marks so many cells after the first ones as changed.
pub fn mark(cells: &mut [TakenCell], first: usize, len: usize)
    ensures { AreMarked cells.old cells.new first len }
{
    let Some((cell, cells)) = cells.split_first_mut() else {
        return;
    };
    if first > 0 {
        mark(cells, first - 1, len);
    } else if len > 0 {
        cell.held.changed = true;
        cell.words_changed = true;
        mark(cells, 0, len - 1);
    }
}

/// All rows that are there are known.
pub fn count_rows(cells: &mut [TakenCell])
    ensures { cells.new ≡ counted cells.old }
{
    let Some((cell, cells)) = cells.split_first_mut() else {
        return;
    };
    cell.rows = cell.held.value.len();
    count_rows(cells);
}
