//! Whether rows stand in the order of their keys, looked at by several threads.
//!
//! Each thread has rows that follow each other, and the first of those behind them besides, so that each two neighbours
//! are looked at by one.

ghost use Rattle.std.specs.Prelude.{◌≡◌, ◌+◌, ◌-◌, ◌++◌, ◌<◌, ◌≤◌, false, length, slice_index_or};
ghost use Rattle.std.specs.Bool.{OnTrue};
ghost use Rattle.std.specs.List.Sorted.{IsSortedByKey, IsSortedWithin};
ghost use Rattle.std.specs.Thread.{IsSync};
ghost use Rattle.graph_model.specs.Rows.{key_cmp, is_below};
ghost use Rattle.graph_model.specs.declared.row.Row.{Row};

use graph_model::Row;
use std::thread::{Threads, join};

/// Whether rows are in the order of their keys. They are halved so often.
pub(crate) fn are_sorted<R: Threads + Sync>(rt: &R, rows: &[Row], cuts: u32) -> bool
    ensures { OnTrue result (IsSortedByKey (λ row. row.key) key_cmp rows.now) }
{
    are_sorted_within(rt, rows, 0, rows.len(), cuts)
}

/// Whether the rows of two lists, one behind the other, are in the order of their keys. Each is halved so often.
pub(crate) fn follow_sorted<R: Threads + Sync>(
    rt: &R,
    front: &[Row],
    back: &[Row],
    cuts: u32,
) -> bool
    ensures { OnTrue result (IsSortedByKey (λ row. row.key) key_cmp (front.now ++ back.now)) }
{
    meet(front, back) && are_sorted(rt, front, cuts) && are_sorted(rt, back, cuts)
}

/// Whether the first row of one list may follow the last of another.
fn meet(front: &[Row], back: &[Row]) -> bool
    ensures { OnTrue result ((d : Row) → 0 < length front.now → 0 < length back.now
        → is_below (slice_index_or back.now 0 d).key (slice_index_or front.now (length front.now - 1) d).key ≡ false) }
{
    match (front, back) {
        ([.., last], [first, ..]) => !first.key.is_below(last.key),
        _ => true,
    }
}

/// The same of those from a place on and up to another.
#[cycle(places)]
fn are_sorted_within<R: Threads + Sync>(
    rt: &R,
    rows: &[Row],
    low: usize,
    high: usize,
    cuts: u32,
) -> bool
    requires begins { low ≤ high }
    requires within { high ≤ length rows.now }
    ensures { OnTrue result (IsSortedWithin (λ row next. is_below row.key next.key) rows.now low high) }
{
    if cuts == 0 || high - low < 2 {
        return are_sorted_alone(rows, low, high);
    }
    let middle = low + (high - low) / 2;
    let (first, second) = join(
        rt,
        || -> bool
            requires { IsSync R.row × (0 < cuts) × (low ≤ middle + 1) × (middle + 1 ≤ length rows.now) }
            ensures { OnTrue result
                (IsSortedWithin (λ row next. is_below row.key next.key) rows.entry.now low (middle + 1)) }
        { are_sorted_within(rt, rows, low, middle + 1, cuts - 1) },
        || -> bool
            requires { IsSync R.row × (0 < cuts) × (middle ≤ high) × (high ≤ length rows.now) }
            ensures { OnTrue result
                (IsSortedWithin (λ row next. is_below row.key next.key) rows.entry.now middle high) }
        { are_sorted_within(rt, rows, middle, high, cuts - 1) },
    );
    first && second
}

/// The same by one thread.
fn are_sorted_alone(rows: &[Row], low: usize, high: usize) -> bool
    requires begins { low ≤ high }
    requires within { high ≤ length rows.now }
    ensures { OnTrue result (IsSortedWithin (λ row next. is_below row.key next.key) rows.now low high) }
{
    'places: for place in low..high {
        if place + 1 < high && rows[place + 1].key < rows[place].key {
            return false;
        }
    }
    true
}
