//! Rows of a load, divided among leaves.
//!
//! 1. Rows go from left to right, as many to a segment as the density limits allow. None is copied.
//! 2. A leaf ends where the first row after it begins, and so does each of its segments.

ghost use Rattle.std.specs.Prelude.{◌≡◌, ◌*◌, ◌<◌, ◌≤◌, length, take, drop, slice_set, IfErr, IfOk, OnOk};
ghost use Rattle.graph_model.specs.Rows.{first_key, end_key};
ghost use Rattle.graph_model.specs.declared.limits.TheConstants.{MAX_LEAVES};
ghost use Rattle.gap_segment.specs.Fenced.{AreSorted, AreWithin, first_key_or};
ghost use Rattle.rule_model.specs.LeafArray.Segments.{lows_of};
ghost use Rattle.leaf_index.specs.Calls.{new_index};
ghost use Rattle.rule_model.specs.LeafStore.Changes.{AreRising, IsFillRefusal};
ghost use Rattle.rule_model.specs.LeafStore.Fill.{IsFillStop};
ghost use Rattle.loaded_cells.specs.Laid.{AreDivided, AreLaid};
ghost use Rattle.loaded_cells.specs.Ranges.{AreIdle, leaf_segments, segments_from};

use graph_model::{Key, LEAF_SEGMENTS, NoMemory, Row};
use leaf_index::LeafIndex;
use std::alloc::Global;
use txn_manager::RoomRefusal;

/// Rows of a load between two fence keys: those of a leaf, or of a segment.
#[derive(Clone, Copy)]
pub struct LoadedRange<'a> {
    /// No row has a key below it.
    pub low: Key,
    /// All rows have keys below it.
    pub high: Key,
    /// In rising order of their keys.
    pub rows: &'a [Row],
}

/// The rows of each leaf by its number, and the index of the leaves. A leaf that isn't live has no rows.
#[derive(Drop)]
pub struct LoadedLeaves<'a> {
    /// Which leaf has which keys.
    pub index: LeafIndex,
    /// By the number of a leaf.
    pub ranges: Vec<LoadedRange<'a>>,
}

/// How many rows a segment has in a leaf that is as full as a spread may leave it.
pub(crate) const FULL_SEGMENT: usize = 26;

/// How many rows such a leaf has.
const FULL_LEAF: usize = 208;

impl<'a> LoadedRange<'a> {
    /// The first so many rows, up to the first one after them, and the others from there on.
    pub fn split(self, count: usize) -> (LoadedRange<'a>, LoadedRange<'a>)
        ensures low { result.0.low ≡ self.entry.low }
        ensures front { result.0.rows.now ≡ take count self.entry.rows.now }
        ensures cut { result.0.high ≡ first_key_or (drop count self.entry.rows.now) self.entry.high }
        ensures next { result.1.low ≡ first_key_or (drop count self.entry.rows.now) self.entry.high }
        ensures high { result.1.high ≡ self.entry.high }
        ensures back { result.1.rows.now ≡ drop count self.entry.rows.now }
    {
        let LoadedRange { low, high, rows } = self;
        let (here, behind) = rows.split_at(rows.len().min(count));
        let cut = begin_of(behind, high);
        (
            LoadedRange {
                low,
                high: cut,
                rows: here,
            },
            LoadedRange {
                low: cut,
                high,
                rows: behind,
            },
        )
    }
}

/// The key of the first row, or the other key where there is none.
fn begin_of(rows: &[Row], other: Key) -> Key
    ensures { result ≡ first_key_or rows.now other }
{
    match rows {
        [first, ..] => first.key,
        [] => other,
    }
}

/// Writes down where each segment begins of a key range with so many segments.
fn set_cuts(cuts: &mut [Key], range: LoadedRange)
    ensures { cuts.new ≡ lows_of
        (segments_from (length cuts.old) range.entry.low range.entry.high range.entry.rows.now) }
{
    let Some((first, rest)) = cuts.split_first_mut() else {
        return;
    };
    let (segment, behind) = range.split(FULL_SEGMENT);
    *first = segment.low;
    set_cuts(rest, behind);
}

/// Where each segment of a leaf begins.
fn cuts_of(leaf: LoadedRange) -> [Key; LEAF_SEGMENTS]
    ensures { result ≡ lows_of (leaf_segments leaf.entry) }
{
    let mut cuts = [leaf.low; LEAF_SEGMENTS];
    set_cuts(&mut cuts, leaf);
    cuts
}

/// No leaf has rows yet.
fn idle_ranges<'a>(
    alloc: Global,
    leaves: u32,
    rows: &'a [Row],
) -> Result<Vec<LoadedRange<'a>>, NoMemory>
    ensures { IfOk result (λ ranges. (length ranges.items ≡ leaves) × AreIdle ranges.items) }
{
    let (_, none) = rows.split_at(rows.len());
    let idle = LoadedRange {
        low: Key::END,
        high: Key::END,
        rows: none,
    };
    let ranges = vec![in alloc; idle; leaves as usize]?;
    Ok(ranges)
}

/// The leaf with this number has these rows now.
fn put_range<'a>(ranges: &mut Vec<LoadedRange<'a>>, leaf: usize, range: LoadedRange<'a>)
    requires { leaf < length ranges.old.items }
    ensures { ranges.new.items ≡ slice_set ranges.old.items leaf range.entry }
{
    ranges[leaf] = range;
}

/// Gives the next rows to a leaf of their own, and answers how many have a leaf then.
fn fill_next<'a>(
    index: &mut LeafIndex,
    ranges: &mut Vec<LoadedRange<'a>>,
    alloc: Global,
    rows: &'a [Row],
    at: usize,
) -> Result<usize, RoomRefusal>
    requires sorted { AreSorted rows.now }
    requires within { AreWithin first_key end_key rows.now }
    requires divided { AreDivided rows.now at index.old ranges.old.items }
    requires more { at < length rows.now }
    ensures ok { IfOk result (λ next. AreDivided rows.now next index.new ranges.new.items) }
    ensures more { IfOk result (λ next. at < next) }
    ensures limit { IfOk result (λ next. index.new.leaves ≡ index.old.leaves) }
    ensures stop { IfErr result (λ refusal. IsFillStop refusal index.old rows.now) }
{
    let Some(leaf) = index.take_free() else {
        let leaves = index.leaves();
        return Err(RoomRefusal::Full { leaves });
    };
    let (_, rest) = rows.split_at(at);
    let rest = LoadedRange {
        low: begin_of(rest, Key::END),
        high: Key::END,
        rows: rest,
    };
    // As many rows as a spread may leave in a leaf, so a write that comes next finds places.
    let (here, behind) = rest.split(FULL_LEAF);
    index.add_leaf(alloc, here.low, leaf, cuts_of(here))?;
    index.is_index();
    put_range(ranges, leaf as usize, here);
    Ok(rows.len() - behind.rows.len())
}

/// Gives the first rows to the first leaf, and answers how many.
fn fill_first<'a>(
    index: &mut LeafIndex,
    ranges: &mut Vec<LoadedRange<'a>>,
    rows: &'a [Row],
) -> usize
    requires sorted { AreSorted rows.now }
    requires within { AreWithin first_key end_key rows.now }
    requires index { index.old ≡ new_index (length ranges.old.items) }
    requires some { 1 ≤ length ranges.old.items }
    requires idle { AreIdle ranges.old.items }
    ensures ok { AreDivided rows.now result index.new ranges.new.items }
    ensures limit { index.new.leaves ≡ index.old.leaves }
{
    let all = LoadedRange {
        low: Key { src: 0, second: 0 },
        high: Key::END,
        rows,
    };
    let (here, _) = all.split(FULL_LEAF);
    index.set_separators(here.low, cuts_of(here));
    index.is_index();
    put_range(ranges, 0, here);
    here.rows.len()
}

/// Gives leaves to all rows that are left.
fn fill_rest<'a>(
    index: &mut LeafIndex,
    ranges: &mut Vec<LoadedRange<'a>>,
    alloc: Global,
    rows: &'a [Row],
    first: usize,
) -> Result<(), RoomRefusal>
    requires sorted { AreSorted rows.now }
    requires within { AreWithin first_key end_key rows.now }
    requires divided { AreDivided rows.now first index.old ranges.old.items }
    ensures ok { OnOk result (AreDivided rows.now (length rows.now) index.new ranges.new.items) }
    ensures limit { OnOk result (index.new.leaves ≡ index.old.leaves) }
    ensures stop { IfErr result (λ refusal. IsFillStop refusal index.old rows.now) }
{
    let mut at = first;
    'leaves: while at < rows.len() {
        at = fill_next(index, ranges, alloc, rows, at)?;
    }
    Ok(())
}

/// Divides the rows of a load among so many leaves: they are in rising order of their keys, and each is settled. A leaf
/// has as many as the density limits allow.
pub fn divide_rows(
    alloc: Global,
    leaves: u32,
    rows: &[Row],
) -> Result<LoadedLeaves<'_>, RoomRefusal>
    requires some { 1 ≤ leaves }
    requires few { leaves ≤ MAX_LEAVES }
    requires rising { AreRising rows.now }
    ensures ok { IfOk result (λ loaded. AreLaid leaves rows.now loaded.index loaded.ranges.items) }
    ensures full { IfErr result (λ refusal. IsFillRefusal leaves rows.now refusal) }
{
    let mut index = LeafIndex::new(alloc, leaves)?;
    let mut ranges = idle_ranges(alloc, leaves, rows)?;
    let first = fill_first(&mut index, &mut ranges, rows);
    fill_rest(&mut index, &mut ranges, alloc, rows, first)?;
    Ok(LoadedLeaves { index, ranges })
}
