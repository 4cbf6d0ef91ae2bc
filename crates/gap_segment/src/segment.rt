//! Rows in one block of memory, sorted by key.
//!
//! 1. Keys strictly rise, from the low fence key on and below the high one.
//! 2. There is room for 32 rows at any time.

ghost use Rattle.std.specs.Prelude.{◌≡◌, ◌==◌, ◌+◌, ◌-◌, ◌*◌, ◌^◌, ◌<◌, ◌≤◌, if◌then◌else◌, true, false, [], ◌++◌, length, take, drop, insert, remove, slice_get, IfOk, IfSome, Some};
ghost use Rattle.std.specs.Vec.{vec_capacity};
ghost use Rattle.graph_model.specs.Rows.{is_below, is_between};
ghost use Rattle.graph_model.specs.declared.limits.TheConstants.{SEGMENT_ROWS};
ghost use Rattle.gap_segment.specs.Fenced.{AreBelow, AreFenced, AreSorted, AreWithin, IsPlaceOf, IsGapFor, IsFound, rows_between, with_weight, first_key_or, front_of, back_of, joined, nothing_at};

use graph_model::{Key, NoMemory, Row, SEGMENT_ROWS};
use std::alloc::Global;
use std::marker::Model;

/// At most 32 rows between a low fence key, which a row may have, and a high one, which none has.
#[derive(Drop)]
pub struct Segment {
    /// No row has a key below it.
    pub(crate) low: Key,
    /// All rows have keys below it.
    pub(crate) high: Key,
    /// In rising order of their keys.
    pub(crate) rows: Vec<Row>,
}

impl Model for Segment {
    ghost use Rattle.std.specs.Prelude.{◌≤◌, length};
    ghost use Rattle.std.specs.Vec.{vec_capacity};
    ghost use Rattle.gap_segment.specs.Fenced.{FencedRows, AreFenced};

    ghost Value = { FencedRows };

    ghost view = { λ s. record { low = s.low; high = s.high; rows = s.rows.items } };

    ghost invariant = { λ s. AreFenced (record { low = s.low; high = s.high; rows = s.rows.items })
        × (length s.rows.items ≤ 32) × (32 ≤ vec_capacity s.rows) };
}

impl Segment {
    /// No rows between these fence keys. Takes the memory of all rows that it will ever have.
    pub fn new(alloc: Global, low: Key, high: Key) -> Result<Segment, NoMemory>
        requires { is_below high low ≡ false }
        ensures { IfOk result (λ s. s ≡ record { low = low; high = high; rows = [] }) }
    {
        let rows = Vec::with_capacity(alloc, SEGMENT_ROWS)?;
        Ok(Segment { low, high, rows })
    }

    /// The low fence key. A row may have it.
    pub fn low(&self) -> Key
        ensures { result ≡ self.now.low }
    {
        self.low
    }

    /// The high fence key. Each row is below it.
    pub fn high(&self) -> Key
        ensures { result ≡ self.now.high }
    {
        self.high
    }

    pub fn len(&self) -> usize
        ensures len { result ≡ length self.now.rows }
        ensures small { result ≤ SEGMENT_ROWS }
    {
        self.rows.len()
    }

    pub fn is_empty(&self) -> bool
        ensures { result ≡ (length self.now.rows == 0) }
    {
        self.rows.is_empty()
    }

    /// What holds of each segment.
    pub fn is_fenced(&self)
        ensures fenced { AreFenced self.now }
        ensures small { length self.now.rows ≤ SEGMENT_ROWS }
    {
        let _ = &self.rows;
    }

    /// Lends all rows.
    pub fn rows(&self) -> &[Row]
        ensures rows { result.now ≡ self.now.rows }
        ensures fenced { AreFenced self.now }
    {
        self.rows.as_slice()
    }

    /// The place of the key's row, or the one where it would stand.
    pub fn find(&self, key: Key) -> Result<usize, usize>
        ensures { IsFound self.now.rows key result }
    {
        find_in(self.rows.as_slice(), key)
    }

    /// The same, for a caller that found the key before: two rows tell whether it stands at that place, or would stand
    /// there, and else all rows are searched. Any place is allowed, a wrong one costs time alone.
    pub fn find_near(&self, key: Key, near: usize) -> Result<usize, usize>
        ensures { IsFound self.now.rows key result }
    {
        let rows = self.rows.as_slice();
        match find_at(rows, key, near) {
            Some(found) => found,
            None => find_in(rows, key),
        }
    }

    /// The sum of what a look-up reads first. Whoever keeps it keeps a compiler from leaving out the reads.
    pub fn sum_ahead(&self) -> u64 {
        let rows = self.rows.as_slice();
        let quarter = rows.len() / 4;
        if quarter == 0 {
            return rows.len() as u64;
        }
        rows[quarter - 1]
            .key
            .src
            .wrapping_add(rows[2 * quarter - 1].key.src)
            .wrapping_add(rows[3 * quarter - 1].key.src)
    }

    /// The sum of what a look-up of the key reads after that: of the rows in the key's quarter, and where a row comes
    /// of all that would have to move.
    pub fn sum_near(&self, key: Key, row_comes: bool) -> u64 {
        let rows = self.rows.as_slice();
        let quarter = rows.len() / 4;
        if quarter == 0 {
            return 0;
        }
        let mut start = 0;
        if is_below(rows[quarter - 1].key, key) {
            start = quarter;
        }
        if is_below(rows[2 * quarter - 1].key, key) {
            start = 2 * quarter;
        }
        if is_below(rows[3 * quarter - 1].key, key) {
            start = 3 * quarter;
        }
        let count = if row_comes {
            rows.len() - start
        } else {
            quarter + 3
        };
        sum_of_some(rows, start, count)
    }

    /// Puts a row at the place where it has to stand.
    pub fn insert_at(&mut self, place: usize, row: Row)
        requires room { length self.old.rows < SEGMENT_ROWS }
        requires within { is_between self.old.low self.old.high row.key ≡ true }
        requires gap { IsGapFor self.old.rows row.key place }
        ensures { self.new ≡ record self.old { rows = insert self.old.rows place row } }
    {
        match self.rows.insert(place, row) {
            Ok(()) => {}
            Err(_) => unreachable!(),
        }
    }

    /// Takes the row at the place away.
    pub fn remove_at(&mut self, place: usize) -> Row
        requires { place < length self.old.rows }
        ensures row { slice_get self.old.rows place ≡ Some result }
        ensures removed { self.new ≡ record self.old { rows = remove self.old.rows place } }
    {
        self.rows.remove(place)
    }

    /// Gives the row at the place another weight.
    pub fn set_at(&mut self, place: usize, weight: u64)
        requires { place < length self.old.rows }
        ensures { self.new ≡ record self.old { rows = with_weight self.old.rows place weight } }
    {
        self.rows[place].weight = weight;
    }

    /// Lends the rows of a key range. None is copied.
    pub fn run(&self, from: Key, until: Key) -> &[Row]
        ensures { result.now ≡ rows_between from until self.now.rows }
    {
        run_in(self.rows.as_slice(), from, until)
    }

    /// Moves the rows from the place on into an empty segment. The fence key between both is that of the first moved
    /// row, or the high one where none is moved. Leaves divide their rows by `share`, and don't call it.
    pub fn split_off(&mut self, place: usize, right: &mut Segment)
        requires place { place ≤ length self.old.rows }
        requires empty { right.old.rows ≡ [] }
        ensures stayed { self.new ≡ front_of self.old place }
        ensures moved { right.new ≡ back_of self.old place }
    {
        let (_, moved) = self.rows.as_slice().split_at(place);
        let cut = first_key(moved, self.high);
        copy_rows(&mut right.rows, moved);
        right.low = cut;
        right.high = self.high;
        self.rows.truncate(place);
        self.high = cut;
    }

    /// Moves all rows of the next segment to the end of this one, which gets its range too. The other is
    /// left empty at its high fence key. Leaves bring rows together by `share`, and don't call it.
    pub fn append(&mut self, right: &mut Segment)
        requires neighbours { self.old.high ≡ right.old.low }
        requires room { length self.old.rows + length right.old.rows ≤ SEGMENT_ROWS }
        ensures gained { self.new ≡ joined self.old right.old }
        ensures emptied { right.new ≡ nothing_at right.old.high }
    {
        self.high = right.high;
        copy_rows(&mut self.rows, right.rows.as_slice());
        right.rows.clear();
        right.low = right.high;
    }

    /// Moves rows between two neighbours at once, so that this one has the first so many of both. The fence key
    /// between them is that of the other one's first row, or the high one where it has none.
    pub fn share(&mut self, right: &mut Segment, count: usize)
        requires neighbours { self.old.high ≡ right.old.low }
        requires count { count ≤ length self.old.rows + length right.old.rows }
        requires room { length self.old.rows < count → count ≤ SEGMENT_ROWS }
        requires right_room { count < length self.old.rows
            → length self.old.rows + length right.old.rows ≤ count + SEGMENT_ROWS }
        ensures left { self.new ≡ front_of (joined self.old right.old) count }
        ensures right { right.new ≡ back_of (joined self.old right.old) count }
    {
        share_rows(&mut self.rows, &mut right.rows, count);
        let cut = first_key(right.rows.as_slice(), right.high);
        right.low = cut;
        self.high = right.low;
    }

    /// Sets both fence keys.
    pub fn set_fences(&mut self, low: Key, high: Key)
        requires fences { is_below high low ≡ false }
        requires within { AreWithin low high self.old.rows }
        ensures { self.new ≡ record self.old { low = low; high = high } }
    {
        self.low = low;
        self.high = high;
    }
}

/// Divides the rows of both anew, so that the left one has the first so many.
fn share_rows(left: &mut Vec<Row>, right: &mut Vec<Row>, count: usize)
    requires count { count ≤ length left.old.items + length right.old.items }
    requires room { length left.old.items < count → count ≤ vec_capacity left.old }
    requires right_room { count < length left.old.items
        → length left.old.items + length right.old.items ≤ count + vec_capacity right.old }
    ensures left { left.new.items ≡ take count (left.old.items ++ right.old.items) }
    ensures right { right.new.items ≡ drop count (left.old.items ++ right.old.items) }
    ensures left_capacity { vec_capacity left.old ≤ vec_capacity left.new }
    ensures right_capacity { vec_capacity right.old ≤ vec_capacity right.new }
{
    let has = left.len();
    if count < has {
        give_rows(left, right, count);
    } else {
        take_rows(left, right, count - has);
    }
}

/// Moves the rows from a place on to the front of others, which have room for them.
fn give_rows(left: &mut Vec<Row>, right: &mut Vec<Row>, place: usize)
    requires place { place ≤ length left.old.items }
    requires room { length left.old.items + length right.old.items ≤ place + vec_capacity right.old }
    ensures left { left.new.items ≡ take place left.old.items }
    ensures right { right.new.items ≡ drop place left.old.items ++ right.old.items }
    ensures left_capacity { vec_capacity left.old ≤ vec_capacity left.new }
    ensures right_capacity { vec_capacity right.old ≤ vec_capacity right.new }
{
    let (_, moved) = left.as_slice().split_at(place);
    let count = moved.len();
    // The rows that stand there make way, from the last one on, and those that come are laid before them. A rotation
    // would move each row several times.
    let has = right.len();
    copy_rows(right, moved);
    right.copy_within(0..has, count);
    lay_front(right, moved);
    left.truncate(place);
}

/// Moves the first rows of others to the end of these, which have room for them.
fn take_rows(left: &mut Vec<Row>, right: &mut Vec<Row>, count: usize)
    requires count { count ≤ length right.old.items }
    requires room { length left.old.items + count ≤ vec_capacity left.old }
    ensures left { left.new.items ≡ left.old.items ++ take count right.old.items }
    ensures right { right.new.items ≡ drop count right.old.items }
    ensures left_capacity { vec_capacity left.old ≤ vec_capacity left.new }
    ensures right_capacity { vec_capacity right.old ≤ vec_capacity right.new }
{
    let (moved, rest) = right.as_slice().split_at(count);
    let left_over = rest.len();
    copy_rows(left, moved);
    // From the first one on, and none is moved twice.
    right.copy_within(count.., 0);
    right.truncate(left_over);
}

/// Puts the rows in place of as many first ones.
fn lay_front(rows: &mut [Row], front: &[Row])
    requires { length front.now ≤ length rows.old }
    ensures { rows.new ≡ front.now ++ drop (length front.now) rows.old }
{
    let (place, _) = rows.split_at_mut(front.len());
    place.copy_from_slice(front);
}

/// Puts the rows at the end, within the vector's room.
pub(crate) fn copy_rows(rows: &mut Vec<Row>, more: &[Row])
    requires { length rows.old.items + length more.now ≤ vec_capacity rows.old }
    ensures rows { rows.new.items ≡ rows.old.items ++ more.now }
    ensures capacity { vec_capacity rows.old ≤ vec_capacity rows.new }
{
    match rows.extend_from_slice(more) {
        Ok(()) => {}
        Err(_) => unreachable!(),
    }
}

/// The key of the first row, or the other key where there is none.
fn first_key(rows: &[Row], other: Key) -> Key
    ensures { result ≡ first_key_or rows.now other }
{
    match rows {
        [first, ..] => first.key,
        [] => other,
    }
}

/// The sum of each other row from a place on, among so many, which takes a look at each line of their memory.
fn sum_of_some(rows: &[Row], start: usize, count: usize) -> u64 {
    let end = start.saturating_add(count).min(rows.len());
    let mut sum: u64 = 0;
    let mut place = start;
    'rows: while place < end {
        sum = sum.wrapping_add(rows[place].key.src);
        // A line of the cache is longer than two rows, so a look at each other row reads them all.
        place += 2;
    }
    sum
}

/// Whether the key's row stands at the place, or would stand there; nothing where it is elsewhere.
fn find_at(rows: &[Row], key: Key, place: usize) -> Option<Result<usize, usize>>
    requires { AreSorted rows.now }
    ensures { IfSome result (IsFound rows.now key) }
{
    match rows.get(place) {
        Some(row) if row.key == key => Some(Ok(place)),
        Some(row) if is_below(key, row.key) && are_below(rows, key, place) => Some(Err(place)),
        None if place == rows.len() && are_below(rows, key, place) => Some(Err(place)),
        _ => None,
    }
}

/// Whether the rows before a place are below the key, as the last of them tells.
fn are_below(rows: &[Row], key: Key, place: usize) -> bool
    requires sorted { AreSorted rows.now }
    requires within { place ≤ length rows.now }
    ensures { result ≡ true → AreBelow key (take place rows.now) }
{
    place == 0 || is_below(rows[place - 1].key, key)
}

/// Looks the key up by halves.
fn find_in(rows: &[Row], key: Key) -> Result<usize, usize>
    requires { AreSorted rows.now }
    ensures { IsFound rows.now key result }
{
    let place = place_in(rows, key);
    match rows.get(place) {
        Some(row) if row.key == key => Ok(place),
        _ => Err(place),
    }
}

/// How many rows are below the key. Each step looks at the last rows of three quarters at once, and adds up what
/// it finds. There is no branch on a key, since every other one would be foretold wrongly.
fn place_in(rows: &[Row], key: Key) -> usize
    requires { AreSorted rows.now }
    ensures { IsPlaceOf rows.now key result }
{
    let mut place = 0;
    let mut count = rows.len();
    'quarters: while count >= 4 {
        let quarter = count / 4;
        // A number is added and no branch is taken: every other branch on a key would be foretold wrongly.
        let first = one_if_below(rows[place + quarter - 1].key, key);
        let second = one_if_below(rows[place + 2 * quarter - 1].key, key);
        let third = one_if_below(rows[place + 3 * quarter - 1].key, key);
        place += (first + second + third) * quarter;
        count -= 3 * quarter;
    }
    let mut found = place;
    'rest: for i in place..place + count {
        found += one_if_below(rows[i].key, key);
    }
    found
}

/// One where the first key is below the second, and else nothing.
fn one_if_below(low: Key, high: Key) -> usize
    ensures { result ≡ (if is_below low high then 1 else 0) }
{
    is_below(low, high) as usize
}

/// Whether the first key is below the second, found without a branch on their parts.
fn is_below(low: Key, high: Key) -> bool
    ensures { result ≡ is_below low high }
{
    number_of(low) < number_of(high)
}

/// The key as one number, which is in the same order.
fn number_of(key: Key) -> u128
    ensures { result ≡ key.src * 2 ^ 64 + key.second }
{
    u128::from(key.src) * 18446744073709551616 + u128::from(key.second)
}

/// The rows of a key range, as a part of the slice.
fn run_in(rows: &[Row], from: Key, until: Key) -> &[Row]
    requires { AreSorted rows.now }
    ensures { result.now ≡ rows_between from until rows.now }
{
    let first = cut_in(rows, from);
    let end = cut_in(rows, until);
    &rows[first..end.max(first)]
}

/// How many rows are below the key, which is mostly below all of them or above.
fn cut_in(rows: &[Row], key: Key) -> usize
    requires { AreSorted rows.now }
    ensures { IsPlaceOf rows.now key result }
{
    match rows {
        [first, ..] if !is_below(first.key, key) => 0,
        [.., last] if is_below(last.key, key) => rows.len(),
        _ => place_in(rows, key),
    }
}
