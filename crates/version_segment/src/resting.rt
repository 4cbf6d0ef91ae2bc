//! Segments at rest, whose rows and fence keys lie elsewhere.
//!
//! 1. At rest a segment keeps where the records of its rows begin, and the records, in one box. It has no room for
//!    rows, and where all of them are settled no box.
//! 2. Its rows are handed out in the room that they had, with value words in place of weights, and it wakes with them
//!    in any room for rows.
//! 3. No call takes memory.

ghost use Rattle.std.specs.Prelude.{◌≡◌, ◌++◌, ◌≤◌, ◌<◌, ◌==◌, ℕ, true, [], length, slice_get, Some, IfSome};
ghost use Rattle.std.specs.List.{AllByRecursion};
ghost use Rattle.graph_model.specs.declared.limits.TheConstants.{SEGMENT_ROWS};
ghost use Rattle.row_table.specs.HeadMap.Heads.{heads_placed};
ghost use Rattle.store_model.specs.Stamped.{read_stamped};
ghost use Rattle.row_table.specs.UndoChain.States.{Grows};
ghost use Rattle.row_table.specs.Checks.{AreNamedRows, IsNamed};
ghost use Rattle.row_table.specs.Rows.{range_of, rows_read};
ghost use Rattle.version_segment.specs.Resting.{RestingRow, resting_of, settled_rest, stamped_rest, value_in_word, with_newest, word_rows, HasSmallWeights, CanSettle, CanWake, woken, woken_row, woken_rows, AgreesWith, AgreeWith, AreErased};
ghost use Rattle.version_segment.specs.RestingParts.{AreRestingParts, AreSmallAt, PlaceSettles, StampsFrom, StampsRow, plain_rows, placed_words, seen_row};
ghost use Rattle.row_table.specs.Lists.{AreHeads};

use crate::buffer::Rows32;
use crate::segment::VersionSegment;
use crate::value_word::{is_marked, value_in_word, value_word, weight_in_word};
use gap_segment::Segment;
use graph_model::{Key, Row, TxnName};
use row_table::RowTable;
use row_table::below::{HeadMap, RestingHeads, Snapshot, States};
use std::alloc::Global;
use std::marker::Model;

/// A segment without its rows and fence keys: their records, and how many rows there are. It takes 16 bytes, and a box
/// where a row is changed.
#[derive(Drop)]
pub struct Resting {
    heads: RestingHeads,
}

const _: () = prove!(size_of::<Resting>() == 16);

impl Model for Resting {
    ghost use Rattle.std.specs.Prelude.{◌≤◌};
    ghost use Rattle.row_table.specs.HeadMap.Heads.{heads_placed};
    ghost use Rattle.version_segment.specs.Resting.{RestingRows};
    ghost use Rattle.version_segment.specs.RestingParts.{resting_view, AreRestingParts};

    ghost Value = { RestingRows };

    ghost view = { λ r. resting_view r.heads.chains r.heads.heads r.heads.count };

    ghost invariant = { λ r. AreRestingParts r.heads.chains (heads_placed r.heads.heads.entries) r.heads.count
        × (r.heads.count ≤ 32) };
}

impl Resting {
    /// What is left of so many settled rows: nothing beside their number.
    pub fn settled(alloc: Global, count: usize) -> Resting
        requires { count ≤ SEGMENT_ROWS }
        ensures { result.rows ≡ settled_rest count }
    {
        Resting {
            heads: RestingHeads::settled(alloc, count),
        }
    }

    /// How many rows the segment had.
    pub fn len(&self) -> usize
        ensures { result ≡ length self.now.rows }
    {
        self.heads.count()
    }

    pub fn is_empty(&self) -> bool
        ensures { result ≡ (length self.now.rows == 0) }
    {
        self.len() == 0
    }

    /// Whether no row has a record. Then nothing is left of the rows but their number.
    pub fn is_settled(&self) -> bool
        ensures { result ≡ true → self.now.rows ≡ settled_rest (length self.now.rows) }
    {
        self.heads.is_settled()
    }

    /// The value of the row at a place for a snapshot, given the word that tells its newest value.
    pub fn read<S: States>(
        &self,
        place: usize,
        word: u64,
        snapshot: &Snapshot,
        states: &mut S,
    ) -> Option<u64>
        requires agrees { IfSome (slice_get self.now.rows place) (λ h. AgreesWith h word) }
        requires known { snapshot.now.start ≤ (S.knowledge states.old).known }
        requires named { IfSome (slice_get self.now.rows place)
            (λ h. IsNamed (S.knowledge states.old).names (with_newest (value_in_word word) h.versions)) }
        ensures value { IfSome (slice_get self.now.rows place)
            (λ h. result ≡ read_stamped (S.knowledge states.old).stamps snapshot.now.start snapshot.now.own
            (with_newest (value_in_word word) h.versions)) }
        ensures grows { Grows (S.knowledge states.old) (S.knowledge states.new) }
    {
        // Most rows have no undo records, and then nothing but the word is looked at.
        if is_marked(word) {
            self.read_records(place, word, snapshot, states)
        } else {
            Some(word)
        }
    }

    /// The same by its undo records.
    fn read_records<S: States>(
        &self,
        place: usize,
        word: u64,
        snapshot: &Snapshot,
        states: &mut S,
    ) -> Option<u64>
        requires known { snapshot.now.start ≤ (S.knowledge states.old).known }
        requires named { IfSome (slice_get self.now.rows place)
            (λ h. IsNamed (S.knowledge states.old).names (with_newest (value_in_word word) h.versions)) }
        ensures value { IfSome (slice_get self.now.rows place)
            (λ h. result ≡ read_stamped (S.knowledge states.old).stamps snapshot.now.start snapshot.now.own
            (with_newest (value_in_word word) h.versions)) }
        ensures grows { Grows (S.knowledge states.old) (S.knowledge states.new) }
    {
        let row = self.heads.get(place);
        let newest = value_in_word(word);
        self.heads.value_at(row.undos, newest, snapshot, states)
    }

    /// Puts the rows of a key range that a snapshot sees into a buffer, given all rows, each with the word that tells
    /// its newest value.
    pub fn run_at<S: States>(
        &self,
        words: &[Row],
        from: Key,
        until: Key,
        snapshot: &Snapshot,
        states: &mut S,
        buffer: &mut Rows32,
    )
        requires count { length words.now ≡ length self.now.rows }
        requires agree { AgreeWith self.now.rows words.now }
        requires known { snapshot.now.start ≤ (S.knowledge states.old).known }
        requires named { AreNamedRows (S.knowledge states.old).names (woken_rows self.now.rows words.now) }
        ensures rows { buffer.new
            ≡ rows_read (read_stamped (S.knowledge states.old).stamps snapshot.now.start snapshot.now.own)
            (range_of from until (woken_rows self.now.rows words.now)) }
        ensures grows { Grows (S.knowledge states.old) (S.knowledge states.new) }
    {
        self.is_at_rest();
        buffer.clear();
        'rows: for place in 0..words.len() {
            read_one(
                self,
                place,
                words[place],
                from,
                until,
                snapshot,
                states,
                buffer,
            );
        }
    }

    /// Gives the records of a writer in all rows its commit stamp, where they have none. No word of a row changes.
    pub fn stamp(&mut self, by: TxnName, stamp: u64)
        ensures { self.new ≡ stamped_rest by stamp self.old }
    {
        stamp_all(&mut self.heads, by, stamp);
    }

    /// Whether each row has a value, and no record would be left by a prune at the horizon once this writer's have a
    /// stamp up to it. Only what is kept here is looked at, and nobody is asked for a writer.
    pub fn can_settle(&self, by: TxnName, horizon: u64) -> bool
        ensures { result ≡ true → CanSettle by horizon self.now.rows }
    {
        settle_all(&self.heads, by, horizon)
    }

    /// Whether each row has a value, so that no prune takes one away.
    pub fn has_values(&self) -> bool
        ensures { result ≡ true → AllByRecursion (λ h. h.has_value ≡ true) self.now.rows }
    {
        all_have_values(&self.heads)
    }

    /// What is left of as many rows once they are settled. The memory of their records is given back.
    pub fn settle(self) -> Resting
        ensures { result.rows ≡ settled_rest (length self.rows) }
    {
        Resting {
            heads: self.heads.settle(),
        }
    }

    /// The last place before this one whose row is changed. Between both no row has undo records.
    pub fn changed_before(&self, place: usize) -> Option<usize>
        ensures below { IfSome result (λ p. p < place) }
        ensures between { (p : ℕ) (h : RestingRow) → p < place → IfSome result (λ last. last < p)
            → slice_get self.now.rows p ≡ Some h → h.versions.pairs ≡ [] }
    {
        self.heads.last_before(place)
    }

    /// What holds of each segment at rest.
    pub fn is_at_rest(&self)
        ensures small { length self.now.rows ≤ SEGMENT_ROWS }
        ensures erased { AreErased self.now.rows }
    {
        let _ = &self.heads;
    }
}

impl VersionSegment {
    /// Lays the segment to rest. Its rows come in the room that they had, between its fence keys, each with its value
    /// word in place of a weight. Where all rows are settled the memory of records is given back.
    pub fn rest(self) -> (Resting, Segment)
        requires weights { HasSmallWeights self }
        ensures resting { result.0.rows ≡ (resting_of self).rows }
        ensures words { result.1 ≡ record { low = self.low; high = self.high; rows = word_rows self } }
    {
        let VersionSegment {
            rows: table,
            chains,
        } = self;
        let (mut room, heads) = table.into_parts();
        put_words(&heads, &mut room);
        let count = room.len();
        let kept = heads.rest(chains, count);
        let resting = Resting { heads: kept };
        (resting, room)
    }

    /// Wakes a segment at rest, with these fence keys and rows, each of which has its value word in place of a weight,
    /// and with this room for rows.
    pub fn wake(
        resting: Resting,
        low: Key,
        high: Key,
        rows: &[Row],
        room: Segment,
    ) -> VersionSegment
        requires room { room.rows ≡ [] }
        requires agree { CanWake resting low high rows.now }
        ensures woken { result ≡ woken resting low high rows.now }
    {
        let (heads, chains, _) = resting.heads.wake();
        let mut room = room;
        room.fill(low, high, rows);
        put_weights(&heads, &mut room);
        VersionSegment {
            rows: RowTable::of_parts(room, heads),
            chains,
        }
    }
}

/// Puts the row at a place into a buffer, if it stands in the range and the snapshot sees it.
fn read_one<S: States>(
    resting: &Resting,
    place: usize,
    row: Row,
    from: Key,
    until: Key,
    snapshot: &Snapshot,
    states: &mut S,
    buffer: &mut Rows32,
)
    requires room { length buffer.old < 32 }
    requires agrees { IfSome (slice_get resting.now.rows place) (λ h. AgreesWith h row.weight) }
    requires known { snapshot.now.start ≤ (S.knowledge states.old).known }
    requires named { IfSome (slice_get resting.now.rows place)
        (λ h. IsNamed (S.knowledge states.old).names (woken_row h row).1) }
    ensures rows { IfSome (slice_get resting.now.rows place) (λ h. buffer.new ≡ buffer.old
        ++ seen_row (read_stamped (S.knowledge states.old).stamps snapshot.now.start snapshot.now.own) from until h row) }
    ensures grows { Grows (S.knowledge states.old) (S.knowledge states.new) }
{
    if row.key.is_below(from) || !row.key.is_below(until) {
        return;
    }
    let value = resting.read(place, row.weight, snapshot, states);
    buffer.push_value(row.key, value);
}

/// Stamps the records of all rows.
fn stamp_all(heads: &mut RestingHeads, by: TxnName, stamp: u64)
    requires { AreRestingParts heads.old.chains (heads_placed heads.old.heads.entries) heads.old.count }
    ensures stamped { StampsFrom by stamp (heads_placed heads.old.heads.entries) 0 heads.old.chains heads.new.chains }
    ensures heads { heads.new.heads ≡ heads.old.heads }
    ensures count { heads.new.count ≡ heads.old.count }
{
    let mut end = heads.count();
    'rows: while let Some(place) = heads.last_before(end) {
        stamp_at(heads, place, by, stamp);
        end = place;
    }
}

/// Stamps those of the row at a place.
fn stamp_at(heads: &mut RestingHeads, place: usize, by: TxnName, stamp: u64)
    requires { AreHeads heads.old.chains (heads_placed heads.old.heads.entries place) }
    ensures stamped { StampsRow by stamp heads.old.chains heads.new.chains
        (heads_placed heads.old.heads.entries place) }
    ensures heads { heads.new.heads ≡ heads.old.heads }
    ensures count { heads.new.count ≡ heads.old.count }
{
    let row = heads.get(place);
    heads.stamp(row.undos, by, stamp);
    heads.stamp(row.touches, by, stamp);
}

/// Whether all rows settle.
fn settle_all(heads: &RestingHeads, by: TxnName, horizon: u64) -> bool
    requires { (p : ℕ) → AreHeads heads.now.chains (heads_placed heads.now.heads.entries p) }
    ensures { result ≡ true → (p : ℕ) → p < heads.now.count
        → PlaceSettles by horizon heads.now.chains (heads_placed heads.now.heads.entries p) }
{
    let mut end = heads.count();
    'rows: while let Some(place) = heads.last_before(end) {
        if !settles_at(heads, place, by, horizon) {
            return false;
        }
        end = place;
    }
    true
}

/// Whether the row at a place settles.
fn settles_at(heads: &RestingHeads, place: usize, by: TxnName, horizon: u64) -> bool
    requires { AreHeads heads.now.chains (heads_placed heads.now.heads.entries place) }
    ensures { result ≡ true → PlaceSettles by horizon heads.now.chains (heads_placed heads.now.heads.entries place) }
{
    let row = heads.get(place);
    if !row.has_value || heads.has_outlasting(row.undos, by, horizon) {
        return false;
    }
    !heads.has_outlasting(row.touches, by, horizon)
}

/// Whether all rows have values.
fn all_have_values(heads: &RestingHeads) -> bool
    ensures { result ≡ true → (p : ℕ) → p < heads.now.count
        → (heads_placed heads.now.heads.entries p).has_value ≡ true }
{
    let mut end = heads.count();
    'rows: while let Some(place) = heads.last_before(end) {
        if !heads.get(place).has_value {
            return false;
        }
        end = place;
    }
    true
}

/// Gives each row the word of its value. Settled rows have it: it is their weight. So changed rows alone are looked at.
fn put_words(heads: &HeadMap, room: &mut Segment)
    requires small { AreSmallAt (heads_placed heads.now.entries) room.old.rows }
    ensures { room.new ≡ record room.old { rows = placed_words heads.now.entries room.old.rows } }
{
    let mut end = room.len();
    'words: while let Some(place) = heads.last_before(end) {
        let all = room.rows();
        let row = all[place];
        let word = value_word(heads.get(place), row.weight);
        room.set_at(place, word);
        end = place;
    }
}

/// Gives each row the weight that its word tells. Where all rows are settled they have it.
fn put_weights(heads: &HeadMap, room: &mut Segment)
    requires settled { heads.now.entries ≡ [] → plain_rows room.old.rows ≡ room.old.rows }
    ensures { room.new ≡ record room.old { rows = plain_rows room.old.rows } }
{
    if heads.is_empty() {
        return;
    }
    let count = room.len();
    'words: for place in 0..count {
        let all = room.rows();
        let row = all[place];
        room.set_at(place, weight_in_word(row.weight));
    }
}
