//! Rows with their versions, between fence keys.
//!
//! 1. A row without records is settled: each snapshot sees its value, and no list is looked at.
//! 2. Memory for records is taken by `reserve` alone, so a write that has begun can't run out of it.
//! 3. A place that a caller gives is a guess: a wrong one costs a search.

ghost use Rattle.std.specs.Prelude.{◌≡◌, ◌+◌, ◌-◌, ◌<◌, ◌≤◌, ◌==◌, true, false, [], ◌∷◌, Some, length, slice_get, IfOk, OnOk, OnErr, IsOk, IsSomeAnd};
ghost use Rattle.graph_model.specs.declared.limits.TheConstants.{SEGMENT_ROWS};
ghost use Rattle.graph_model.specs.Rows.{is_below, is_between};
ghost use Rattle.store_model.specs.Stamped as stamped_versions;
ghost use Rattle.store_model.specs.Stamped.{read_stamped};
ghost use Rattle.row_table.specs.Checks.{IsNamed, AreNamedRows, IsChecked, cause_in, newest_of, newest_and_touches, drops_of};
ghost use Rattle.row_table.specs.UndoChain.Records.{new_record};
ghost use Rattle.row_table.specs.UndoChain.Chains.{list_at, IsHeadOf, ChangesOneList};
ghost use Rattle.row_table.specs.UndoChain.States.{Grows};
ghost use Rattle.row_table.specs.UndoChainDeclared.touched.Touched.TheVariants.{Never};
ghost use Rattle.row_table.specs.Rows.{versions_at, has_row, has_record, records_in, rows_at, all_records, PrunesRows, ChangesKey, IsSegment, IsSameSegment, written, undone, touched, untouched, newest_writer};

use crate::buffer::Rows32;
use graph_model::{Cause, Key, NoMemory, Row, SEGMENT_ROWS, TxnName};
use row_table::below::{Chains, Snapshot, States, Touched};
use row_table::{FoundRow, NOWHERE, RowTable, find_row, insert_row, prune_row, set_row, value_in};
use std::alloc::Global;
use std::marker::Model;

/// A write lays at most so many records in a segment: two touches, and one in each of two rows.
const WRITE_RECORDS: usize = 4;

/// At most 32 rows with their versions, between a low fence key, which a row may have, and a high one, which
/// none has.
#[derive(Drop)]
pub struct VersionSegment {
    pub(crate) rows: RowTable,
    pub(crate) chains: Chains,
}

impl Model for VersionSegment {
    ghost use Rattle.row_table.specs.Rows.{VersionedRows};
    ghost use Rattle.row_table.specs.Parts.{view_of, AreParts};

    ghost Value = { VersionedRows };

    ghost view = { λ s. view_of s.rows.fenced s.rows.heads s.chains };

    ghost invariant = { λ s. AreParts s.rows.fenced s.rows.heads.entries s.chains };
}

impl VersionSegment {
    /// No rows between these fence keys. Takes the memory of all rows, and none for records.
    pub fn new(alloc: Global, low: Key, high: Key) -> Result<VersionSegment, NoMemory>
        requires { is_below high low ≡ false }
        ensures low { IfOk result (λ s. s.low ≡ low) }
        ensures high { IfOk result (λ s. s.high ≡ high) }
        ensures rows { IfOk result (λ s. s.rows ≡ []) }
    {
        let rows = RowTable::new(alloc, low, high)?;
        Ok(VersionSegment {
            rows,
            chains: Chains::new(alloc),
        })
    }

    /// The low fence key. A row may have it.
    pub fn low(&self) -> Key
        ensures { result ≡ self.now.low }
    {
        self.rows.segment().low()
    }

    /// The high fence key. Each row is below it.
    pub fn high(&self) -> Key
        ensures { result ≡ self.now.high }
    {
        self.rows.segment().high()
    }

    /// What holds of each segment.
    pub fn is_segment(&self)
        ensures { IsSegment self.now }
    {
        self.rows.segment().is_fenced();
    }

    /// How many rows there are.
    pub fn len(&self) -> usize
        ensures len { result ≡ length self.now.rows }
        ensures sound { IsSegment self.now }
    {
        self.rows.segment().len()
    }

    pub fn is_empty(&self) -> bool
        ensures { result ≡ (length self.now.rows == 0) }
    {
        self.rows.segment().is_empty()
    }

    /// How many more rows there is room for.
    pub fn room(&self) -> usize
        ensures { result + length self.now.rows ≡ SEGMENT_ROWS }
    {
        SEGMENT_ROWS - self.rows.segment().len()
    }

    /// Makes room for so many more records. Takes no memory where there is room already.
    pub fn reserve_records(&mut self, records: usize) -> Result<(), NoMemory>
        ensures ok { OnOk result (records ≤ self.new.spare) }
        ensures room { records ≤ self.old.spare → IsOk result }
        ensures kept { IsSameSegment self.old self.new }
        ensures spare { self.old.spare ≤ self.new.spare }
    {
        self.chains.reserve(records)?;
        self.rows.reserve(records)?;
        Ok(())
    }

    /// How many more records there is room for.
    pub fn spare(&self) -> usize
        ensures { result ≡ self.now.spare }
    {
        self.chains.spare().min(self.rows.spare())
    }

    /// Makes room for four writes or touches, and where that takes memory for four more.
    pub fn reserve(&mut self) -> Result<(), NoMemory>
        ensures ok { OnOk result (4 ≤ self.new.spare) }
        ensures room { 4 ≤ self.old.spare → IsOk result }
        ensures kept { IsSameSegment self.old self.new }
        ensures spare { self.old.spare ≤ self.new.spare }
    {
        if self.spare() >= WRITE_RECORDS {
            return Ok(());
        }
        self.reserve_records(2 * WRITE_RECORDS)
    }

    /// The key of the row at a place.
    pub fn key_at(&self, place: usize) -> Key
        requires { place < length self.now.rows }
        ensures { IsSomeAnd (slice_get self.now.rows place) (λ row. result ≡ row.0) }
    {
        self.rows.segment().rows()[place].key
    }

    /// How many undo records and touches the row at a place has.
    pub fn records_at(&self, place: usize) -> usize
        requires { place < length self.now.rows }
        ensures { IsSomeAnd (slice_get self.now.rows place) (λ row. result ≡ records_in row.1) }
    {
        if self.rows.is_settled() {
            return 0;
        }
        let key = self.rows.segment().rows()[place].key;
        let heads = self.rows.heads_at(key, place);
        self.chains.records_in_both(heads.undos, heads.touches)
    }

    /// Sets both fence keys of a segment that has no row.
    pub fn place_at(&mut self, at: Key)
        requires { self.old.rows ≡ [] }
        ensures { self.new ≡ record self.old { low = at; high = at } }
    {
        self.rows.set_fences(at, at);
    }

    /// The value of a key for a snapshot.
    pub fn read<S: States>(&self, key: Key, snapshot: &Snapshot, states: &mut S) -> Option<u64>
        requires known { snapshot.now.start ≤ (S.knowledge states.old).known }
        requires named { IsNamed (S.knowledge states.old).names (versions_at self.now key) }
        ensures value { result ≡ read_stamped (S.knowledge states.old).stamps snapshot.now.start snapshot.now.own
            (versions_at self.now key) }
        ensures grows { Grows (S.knowledge states.old) (S.knowledge states.new) }
    {
        self.row(key, NOWHERE).value(snapshot, states)
    }

    /// The rows of a key range for a snapshot. Where all rows of the range are settled they are lent as they stand,
    /// else the buffer is filled and lent.
    pub fn run_at<'a, S: States>(
        &'a self,
        from: Key,
        until: Key,
        snapshot: &Snapshot,
        states: &mut S,
        buffer: &'a mut Rows32,
    ) -> &'a [Row]
        requires known { snapshot.now.start ≤ (S.knowledge states.old).known }
        requires named { AreNamedRows (S.knowledge states.old).names self.now.rows }
        ensures rows { result.now ≡ rows_at (S.knowledge states.old).stamps snapshot.now from until self.now }
        ensures grows { Grows (S.knowledge states.old) (S.knowledge states.new) }
    {
        let run = self.rows.segment().run(from, until);
        if self.rows.are_settled(from, until) {
            return run;
        }
        // so the buffer has room for all of them
        self.rows.segment().is_fenced();
        buffer.clear();
        let mut place = self.rows.first_place(from);
        'rows: for row in run {
            let heads = self.rows.heads_at(row.key, place);
            place += 1;
            let base = value_in(heads, row.weight);
            let value = self.chains.value_at(heads.undos, base, snapshot, states);
            buffer.push_value(row.key, value);
        }
        buffer.as_slice()
    }

    /// Who stands against a write of a key's value: the newest writer.
    pub fn check<S: States>(
        &self,
        key: Key,
        snapshot: &Snapshot,
        states: &mut S,
    ) -> Result<(), Cause>
        requires { IsNamed (S.knowledge states.old).names (versions_at self.now key) }
        ensures checked { IsChecked (S.knowledge states.old) (S.knowledge states.new) snapshot.now
            (newest_of (versions_at self.now key)) (cause_in result) }
        ensures grows { Grows (S.knowledge states.old) (S.knowledge states.new) }
    {
        unless_met(self.row(key, NOWHERE).cause(snapshot, states))
    }

    /// Who stands against the removal of a key's vertex: the newest writer, and those who have added an edge there.
    pub fn check_drop<S: States>(
        &self,
        key: Key,
        snapshot: &Snapshot,
        states: &mut S,
    ) -> Result<(), Cause>
        requires { IsNamed (S.knowledge states.old).names (versions_at self.now key) }
        ensures checked { IsChecked (S.knowledge states.old) (S.knowledge states.new) snapshot.now
            (newest_and_touches (versions_at self.now key)) (cause_in result) }
        ensures grows { Grows (S.knowledge states.old) (S.knowledge states.new) }
    {
        unless_met(self.row(key, NOWHERE).removal_cause(snapshot, states))
    }

    /// Who stands against an edge at a key's vertex: those who have removed it.
    pub fn check_end<S: States>(
        &self,
        key: Key,
        snapshot: &Snapshot,
        states: &mut S,
    ) -> Result<(), Cause>
        requires { IsNamed (S.knowledge states.old).names (versions_at self.now key) }
        ensures checked { IsChecked (S.knowledge states.old) (S.knowledge states.new) snapshot.now
            (drops_of (versions_at self.now key)) (cause_in result) }
        ensures grows { Grows (S.knowledge states.old) (S.knowledge states.new) }
    {
        unless_met(self.row(key, NOWHERE).drop_cause(snapshot, states))
    }

    /// Gives the memory of spare records back, where all rows are settled.
    pub fn release(&mut self, alloc: Global)
        ensures { IsSameSegment self.old self.new }
    {
        if self.rows.is_settled() {
            self.rows.release(alloc);
            self.chains = Chains::new(alloc);
        }
    }

    /// Writes a value, or removes the one that is there, where nobody stands against it.
    pub fn write(&mut self, key: Key, value: Option<u64>, by: TxnName)
        requires within { is_between self.old.low self.old.high key ≡ true }
        requires spare { 0 < self.old.spare }
        requires room { has_row self.old key ≡ false → length self.old.rows < SEGMENT_ROWS }
        ensures written { ChangesKey self.old self.new key (written by value (versions_at self.old key)) }
        ensures spare { self.old.spare ≤ self.new.spare + 1 }
    {
        self.write_near(key, NOWHERE, value, by);
    }

    /// The same, where the key may stand near a place.
    pub(crate) fn write_near(&mut self, key: Key, near: usize, value: Option<u64>, by: TxnName)
        requires within { is_between self.old.low self.old.high key ≡ true }
        requires spare { 0 < self.old.spare }
        requires room { has_row self.old key ≡ false → length self.old.rows < SEGMENT_ROWS }
        ensures written { ChangesKey self.old self.new key (written by value (versions_at self.old key)) }
        ensures spare { self.old.spare ≤ self.new.spare + 1 }
    {
        match find_row(&self.rows, key, near) {
            Ok(row) => {
                let undos = put_record(&mut self.chains, row.undos, by, row.value);
                let row = FoundRow {
                    value,
                    undos: Some(undos),
                    ..row
                };
                set_row(&mut self.rows, &self.chains, key, row);
            }
            Err(place) => {
                let undos = put_record(&mut self.chains, None, by, None);
                let row = FoundRow {
                    place,
                    value,
                    undos: Some(undos),
                    touches: None,
                };
                insert_row(&mut self.rows, &self.chains, key, row);
            }
        }
    }

    /// Takes the newest write of a row back. Whose it is, only the contract reads.
    pub fn undo(&mut self, key: Key, by: TxnName)
        requires { newest_writer (versions_at self.old key).pairs ≡ Some by }
        ensures undone { ChangesKey self.old self.new key (undone (versions_at self.old key)) }
        ensures spare { self.old.spare ≤ self.new.spare }
    {
        let _ = by;
        let Ok(row) = find_row(&self.rows, key, NOWHERE) else {
            unreachable!()
        };
        let Some(head) = row.undos else {
            unreachable!()
        };
        let (value, undos) = self.chains.undo(head);
        let row = FoundRow {
            value,
            undos,
            ..row
        };
        set_row(&mut self.rows, &self.chains, key, row);
    }

    /// Notes that a transaction adds an edge at the row's vertex.
    pub fn touch(&mut self, key: Key, by: TxnName, earlier: Touched)
        requires row { has_row self.old key ≡ true }
        requires never { earlier ≡ Never → has_record by (versions_at self.old key).touches ≡ false }
        requires spare { 0 < self.old.spare }
        ensures touched { ChangesKey self.old self.new key (touched by (versions_at self.old key)) }
        ensures spare { self.old.spare ≤ self.new.spare + 1 }
    {
        self.touch_near(key, NOWHERE, by, earlier);
    }

    /// The same, where the key may stand near a place.
    pub(crate) fn touch_near(&mut self, key: Key, near: usize, by: TxnName, earlier: Touched)
        requires row { has_row self.old key ≡ true }
        requires never { earlier ≡ Never → has_record by (versions_at self.old key).touches ≡ false }
        requires spare { 0 < self.old.spare }
        ensures touched { ChangesKey self.old self.new key (touched by (versions_at self.old key)) }
        ensures spare { self.old.spare ≤ self.new.spare + 1 }
    {
        let Ok(row) = find_row(&self.rows, key, near) else {
            unreachable!()
        };
        let Ok(touches) = self.chains.touch(row.touches, by, earlier) else {
            unreachable!()
        };
        let row = FoundRow {
            touches: Some(touches),
            ..row
        };
        set_row(&mut self.rows, &self.chains, key, row);
    }

    /// Takes a transaction's touch of a row away, if there is one.
    pub fn untouch(&mut self, key: Key, by: TxnName)
        requires { has_row self.old key ≡ true }
        ensures untouched { ChangesKey self.old self.new key (untouched by (versions_at self.old key)) }
        ensures spare { self.old.spare ≤ self.new.spare }
    {
        let Ok(row) = find_row(&self.rows, key, NOWHERE) else {
            unreachable!()
        };
        let touches = self.chains.untouch(row.touches, by);
        let row = FoundRow { touches, ..row };
        set_row(&mut self.rows, &self.chains, key, row);
    }

    /// Gives the records and touches of a writer in one row its commit stamp, if the row is there.
    pub fn stamp(&mut self, key: Key, by: TxnName, stamp: u64)
        ensures stamped { ChangesKey self.old self.new key
            (stamped_versions.stamp by stamp (versions_at self.old key)) }
        ensures spare { self.old.spare ≤ self.new.spare }
    {
        if let Ok(row) = find_row(&self.rows, key, NOWHERE) {
            self.chains.stamp(row.undos, by, stamp);
            self.chains.stamp(row.touches, by, stamp);
            set_row(&mut self.rows, &self.chains, key, row);
        }
    }

    /// Takes away what nobody can see from the horizon on, in all rows, and answers how many records went.
    pub fn prune<S: States>(&mut self, horizon: u64, states: &mut S) -> usize
        requires known { horizon ≤ (S.knowledge states.old).known }
        requires named { AreNamedRows (S.knowledge states.old).names self.old.rows }
        ensures pruned { PrunesRows (S.knowledge states.old).stamps horizon self.old self.new }
        ensures went { result + all_records self.new.rows ≡ all_records self.old.rows }
        ensures grows { Grows (S.knowledge states.old) (S.knowledge states.new) }
        ensures spare { self.old.spare ≤ self.new.spare }
    {
        if self.rows.is_settled() {
            return 0;
        }
        self.prune_each(horizon, states)
    }

    /// The same, by one changed row after the other, the last one first.
    fn prune_each<S: States>(&mut self, horizon: u64, states: &mut S) -> usize
        requires known { horizon ≤ (S.knowledge states.old).known }
        requires named { AreNamedRows (S.knowledge states.old).names self.old.rows }
        ensures pruned { PrunesRows (S.knowledge states.old).stamps horizon self.old self.new }
        ensures went { result + all_records self.new.rows ≡ all_records self.old.rows }
        ensures grows { Grows (S.knowledge states.old) (S.knowledge states.new) }
        ensures spare { self.old.spare ≤ self.new.spare }
    {
        let spare = self.chains.spare();
        let mut place = self.rows.segment().len();
        'rows: while let Some(changed) = self.rows.changed_before(place) {
            place = changed;
            prune_row(&mut self.rows, &mut self.chains, place, horizon, states);
        }
        self.chains.spare() - spare
    }
}

/// A write may be made unless somebody stands against it.
fn unless_met(cause: Option<Cause>) -> Result<(), Cause>
    ensures { cause_in result ≡ cause }
{
    match cause {
        Some(cause) => Err(cause),
        None => Ok(()),
    }
}

/// Puts a record in front of a list, where there is room for it.
fn put_record(chains: &mut Chains, head: Option<usize>, by: TxnName, older: Option<u64>) -> usize
    requires head { IsHeadOf chains.old head }
    requires room { 0 < chains.old.spare }
    ensures list { list_at chains.new (Some result) ≡ new_record by older ∷ list_at chains.old head }
    ensures others { ChangesOneList chains.old chains.new head (Some result) }
    ensures spare { chains.old.spare ≤ chains.new.spare + 1 }
{
    match chains.push(head, by, older) {
        Ok(key) => key,
        Err(_) => unreachable!(),
    }
}
