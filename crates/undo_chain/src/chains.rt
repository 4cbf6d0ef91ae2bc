//! Lists of undo records in one block of memory.
//!
//! 1. Each link leads to a record, no two links lead to one, and each list ends.
//! 2. A list begins where no link leads. So no two lists share a record.

ghost use Rattle.std.specs.Prelude.{◌≡◌, ◌+◌, ◌≤◌, ◌<◌, ◌==◌, true, false, [], ◌∷◌, length, map, Some, None, OnOk, OnErr, IfOk, IsOk, IsSome};
ghost use Rattle.std.specs.List.{list_any};
ghost use Rattle.undo_chain.specs.Records.{new_record, newest_of, value_of, TakesNewest, is_settled, has_writer, with_touch, without_touch, open_touches, unsettled_front, lacks_stamp, outlasts, stamped_by, upside_down};
ghost use Rattle.undo_chain.specs.States.{Grows, AreNamed};
ghost use Rattle.undo_chain.specs.Walks.{is_to_stamp, KeepsLists, Restamps};
ghost use Rattle.undo_chain.specs.declared.touched.Touched.TheVariants.{Never};
ghost use Rattle.undo_chain.specs.Chains.{ChainMap, record_at, unlinked, list_at, IsHead, IsHeadOf, IsLinkOf, AreApart, ChangesOneList, ChangesTwoLists, HandsOver};

use crate::link::Link;
use crate::slots::Slots;
use crate::states::{Snapshot, States};
use crate::touched::Touched;
use crate::undo::Undo;
use graph_model::{NoMemory, State, TxnName};
use std::alloc::Global;
use std::marker::Model;

/// The undo records of one segment.
#[derive(Drop)]
pub struct Chains {
    /// Under keys by which heads and records name them.
    records: Slots,
}

impl Model for Chains {
    ghost use Rattle.undo_chain.specs.Chains.{ChainMap};
    ghost use Rattle.undo_chain.specs.Links.{AreLinked};

    ghost Value = { ChainMap };

    ghost view = { λ c. c.records };

    ghost invariant = { λ c. AreLinked c.records.slots };
}

impl Chains {
    /// No records. Takes no memory.
    pub fn new(alloc: Global) -> Chains
        ensures slots { result.slots ≡ [] }
        ensures spare { result.spare ≡ 0 }
    {
        Chains {
            records: Slots::new(alloc),
        }
    }

    /// Makes room for so many more records. Takes no memory where there is room already.
    pub fn reserve(&mut self, records: usize) -> Result<(), NoMemory>
        ensures ok { OnOk result (records ≤ self.new.spare) }
        ensures room { records ≤ self.old.spare → IsOk result }
        ensures had_room { records ≤ self.old.spare → self.new ≡ self.old }
        ensures kept { self.new.slots ≡ self.old.slots }
        ensures spare { self.old.spare ≤ self.new.spare }
    {
        self.records.reserve(records)
    }

    /// How many more records there is room for.
    pub fn spare(&self) -> usize
        ensures { result ≡ self.now.spare }
    {
        self.records.spare()
    }

    /// The sum of what is read ahead of the next record. Whoever keeps it keeps a compiler from leaving out the reads.
    pub fn sum_ahead(&self) -> u64 {
        self.records.sum_ahead()
    }

    /// How many records a list has.
    pub fn records(&self, head: Option<usize>) -> usize
        requires { IsHeadOf self.now head }
        ensures { result ≡ length (list_at self.now head) }
    {
        let most = self.records.len();
        let mut link = head;
        'count: for count in 0..most {
            match link {
                Some(key) => link = self.record(key).next,
                None => return count,
            }
        }
        most
    }

    /// How many records two lists have together.
    pub fn records_in_both(&self, one: Option<usize>, other: Option<usize>) -> usize
        requires one { IsHeadOf self.now one }
        requires other { IsHeadOf self.now other }
        requires apart { AreApart one other }
        ensures { result ≡ length (list_at self.now one) + length (list_at self.now other) }
    {
        self.records.keys_can_be_named();
        self.records(one) + self.records(other)
    }

    /// A head in six bytes.
    pub fn link(&self, head: Option<usize>) -> Link
        requires { IsHeadOf self.now head }
        ensures { result ≡ head }
    {
        self.records.keys_can_be_named();
        Link::new(head)
    }

    /// The writer of the newest record.
    pub fn newest(&self, head: Option<usize>) -> Option<TxnName>
        requires { IsHeadOf self.now head }
        ensures { result ≡ newest_of (list_at self.now head) }
    {
        match head {
            Some(key) => Some(self.record(key).by),
            None => None,
        }
    }

    /// The value of a row for a snapshot. The row itself has the newest value, `base`.
    pub fn value_at<S: States>(
        &self,
        head: Option<usize>,
        base: Option<u64>,
        snapshot: &Snapshot,
        states: &mut S,
    ) -> Option<u64>
        requires head { IsHeadOf self.now head }
        requires known { snapshot.now.start ≤ (S.knowledge states.old).known }
        requires named { AreNamed (S.knowledge states.old).names (list_at self.now head) }
        ensures value { result
            ≡ value_of (S.knowledge states.old).stamps snapshot.now base (list_at self.now head) }
        ensures grows { Grows (S.knowledge states.old) (S.knowledge states.new) }
    {
        let mut value = base;
        let mut link = head;
        'read: while let Some(key) = link {
            let undo = self.record(key);
            if undo.by == snapshot.own || is_settled_by(&undo, snapshot.start, states) {
                return value;
            }
            value = undo.older;
            link = undo.next;
        }
        value
    }

    /// Puts a new record in front of a list, and answers the list's new head. Takes no memory where there
    /// is room already.
    pub fn push(
        &mut self,
        head: Option<usize>,
        by: TxnName,
        older: Option<u64>,
    ) -> Result<usize, NoMemory>
        requires { IsHeadOf self.old head }
        ensures ok { IfOk result (λ key. list_at self.new (Some key) ≡ new_record by older ∷ list_at self.old head) }
        ensures others { IfOk result (λ key. ChangesOneList self.old self.new head (Some key)) }
        ensures err { OnErr result (self.new.slots ≡ self.old.slots) }
        ensures room { 0 < self.old.spare → IsOk result }
        ensures spare { self.old.spare ≤ self.new.spare + 1 }
    {
        self.reserve(1)?;
        let undo = Undo {
            by,
            stamp: None,
            older,
            next: None,
            all_stamped: false,
        };
        Ok(self.put(undo, head))
    }

    /// Takes the newest record of a list away. Answers the value that the row had before, and the head of
    /// what is left.
    pub fn undo(&mut self, head: usize) -> (Option<u64>, Option<usize>)
        requires { IsHeadOf self.old (Some head) }
        ensures undone { TakesNewest (list_at self.old (Some head)) result.0 (list_at self.new result.1) }
        ensures others { ChangesOneList self.old self.new (Some head) result.1 }
        ensures spare { self.old.spare ≤ self.new.spare }
    {
        let undo = self.pop(head);
        (undo.older, undo.next)
    }

    /// Puts a touch among those of a list, unless the writer has one there, and answers the head.
    pub fn touch(
        &mut self,
        head: Option<usize>,
        by: TxnName,
        earlier: Touched,
    ) -> Result<usize, NoMemory>
        requires head { IsHeadOf self.old head }
        requires never { earlier ≡ Never → has_writer by (list_at self.old head) ≡ false }
        ensures ok { IfOk result (λ key. list_at self.new (Some key) ≡ with_touch by (list_at self.old head)) }
        ensures others { IfOk result (λ key. ChangesOneList self.old self.new head (Some key)) }
        ensures err { OnErr result (self.new.slots ≡ self.old.slots) }
        ensures room { 0 < self.old.spare → IsOk result }
        ensures spare { self.old.spare ≤ self.new.spare + 1 }
    {
        match (head, earlier) {
            (Some(first), Touched::Maybe) if self.has_writer(head, by) => Ok(first),
            _ => self.push(head, by, None),
        }
    }

    /// Takes a writer's touch away, if there is one, and answers the head.
    pub fn untouch(&mut self, head: Option<usize>, by: TxnName) -> Option<usize>
        requires { IsHeadOf self.old head }
        ensures list { list_at self.new result ≡ without_touch by (list_at self.old head) }
        ensures others { ChangesOneList self.old self.new head result }
        ensures spare { self.old.spare ≤ self.new.spare }
        ensures freed { self.new.spare + length (list_at self.new result)
            ≡ self.old.spare + length (list_at self.old head) }
    {
        if !self.has_writer(head, by) {
            return head;
        }
        let mut rest = head;
        let mut kept = None;
        'sift: while let Some(key) = rest {
            if self.record(key).by == by {
                rest = self.pop(key).next;
            } else {
                (rest, kept) = self.hand_over(key, kept);
            }
        }
        self.pour(kept, None)
    }

    /// Takes the newest record whose writer had committed by the horizon away, with all older ones, and
    /// answers the head of what is left.
    pub fn prune<S: States>(
        &mut self,
        head: Option<usize>,
        horizon: u64,
        states: &mut S,
    ) -> Option<usize>
        requires head { IsHeadOf self.old head }
        requires known { horizon ≤ (S.knowledge states.old).known }
        requires named { AreNamed (S.knowledge states.old).names (list_at self.old head) }
        ensures list { list_at self.new result
            ≡ unsettled_front (S.knowledge states.old).stamps horizon (list_at self.old head) }
        ensures others { ChangesOneList self.old self.new head result }
        ensures grows { Grows (S.knowledge states.old) (S.knowledge states.new) }
        ensures spare { self.old.spare ≤ self.new.spare }
        ensures freed { self.new.spare + length (list_at self.new result)
            ≡ self.old.spare + length (list_at self.old head) }
    {
        if !self.has_settled(head, horizon, states) {
            return head;
        }
        let mut rest = head;
        let mut kept = None;
        'keep: while let Some(key) = rest {
            let undo = self.record(key);
            if is_settled_by(&undo, horizon, states) {
                self.clear(rest);
                return self.pour(kept, None);
            }
            (rest, kept) = self.hand_over(key, kept);
        }
        self.pour(kept, None)
    }

    /// Takes the touches whose writers had committed by the horizon away, and answers the head.
    pub fn prune_touches<S: States>(
        &mut self,
        head: Option<usize>,
        horizon: u64,
        states: &mut S,
    ) -> Option<usize>
        requires head { IsHeadOf self.old head }
        requires known { horizon ≤ (S.knowledge states.old).known }
        requires named { AreNamed (S.knowledge states.old).names (list_at self.old head) }
        ensures list { list_at self.new result
            ≡ open_touches (S.knowledge states.old).stamps horizon (list_at self.old head) }
        ensures others { ChangesOneList self.old self.new head result }
        ensures grows { Grows (S.knowledge states.old) (S.knowledge states.new) }
        ensures spare { self.old.spare ≤ self.new.spare }
        ensures freed { self.new.spare + length (list_at self.new result)
            ≡ self.old.spare + length (list_at self.old head) }
    {
        if !self.has_settled(head, horizon, states) {
            return head;
        }
        let mut rest = head;
        let mut kept = None;
        'sift: while let Some(key) = rest {
            let undo = self.record(key);
            if is_settled_by(&undo, horizon, states) {
                rest = self.pop(key).next;
            } else {
                (rest, kept) = self.hand_over(key, kept);
            }
        }
        self.pour(kept, None)
    }

    /// Moves a list into another map, which has room for it, and answers its head there.
    pub fn move_to(&mut self, head: Option<usize>, to: &mut Chains) -> Option<usize>
        requires head { IsHeadOf self.old head }
        requires room { length (list_at self.old head) ≤ to.old.spare }
        ensures list { list_at to.new result ≡ list_at self.old head }
        ensures left { ChangesOneList self.old self.new head None }
        ensures gained { ChangesOneList to.old to.new None result }
        ensures spare { self.old.spare ≤ self.new.spare }
        ensures used { to.old.spare ≤ to.new.spare + length (list_at self.old head) }
    {
        let mut rest = head;
        let mut moved = None;
        'move_all: while let Some(key) = rest {
            let undo = self.pop(key);
            moved = Some(to.put(undo, moved));
            rest = undo.next;
        }
        to.pour(moved, None)
    }

    /// Gives the records of a writer in one list their commit stamp, where they have none. Records that are known to be
    /// stamped are at the end of the list, and aren't looked at.
    pub fn stamp(&mut self, head: Option<usize>, by: TxnName, stamp: u64)
        requires { IsHeadOf self.old head }
        ensures list { list_at self.new head ≡ map (stamped_by by stamp) (list_at self.old head) }
        ensures others { ChangesOneList self.old self.new head head }
        ensures spare { self.new.spare ≡ self.old.spare }
    {
        self.stamp_records(head, by, stamp);
        self.note_stamped(head);
    }

    /// Gives the records their stamp.
    fn stamp_records(&mut self, head: Option<usize>, by: TxnName, stamp: u64)
        requires { IsHeadOf self.old head }
        ensures list { list_at self.new head ≡ map (stamped_by by stamp) (list_at self.old head) }
        ensures others { ChangesOneList self.old self.new head head }
        ensures spare { self.new.spare ≡ self.old.spare }
    {
        let _ = &self.records;
        let mut link = head;
        'stamp_all: while let Some(key) = link {
            let undo = self.record(key);
            if undo.all_stamped {
                return;
            }
            if is_to_stamp(&undo, by) {
                self.set_stamp(key, stamp);
            }
            link = undo.next;
        }
    }

    /// Notes where in a list the records begin that all have stamps.
    fn note_stamped(&mut self, head: Option<usize>)
        requires { IsHeadOf self.old head }
        ensures { KeepsLists self.old self.new }
    {
        if let Some(key) = self.stamped_from(head) {
            self.set_all_stamped(key);
        }
    }

    /// The record of a list from which on all have stamps, so far up as it may be.
    fn stamped_from(&self, head: Option<usize>) -> Option<usize>
        requires { IsHeadOf self.now head }
        ensures link { IsLinkOf self.now result }
        ensures stamped { list_any lacks_stamp (list_at self.now result) ≡ false }
    {
        let mut from = head;
        let mut link = head;
        'look: while let Some(key) = link {
            let undo = self.record(key);
            if undo.all_stamped {
                return from;
            }
            link = undo.next;
            if undo.stamp.is_none() {
                from = link;
            }
        }
        from
    }

    /// Puts a record in front of a list, where there is room for it.
    fn put(&mut self, undo: Undo, head: Option<usize>) -> usize
        requires room { 0 < self.old.spare }
        requires head { IsHeadOf self.old head }
        ensures list { list_at self.new (Some result) ≡ unlinked undo ∷ list_at self.old head }
        ensures others { ChangesOneList self.old self.new head (Some result) }
        ensures spare { self.old.spare ≡ self.new.spare + 1 }
    {
        self.records.keys_can_be_named();
        let undo = Undo {
            next: head,
            all_stamped: false,
            ..undo
        };
        self.records.insert(undo)
    }

    /// Takes the first record of a list away.
    fn pop(&mut self, head: usize) -> Undo
        requires { IsHead self.old.slots head }
        ensures list { list_at self.old (Some head) ≡ unlinked result ∷ list_at self.new result.next }
        ensures others { ChangesOneList self.old self.new (Some head) result.next }
        ensures spare { self.new.spare ≡ self.old.spare + 1 }
    {
        self.records.remove(head)
    }

    /// Gives the record at a key this stamp.
    fn set_stamp(&mut self, key: usize, stamp: u64)
        requires { IsSome (record_at self.old.slots key) }
        ensures { Restamps self.old self.new key stamp }
    {
        self.records.set_stamp(key, stamp);
    }

    /// Says of the record at a key that from it on all have stamps.
    fn set_all_stamped(&mut self, key: usize)
        requires there { IsSome (record_at self.old.slots key) }
        requires stamped { list_any lacks_stamp (list_at self.old (Some key)) ≡ false }
        ensures { KeepsLists self.old self.new }
    {
        self.records.set_all_stamped(key);
    }

    /// The record at a key: a head, or the next one of a list.
    pub fn record(&self, key: usize) -> Undo
        requires { IsSome (record_at self.now.slots key) }
        ensures record { record_at self.now.slots key ≡ Some result }
        ensures list { list_at self.now (Some key) ≡ unlinked result ∷ list_at self.now result.next }
        ensures stamped { result.all_stamped ≡ true → list_any lacks_stamp (list_at self.now (Some key)) ≡ false }
        ensures next { IsLinkOf self.now result.next }
    {
        self.records.get(key)
    }

    /// Whether a list has a record of this writer.
    fn has_writer(&self, head: Option<usize>, by: TxnName) -> bool
        requires { IsHeadOf self.now head }
        ensures { result ≡ has_writer by (list_at self.now head) }
    {
        let mut link = head;
        'find: while let Some(key) = link {
            let undo = self.record(key);
            if undo.by == by {
                return true;
            }
            link = undo.next;
        }
        false
    }

    /// Whether a list has a record whose writer had committed by the horizon.
    fn has_settled<S: States>(&self, head: Option<usize>, horizon: u64, states: &mut S) -> bool
        requires head { IsHeadOf self.now head }
        requires known { horizon ≤ (S.knowledge states.old).known }
        requires named { AreNamed (S.knowledge states.old).names (list_at self.now head) }
        ensures settled { result
            ≡ list_any (is_settled (S.knowledge states.old).stamps horizon) (list_at self.now head) }
        ensures grows { Grows (S.knowledge states.old) (S.knowledge states.new) }
    {
        let mut link = head;
        'find: while let Some(key) = link {
            let undo = self.record(key);
            if is_settled_by(&undo, horizon, states) {
                return true;
            }
            link = undo.next;
        }
        false
    }

    /// Whether a list has a record that a prune at the horizon leaves, once this writer's records have a stamp up to
    /// it. Nobody is asked for the writers of records without a stamp.
    pub fn has_outlasting(&self, head: Option<usize>, by: TxnName, horizon: u64) -> bool
        requires { IsHeadOf self.now head }
        ensures { result ≡ list_any (outlasts by horizon) (list_at self.now head) }
    {
        let mut link = head;
        'find: while let Some(key) = link {
            let undo = self.record(key);
            if outlasts(&undo, by, horizon) {
                return true;
            }
            link = undo.next;
        }
        false
    }

    /// Moves the first record of a list in front of another one. Answers the heads of both.
    fn hand_over(&mut self, from: usize, onto: Option<usize>) -> (Option<usize>, Option<usize>)
        requires from { IsHeadOf self.old (Some from) }
        requires onto { IsHeadOf self.old onto }
        requires apart { AreApart (Some from) onto }
        ensures { HandsOver self.old self.new (Some from) onto result.0 result.1 }
    {
        let undo = self.pop(from);
        let onto = self.put(undo, onto);
        (undo.next, Some(onto))
    }

    /// Moves all records of a list in front of another one, the first of them last.
    fn pour(&mut self, from: Option<usize>, onto: Option<usize>) -> Option<usize>
        requires from { IsHeadOf self.old from }
        requires onto { IsHeadOf self.old onto }
        requires apart { AreApart from onto }
        ensures list { list_at self.new result ≡ upside_down (list_at self.old from) (list_at self.old onto) }
        ensures others { ChangesTwoLists self.old self.new from onto None result }
        ensures spare { self.new.spare ≡ self.old.spare }
    {
        let mut from = from;
        let mut onto = onto;
        'hand: while let Some(key) = from {
            (from, onto) = self.hand_over(key, onto);
        }
        onto
    }

    /// Takes all records of a list away.
    fn clear(&mut self, head: Option<usize>)
        requires { IsHeadOf self.old head }
        ensures others { ChangesOneList self.old self.new head None }
        ensures spare { self.new.spare ≡ self.old.spare + length (list_at self.old head) }
    {
        let mut rest = head;
        'drop_all: while let Some(key) = rest {
            rest = self.pop(key).next;
        }
    }
}

/// Whether a record is this writer's, and has no stamp.
fn is_to_stamp(undo: &Undo, by: TxnName) -> bool
    ensures { result ≡ is_to_stamp by undo.now }
{
    undo.by == by && undo.stamp.is_none()
}

/// Whether a record has neither a stamp up to the horizon, nor none though it is this writer's.
fn outlasts(undo: &Undo, by: TxnName, horizon: u64) -> bool
    ensures { result ≡ outlasts by horizon (unlinked undo.now) }
{
    match undo.stamp {
        Some(stamp) => stamp > horizon,
        None => undo.by != by,
    }
}

/// Whether a record's writer had committed by then.
fn is_settled_by<S: States>(undo: &Undo, then: u64, states: &mut S) -> bool
    requires known { then ≤ (S.knowledge states.old).known }
    requires named { undo.now.stamp ≡ None → (S.knowledge states.old).names undo.now.by ≡ true }
    ensures settled { result ≡ is_settled (S.knowledge states.old).stamps then (unlinked undo.now) }
    ensures grows { Grows (S.knowledge states.old) (S.knowledge states.new) }
{
    let stamp = match undo.stamp {
        Some(stamp) => stamp,
        None => match states.state(undo.by) {
            State::Committed { stamp } => stamp,
            _ => return false,
        },
    };
    stamp <= then
}
