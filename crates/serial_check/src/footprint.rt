//! The footprint of a transaction, as ranges of keys.
//!
//! 1. The ranges rise, and are joined where they meet or overlap: a transaction that reads one row often has it once.
//! 2. A key is looked for by halves.
//! 3. Room for all ranges of a line is made before the first of them is put.

ghost use Rattle.std.specs.Prelude.{◌≡◌, ◌≢◌, ℕ, ◌+◌, ◌<◌, ◌≤◌, List, [], ◌∷◌, ◌++◌, true, false, ◌||◌, take, drop, length, slice_get, Some, OnOk, OnErr};
ghost use Rattle.std.specs.Vec.{vec_len, vec_capacity};
ghost use Rattle.graph_model.specs.declared.limits.TheConstants.{MAX_ID};
ghost use Rattle.graph_model.specs.declared.row.Key.{Key};
ghost use Rattle.graph_model.specs.Refused.{IsWithinLimits};
ghost use Rattle.graph_model.specs.Rows.{is_below};
ghost use Rattle.graph_model.specs.Effects.{same_key, arc_keys};
ghost use Rattle.run_model.specs.Commands.{IsCommand, IsQuery};
ghost use Rattle.serial_model.specs.Footprints.{depends, write_depends, read_depends, is_at_edge, is_at_removal};
ghost use Rattle.serial_check.specs.declared.range.FootprintRange.{FootprintRange};
ghost use Rattle.serial_check.specs.Ranges.{holds, covers, joined, IsRowKey, AreApart};

use crate::range::FootprintRange;
use graph_model::{Key, Kind, NoMemory, Write};
use run_model::{Command, Query};
use std::alloc::Global;
use std::marker::Model;

/// How many ranges a line has at most: both ends of an edge, and both arcs.
const LINE_RANGES: usize = 4;

/// The keys of the rows on which the lines of a transaction depend.
#[derive(Drop)]
pub struct Footprint {
    /// They may overlap.
    ranges: Vec<FootprintRange>,
}

impl Model for Footprint {
    ghost use Rattle.std.specs.Prelude.{◌-◌};
    ghost use Rattle.std.specs.Vec.{vec_capacity, vec_len};
    ghost use Rattle.items.specs.Room.{WithRoom};
    ghost use Rattle.serial_check.specs.declared.range.FootprintRange.{FootprintRange};
    ghost use Rattle.serial_check.specs.Ranges.{AreApart};

    ghost Value = { WithRoom FootprintRange };

    ghost view = { λ f. record { items = f.ranges.items; spare = vec_capacity f.ranges - vec_len f.ranges } };

    ghost invariant = { λ f. AreApart f.ranges.items };
}

impl Footprint {
    /// No keys. Takes no memory.
    pub fn new(alloc: Global) -> Footprint
        ensures { result.items ≡ [] }
    {
        Footprint {
            ranges: Vec::new(alloc),
        }
    }

    /// Lets go of all keys, for the next transaction.
    pub fn clear(&mut self)
        ensures { self.new.items ≡ [] }
    {
        self.ranges.clear();
    }

    /// Whether the row of this key is one of them.
    pub fn has(&self, key: Key) -> bool
        ensures { result ≡ covers self.now.items key }
    {
        let count = count_up_to(self.ranges.as_slice(), key);
        // The last range that begins at the key or below it is the only one that can have it, since they are apart.
        count > 0 && key.is_below(self.ranges[count - 1].until)
    }

    /// Adds the keys of the rows on which the answer to a line depends.
    pub fn add(&mut self, kind: Kind, command: &Command) -> Result<(), NoMemory>
        requires { IsCommand command.now }
        ensures ok { OnOk result ((q : Key) → IsRowKey q
            → covers self.new.items q ≡ (covers self.old.items q || depends kind command.now q)) }
        ensures err { OnErr result (self.new ≡ self.old) }
    {
        // Before anything is added, so that where memory is refused the footprint is as it was.
        self.reserve()?;
        match command {
            // What these are answered depends on the journal and on the writes alone.
            Command::Begin | Command::Commit | Command::Abort => {}
            Command::Write { write } => self.put_write(kind, *write),
            Command::Read { query } => self.put_read(*query),
            // A kernel reads all rows.
            Command::Run { kernel: _, file: _ } => self.put(FootprintRange::all()),
        }
        Ok(())
    }

    /// Makes room for the ranges of a line.
    fn reserve(&mut self) -> Result<(), NoMemory>
        ensures kept { self.new.items ≡ self.old.items }
        ensures ok { OnOk result (4 ≤ self.new.spare) }
        ensures err { OnErr result (self.new ≡ self.old) }
    {
        self.ranges.reserve(LINE_RANGES)?;
        Ok(())
    }

    /// Adds the keys of the rows on which the answer to a write depends.
    fn put_write(&mut self, kind: Kind, write: Write)
        requires room { 4 ≤ self.old.spare }
        requires within { IsWithinLimits write }
        ensures { (q : Key) → IsRowKey q
            → covers self.new.items q ≡ (covers self.old.items q || write_depends kind write q) }
    {
        match write {
            Write::AddVertex { v } => self.put(FootprintRange::of_vertex(v)),
            // Whether it goes depends on all arcs that lead to it or from it.
            Write::DropVertex { v } => self.put(removal_range(kind, v)),
            Write::AddEdge { u, v, weight: _ } => self.put_edge(kind, u, v),
            Write::SetEdge { u, v, weight: _ } => self.put_edge(kind, u, v),
            Write::DropEdge { u, v } => self.put_edge(kind, u, v),
        }
    }

    /// Adds the keys of the rows on which the answer to a read depends.
    fn put_read(&mut self, query: Query)
        requires room { 4 ≤ self.old.spare }
        requires within { IsQuery query }
        ensures { (q : Key) → IsRowKey q
            → covers self.new.items q ≡ (covers self.old.items q || read_depends query q) }
    {
        match query {
            Query::WeightOf { u, v } => self.put(FootprintRange::of_arc(u, v)),
            // Its own row too, which says whether the vertex is there.
            Query::NeighboursOf { v } => self.put(FootprintRange::from_source(v)),
            Query::Counts => self.put(FootprintRange::all()),
        }
    }

    /// Adds the keys of an edge's rows and of its ends.
    fn put_edge(&mut self, kind: Kind, u: u64, v: u64)
        requires room { 4 ≤ self.old.spare }
        requires first { u ≤ MAX_ID }
        requires second { v ≤ MAX_ID }
        ensures { (q : Key) → covers self.new.items q ≡ (covers self.old.items q || is_at_edge kind u v q) }
    {
        self.put(FootprintRange::of_vertex(u));
        self.put(FootprintRange::of_vertex(v));
        match kind {
            Kind::Directed => self.put(FootprintRange::of_arc(u, v)),
            Kind::Undirected => {
                self.put(FootprintRange::of_arc(v, u));
                self.put(FootprintRange::of_arc(u, v));
            }
        }
    }

    /// Adds a range, joined with those that it meets or overlaps. There has to be room for it.
    fn put(&mut self, range: FootprintRange)
        requires room { 0 < self.old.spare }
        requires some { is_below range.from range.until ≡ true }
        ensures covers { (q : Key) → covers self.new.items q ≡ (covers self.old.items q || holds range q) }
        ensures spare { self.old.spare ≤ self.new.spare + 1 }
    {
        // Ranges are kept apart and in order, so a look for a key is a search by halves, however many lines there were.
        let end = count_up_to(self.ranges.as_slice(), range.until);
        let start = first_met(self.ranges.as_slice(), range.from);
        if start == end {
            let Ok(()) = self.ranges.insert(start, range) else {
                unreachable!()
            };
            return;
        }
        let first = self.ranges[start];
        let last = self.ranges[end - 1];
        self.ranges[start] = joined(range, first, last);
        remove_between(&mut self.ranges, start + 1, end);
    }
}

/// The keys on which the removal of a vertex depends.
fn removal_range(kind: Kind, v: u64) -> FootprintRange
    requires { v ≤ MAX_ID }
    ensures some { is_below result.from result.until ≡ true }
    ensures holds { (q : Key) → IsRowKey q → holds result q ≡ is_at_removal kind v q }
{
    match kind {
        // An arc that leads to the vertex stands under its source, which may be any.
        Kind::Directed => FootprintRange::all(),
        // Each of its edges has a row under it.
        Kind::Undirected => FootprintRange::from_source(v),
    }
}

/// How many of the ranges begin at the key or below it.
fn count_up_to(ranges: &[FootprintRange], key: Key) -> usize
    requires { AreApart ranges.now }
    ensures within { result ≤ length ranges.now }
    ensures before { (i : ℕ) (r : FootprintRange) → i < result → slice_get ranges.now i ≡ Some r
        → is_below key r.from ≡ false }
    ensures behind { (i : ℕ) (r : FootprintRange) → result ≤ i → slice_get ranges.now i ≡ Some r
        → is_below key r.from ≡ true }
{
    let mut low = 0;
    let mut high = ranges.len();
    'halves: while low < high {
        let middle = low + (high - low) / 2;
        let range = &ranges[middle];
        if key.is_below(range.from) {
            high = middle;
        } else {
            low = middle + 1;
        }
    }
    low
}

/// The place of the first range that ends at the key or above it.
fn first_met(ranges: &[FootprintRange], key: Key) -> usize
    requires { AreApart ranges.now }
    ensures within { result ≤ length ranges.now }
    ensures before { (i : ℕ) (r : FootprintRange) → i < result → slice_get ranges.now i ≡ Some r
        → is_below r.until key ≡ true }
    ensures behind { (i : ℕ) (r : FootprintRange) → result ≤ i → slice_get ranges.now i ≡ Some r
        → is_below r.until key ≡ false }
{
    let mut low = 0;
    let mut high = ranges.len();
    'halves: while low < high {
        let middle = low + (high - low) / 2;
        let range = &ranges[middle];
        if range.until.is_below(key) {
            low = middle + 1;
        } else {
            high = middle;
        }
    }
    low
}

/// A range from where the first of two ranges begins, or this one, up to where the last of them ends, or this one.
fn joined(range: FootprintRange, first: FootprintRange, last: FootprintRange) -> FootprintRange
    ensures { result ≡ joined range first last }
{
    FootprintRange {
        from: if first.from.is_below(range.from) {
            first.from
        } else {
            range.from
        },
        until: if range.until.is_below(last.until) {
            last.until
        } else {
            range.until
        },
    }
}

/// Removes the ranges between two places.
fn remove_between(ranges: &mut Vec<FootprintRange>, from: usize, until: usize)
    requires order { from ≤ until }
    requires within { until ≤ length ranges.old.items }
    ensures items { ranges.new.items ≡ take from ranges.old.items ++ drop until ranges.old.items }
    ensures len { vec_len ranges.new ≤ vec_len ranges.old }
    ensures capacity { vec_capacity ranges.new ≡ vec_capacity ranges.old }
{
    ranges.drain(from..until);
}
