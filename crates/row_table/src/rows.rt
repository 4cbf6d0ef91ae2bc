//! Rows with their heads.
//!
//! 1. The heads of a row are found by its place, so they move where it moves.
//! 2. No heads are kept for places after the rows.

ghost use Rattle.std.specs.Prelude.{◌≡◌, ◌==◌, ◌⊎◌, ◌+◌, ◌-◌, ◌<◌, ◌≤◌, true, false, [], take, drop, length, insert, remove, min, cond, IfSome, OnOk, IfOk, IsOk, ◌++◌};
ghost use Rattle.std.specs.Ordering.{eq_by_cmp};
ghost use Rattle.std.specs.declared.result.Result.TheVariants.{Ok};
ghost use Rattle.graph_model.specs.declared.row.Key.{Key};
ghost use Rattle.graph_model.specs.declared.limits.TheConstants.{SEGMENT_ROWS};
ghost use Rattle.graph_model.specs.Rows.{key_cmp, is_below, is_between};
ghost use Rattle.gap_segment.specs.Fenced.{IsFound, IsGapFor, IsPlaceOf, AreSorted, AreWithin, with_weight};
ghost use Rattle.head_map.specs.Heads.{heads_at, keyed_table, place_behind, settled_heads, AreSettledRows, AreWithinPlaces};
ghost use Rattle.row_table.specs.Parts.{AreParts, records_in};
ghost use Rattle.row_table.specs.Moves.{SharesTables, MovesRoom};

use crate::hand::hand_each;
use gap_segment::Segment;
use graph_model::{Key, NoMemory, Row};
use head_map::below::Chains;
use head_map::{HeadMap, Heads, PackedHeads};
use std::alloc::Global;
use std::marker::Model;

/// The rows of a segment, and where the records of those that are changed begin.
#[derive(Drop)]
pub struct RowTable {
    /// Each with its newest value.
    rows: Segment,
    /// Where the records of changed rows begin.
    heads: HeadMap,
}

impl Model for RowTable {
    ghost use Rattle.std.specs.Prelude.{length};
    ghost use Rattle.head_map.specs.Heads.{HeadedRows, keyed_table, AreWithinPlaces};

    ghost Value = { HeadedRows };

    ghost view = { λ t. record { fenced = t.rows; heads = keyed_table t.rows.rows t.heads } };

    ghost invariant = { λ t. AreWithinPlaces (length t.rows.rows) t.heads.entries };
}

impl RowTable {
    /// No rows between these fence keys. Takes the memory of all rows, and none for heads.
    pub fn new(alloc: Global, low: Key, high: Key) -> Result<RowTable, NoMemory>
        requires { is_below high low ≡ false }
        ensures rows { IfOk result (λ t. t.fenced ≡ record { low = low; high = high; rows = [] }) }
        ensures heads { IfOk result (λ t. t.heads.entries ≡ []) }
    {
        let rows = Segment::new(alloc, low, high)?;
        Ok(RowTable {
            rows,
            heads: HeadMap::new(alloc),
        })
    }

    /// The rows, and where the records of those that are changed begin.
    pub fn into_parts(self) -> (Segment, HeadMap)
        ensures rows { result.0 ≡ self.fenced }
        ensures heads { keyed_table result.0.rows result.1 ≡ self.heads }
        ensures within { AreWithinPlaces (length result.0.rows) result.1.entries }
    {
        let RowTable { rows, heads } = self;
        (rows, heads)
    }

    /// A table of these rows and heads.
    pub fn of_parts(rows: Segment, heads: HeadMap) -> RowTable
        requires { AreWithinPlaces (length rows.rows) heads.entries }
        ensures { result ≡ record { fenced = rows; heads = keyed_table rows.rows heads } }
    {
        RowTable { rows, heads }
    }

    /// Lends the rows alone.
    pub fn segment(&self) -> &Segment
        ensures { result.now ≡ self.now.fenced }
    {
        &self.rows
    }

    /// Whether all rows are settled.
    pub fn is_settled(&self) -> bool
        ensures { result ≡ true → (q : Key) → heads_at self.now.heads.entries q ≡ settled_heads }
    {
        self.heads.is_empty()
    }

    /// Whether all rows of a key range are settled.
    pub fn are_settled(&self, from: Key, until: Key) -> bool
        ensures { result ≡ true → (q : Key) → is_between from until q ≡ true
            → heads_at self.now.heads.entries q ≡ settled_heads }
    {
        if self.heads.is_empty() {
            return true;
        }
        self.heads
            .are_settled(self.first_place(from), self.first_place(until))
    }

    /// The last place before this one whose row is changed.
    pub fn changed_before(&self, place: usize) -> Option<usize>
        ensures below { IfSome result (λ p. p < place) }
        ensures between { AreSettledRows self.now.fenced.rows self.now.heads.entries (place_behind result) place }
    {
        self.rows.is_fenced();
        self.heads.last_before(place)
    }

    /// How many rows are below the key.
    pub fn first_place(&self, key: Key) -> usize
        ensures { IsPlaceOf self.now.fenced.rows key result }
    {
        self.rows.is_fenced();
        match self.rows.find(key) {
            Ok(place) => place,
            Err(place) => place,
        }
    }

    /// The heads of the row at a place. Whose key that has, only the contract reads.
    pub fn heads_at(&self, key: Key, place: usize) -> Heads
        requires { IsFound self.now.fenced.rows key (Ok place) }
        ensures { result ≡ heads_at self.now.heads.entries key }
    {
        let _ = key;
        self.rows.is_fenced();
        self.heads.get(place)
    }

    /// The sum of what is read ahead of the changed rows.
    pub fn sum_ahead(&self) -> usize {
        self.heads.sum_ahead()
    }

    /// How many more changed rows there is room for.
    pub fn spare(&self) -> usize
        ensures { result ≡ self.now.heads.spare }
    {
        self.heads.spare()
    }

    /// Makes room for so many more changed rows. Takes no memory where there is room already.
    pub fn reserve(&mut self, rows: usize) -> Result<(), NoMemory>
        ensures ok { OnOk result (rows ≤ self.new.heads.spare) }
        ensures room { rows ≤ self.old.heads.spare → IsOk result }
        ensures kept { self.new ≡ record self.old { heads = record self.old.heads { spare = self.new.heads.spare } } }
        ensures spare { self.old.heads.spare ≤ self.new.heads.spare }
    {
        self.heads.reserve(rows)
    }

    /// Sets both fence keys.
    pub fn set_fences(&mut self, low: Key, high: Key)
        requires fences { is_below high low ≡ false }
        requires within { AreWithin low high self.old.fenced.rows }
        ensures { self.new ≡ record self.old { fenced = record self.old.fenced { low = low; high = high } } }
    {
        self.rows.set_fences(low, high);
    }

    /// Gives a table without rows these rows and fence keys, all of them settled.
    pub fn settle(&mut self, alloc: Global, low: Key, high: Key, rows: &[Row])
        requires empty { self.old.fenced.rows ≡ [] }
        requires few { length rows.now ≤ SEGMENT_ROWS }
        requires fences { is_below high low ≡ false }
        requires sorted { AreSorted rows.now }
        requires within { AreWithin low high rows.now }
        ensures rows { self.new.fenced ≡ record { low = low; high = high; rows = rows.now } }
        ensures settled { (q : Key) → heads_at self.new.heads.entries q ≡ settled_heads }
    {
        self.rows.fill(low, high, rows);
        self.heads = HeadMap::new(alloc);
    }

    /// Gives the memory of all heads back. All rows are settled then.
    pub fn release(&mut self, alloc: Global)
        ensures rows { self.new.fenced ≡ self.old.fenced }
        ensures settled { (q : Key) → heads_at self.new.heads.entries q ≡ settled_heads }
    {
        self.heads = HeadMap::new(alloc);
    }

    /// Gives the row at a place another weight.
    pub fn set_weight(&mut self, place: usize, weight: u64)
        requires { place < length self.old.fenced.rows }
        ensures { self.new ≡ record self.old {
          fenced = record self.old.fenced { rows = with_weight self.old.fenced.rows place weight };
        } }
    {
        self.rows.set_at(place, weight);
    }

    /// Gives the row at a place these heads. Needs room where it was settled and isn't any more.
    pub fn put(&mut self, key: Key, place: usize, heads: PackedHeads)
        requires at { IsFound self.old.fenced.rows key (Ok place) }
        requires room { (0 < self.old.heads.spare)
            ⊎ (heads_at self.old.heads.entries key ≡ settled_heads → heads ≡ settled_heads) }
        ensures rows { self.new.fenced ≡ self.old.fenced }
        ensures heads { (q : Key) → heads_at self.new.heads.entries q
            ≡ cond (eq_by_cmp key_cmp q key) heads (heads_at self.old.heads.entries q) }
        ensures spare { self.old.heads.spare ≤ self.new.heads.spare + 1 }
        ensures kept { (heads_at self.old.heads.entries key ≡ settled_heads → heads ≡ settled_heads)
            → self.old.heads.spare ≤ self.new.heads.spare }
    {
        let _ = key;
        self.rows.is_fenced();
        self.heads.put(place, heads);
    }

    /// Takes the row at a place away.
    pub fn remove(&mut self, key: Key, place: usize)
        requires at { IsFound self.old.fenced.rows key (Ok place) }
        ensures rows { self.new.fenced
            ≡ record self.old.fenced { rows = remove self.old.fenced.rows place } }
        ensures heads { (q : Key) → heads_at self.new.heads.entries q
            ≡ cond (eq_by_cmp key_cmp q key) settled_heads (heads_at self.old.heads.entries q) }
        ensures spare { self.old.heads.spare ≤ self.new.heads.spare }
    {
        let _ = key;
        self.rows.is_fenced();
        self.rows.remove_at(place);
        self.heads.close(place);
    }

    /// Puts a row with its heads at the place where it has to stand.
    pub fn insert(&mut self, place: usize, row: Row, heads: PackedHeads)
        requires rows { length self.old.fenced.rows < SEGMENT_ROWS }
        requires within { is_between self.old.fenced.low self.old.fenced.high row.key ≡ true }
        requires gap { IsGapFor self.old.fenced.rows row.key place }
        requires room { 0 < self.old.heads.spare }
        ensures rows { self.new.fenced
            ≡ record self.old.fenced { rows = insert self.old.fenced.rows place row } }
        ensures heads { (q : Key) → heads_at self.new.heads.entries q
            ≡ cond (eq_by_cmp key_cmp q row.key) heads (heads_at self.old.heads.entries q) }
        ensures spare { self.old.heads.spare ≤ self.new.heads.spare + 1 }
    {
        self.rows.insert_at(place, row);
        self.heads.open(place);
        self.heads.put(place, heads);
    }

    /// Moves the rows from a place on, with their records, to the front of the next table.
    pub fn give(
        &mut self,
        chains: &mut Chains,
        right: &mut RowTable,
        right_chains: &mut Chains,
        count: usize,
    )
        requires left { AreParts self.old.fenced self.old.heads.entries chains.old }
        requires right { AreParts right.old.fenced right.old.heads.entries right_chains.old }
        requires neighbours { self.old.fenced.high ≡ right.old.fenced.low }
        requires count { count ≤ length self.old.fenced.rows }
        requires room { length self.old.fenced.rows + length right.old.fenced.rows ≤ count + SEGMENT_ROWS }
        requires spare { records_in self.old chains.old (drop count self.old.fenced.rows)
            ≤ min right_chains.old.spare right.old.heads.spare }
        ensures moved { SharesTables self.old self.new chains.old chains.new right.old right.new
            right_chains.old right_chains.new count }
        ensures spare { MovesRoom self.old self.new chains.old chains.new right.old right.new
            right_chains.old right_chains.new (records_in self.old chains.old (drop count self.old.fenced.rows)) }
    {
        if self.heads.is_empty() && right.heads.is_empty() {
            self.rows.share(&mut right.rows, count);
            return;
        }
        let len = self.rows.len();
        // While rows move, places count through both tables, so that none stands twice.
        right.heads.raise(len);
        hand_each(
            &mut self.heads,
            chains,
            &mut right.heads,
            right_chains,
            self.rows.rows(),
            right.rows.rows(),
            count,
            len,
        );
        right.heads.lower(count);
        self.rows.share(&mut right.rows, count);
    }

    /// Moves the first rows of the next table, with their records, to the end of this one.
    pub fn take(
        &mut self,
        chains: &mut Chains,
        right: &mut RowTable,
        right_chains: &mut Chains,
        rows: usize,
    )
        requires left { AreParts self.old.fenced self.old.heads.entries chains.old }
        requires right { AreParts right.old.fenced right.old.heads.entries right_chains.old }
        requires neighbours { self.old.fenced.high ≡ right.old.fenced.low }
        requires rows { rows ≤ length right.old.fenced.rows }
        requires room { length self.old.fenced.rows + rows ≤ SEGMENT_ROWS }
        requires spare { records_in right.old right_chains.old (take rows right.old.fenced.rows)
            ≤ min chains.old.spare self.old.heads.spare }
        ensures moved { SharesTables self.old self.new chains.old chains.new right.old right.new
            right_chains.old right_chains.new (length self.old.fenced.rows + rows) }
        ensures spare { MovesRoom right.old right.new right_chains.old right_chains.new self.old self.new
            chains.old chains.new (records_in right.old right_chains.old (take rows right.old.fenced.rows)) }
    {
        let len = self.rows.len();
        let count = len + rows;
        right.rows.is_fenced();
        if self.heads.is_empty() && right.heads.is_empty() {
            self.rows.share(&mut right.rows, count);
            return;
        }
        right.heads.raise(len);
        hand_each(
            &mut right.heads,
            right_chains,
            &mut self.heads,
            chains,
            self.rows.rows(),
            right.rows.rows(),
            len,
            count,
        );
        right.heads.lower(count);
        self.rows.share(&mut right.rows, count);
    }
}
