//! Changed rows by their places.
//!
//! 1. Places strictly rise.
//! 2. A row that isn't named here is settled, and no other one: it has its value, and no records.

ghost use Rattle.std.specs.Prelude.{◌≡◌, ◌==◌, ◌⊎◌, ◌+◌, ◌<◌, ◌≤◌, ℕ, true, [], length, insert, cond, nat_eq, IfSome, OnOk, IsOk};
ghost use Rattle.std.specs.Vec.{vec_capacity};
ghost use Rattle.head_map.specs.Heads.{heads_placed, place_behind, settled_heads, is_settled, opened, closed, raised, changed_from, raised_row, lowered_row, IsFoundIn, IsPlaceIn, ArePlacesRising, ArePlacedBelow, ArePlacedFrom};

use crate::heads::Heads;
use crate::packed::{PackedHeads, PackedRow};
use graph_model::NoMemory;
use std::alloc::Global;
use std::marker::Model;

/// Changed rows in the order of their places.
#[derive(Drop)]
pub(crate) struct HeadList {
    /// Each with its place, in rising order.
    rows: Vec<PackedRow>,
}

impl Model for HeadList {
    ghost use Rattle.std.specs.Prelude.{◌-◌, length};
    ghost use Rattle.std.specs.Vec.{vec_capacity};
    ghost use Rattle.head_map.specs.Heads.{PlaceTable, ArePlaced};

    ghost Value = { PlaceTable };

    ghost view = { λ m. record { entries = m.rows.items; spare = vec_capacity m.rows - length m.rows.items } };

    ghost invariant = { λ m. ArePlaced m.rows.items };
}

impl HeadList {
    /// No row is changed. Takes no memory.
    pub(crate) fn new(alloc: Global) -> HeadList
        ensures { result.entries ≡ [] }
    {
        HeadList {
            rows: Vec::new(alloc),
        }
    }

    /// Whether all rows are settled.
    pub(crate) fn is_empty(&self) -> bool
        ensures { result ≡ (length self.now.entries == 0) }
    {
        self.rows.is_empty()
    }

    /// How many more rows there is room for.
    pub(crate) fn spare(&self) -> usize
        ensures { result ≡ self.now.spare }
    {
        self.rows.capacity() - self.rows.len()
    }

    /// Makes room for so many more rows. Takes no memory where there is room already.
    pub(crate) fn reserve(&mut self, rows: usize) -> Result<(), NoMemory>
        ensures ok { OnOk result (rows ≤ self.new.spare) }
        ensures room { rows ≤ self.old.spare → IsOk result }
        ensures kept { self.new.entries ≡ self.old.entries }
        ensures spare { self.old.spare ≤ self.new.spare }
    {
        if rows == 0 {
            return Ok(());
        }
        self.rows.reserve(rows)?;
        Ok(())
    }

    /// The sum of the places of the first changed row, of one in the middle and of the last.
    pub(crate) fn sum_ahead(&self) -> usize {
        let rows = self.rows.as_slice();
        match (rows.first(), rows.get(rows.len() / 2), rows.last()) {
            (Some(first), Some(middle), Some(last)) => first
                .place()
                .wrapping_add(middle.place())
                .wrapping_add(last.place()),
            _ => 0,
        }
    }

    /// The heads of the row at a place.
    pub(crate) fn get(&self, place: usize) -> Heads
        ensures { result ≡ heads_placed self.now.entries place }
    {
        match find_in(self.rows.as_slice(), place) {
            Ok(index) => self.rows[index].heads(),
            Err(_) => Heads::settled(),
        }
    }

    /// Gives the row at a place these heads. Needs room where the row was settled and isn't any more.
    pub(crate) fn put(&mut self, place: usize, heads: PackedHeads)
        requires byte { place < 256 }
        requires room { (0 < self.old.spare)
            ⊎ (heads_placed self.old.entries place ≡ settled_heads → heads ≡ settled_heads) }
        ensures heads { (p : ℕ) → heads_placed self.new.entries p
            ≡ cond (nat_eq p place) heads (heads_placed self.old.entries p) }
        ensures spare { self.old.spare ≤ self.new.spare + 1 }
        ensures kept { (heads_placed self.old.entries place ≡ settled_heads → heads ≡ settled_heads)
            → self.old.spare ≤ self.new.spare }
    {
        let settled = heads.heads().is_settled();
        match find_in(self.rows.as_slice(), place) {
            // A row without records has no entry: that is how it is told to be settled.
            Ok(index) if settled => {
                self.rows.remove(index);
            }
            Ok(index) => self.rows[index].set_heads(heads),
            Err(_) if settled => {}
            Err(index) => put_row(&mut self.rows, index, PackedRow::new(place, heads)),
        }
    }

    /// Makes way for a row at a place: those from there on stand one place further on.
    pub(crate) fn open(&mut self, place: usize)
        requires { (p : ℕ) → 255 ≤ p → heads_placed self.old.entries p ≡ settled_heads }
        ensures heads { (p : ℕ) → heads_placed self.new.entries p ≡ opened place (heads_placed self.old.entries) p }
        ensures spare { self.new.spare ≡ self.old.spare }
    {
        let index = index_in(self.rows.as_slice(), place);
        raise_from(&mut self.rows, index, 1);
    }

    /// Takes the row at a place away: those after it stand one place further down.
    pub(crate) fn close(&mut self, place: usize)
        ensures heads { (p : ℕ) → heads_placed self.new.entries p ≡ closed place (heads_placed self.old.entries) p }
        ensures spare { self.old.spare ≤ self.new.spare }
    {
        match find_in(self.rows.as_slice(), place) {
            Ok(index) => {
                self.rows.remove(index);
                lower_from(&mut self.rows, index, 1);
            }
            Err(index) => lower_from(&mut self.rows, index, 1),
        }
    }

    /// Moves all rows so many places up.
    pub(crate) fn raise(&mut self, by: usize)
        requires few { by ≤ 128 }
        requires low { (p : ℕ) → 128 ≤ p → heads_placed self.old.entries p ≡ settled_heads }
        ensures heads { (p : ℕ) → heads_placed self.new.entries p ≡ raised by (heads_placed self.old.entries) p }
        ensures spare { self.new.spare ≡ self.old.spare }
    {
        raise_from(&mut self.rows, 0, by);
    }

    /// Moves all rows so many places down.
    pub(crate) fn lower(&mut self, by: usize)
        requires { (p : ℕ) → p < by → heads_placed self.old.entries p ≡ settled_heads }
        ensures heads { (p : ℕ) → heads_placed self.new.entries p ≡ heads_placed self.old.entries (by + p) }
        ensures spare { self.new.spare ≡ self.old.spare }
    {
        lower_from(&mut self.rows, 0, by);
    }

    /// The last place before this one whose row is changed.
    pub(crate) fn last_before(&self, place: usize) -> Option<usize>
        ensures below { IfSome result (λ p. p < place) }
        ensures between { (p : ℕ) → place_behind result ≤ p → p < place
            → heads_placed self.now.entries p ≡ settled_heads }
    {
        let index = index_in(self.rows.as_slice(), place);
        if index == 0 {
            return None;
        }
        Some(self.rows[index - 1].place())
    }

    /// Whether all rows between two places are settled.
    pub(crate) fn are_settled(&self, first: usize, end: usize) -> bool
        ensures { result ≡ true → (p : ℕ) → first ≤ p → p < end → heads_placed self.now.entries p ≡ settled_heads }
    {
        'rows: for row in &self.rows {
            let place = row.place();
            if first <= place && place < end {
                return false;
            }
        }
        true
    }
}

/// Puts a row at an index, within the vector's room.
fn put_row(rows: &mut Vec<PackedRow>, index: usize, row: PackedRow)
    requires index { index ≤ length rows.old.items }
    requires room { length rows.old.items < vec_capacity rows.old }
    ensures rows { rows.new.items ≡ insert rows.old.items index row }
    ensures capacity { vec_capacity rows.old ≤ vec_capacity rows.new }
{
    match rows.insert(index, row) {
        Ok(()) => {}
        Err(_) => unreachable!(),
    }
}

/// Moves the rows from an index on so many places up.
fn raise_from(rows: &mut Vec<PackedRow>, index: usize, by: usize)
    requires index { index ≤ length rows.old.items }
    requires byte { ArePlacedBelow by rows.old.items }
    ensures rows { rows.new.items ≡ changed_from index (raised_row by) rows.old.items }
    ensures capacity { vec_capacity rows.new ≡ vec_capacity rows.old }
{
    let mut at = rows.len();
    'raise: while at > index {
        at -= 1;
        rows[at].raise(by);
    }
}

/// Moves the rows from an index on so many places down.
fn lower_from(rows: &mut Vec<PackedRow>, index: usize, by: usize)
    requires index { index ≤ length rows.old.items }
    requires high { ArePlacedFrom index by rows.old.items }
    ensures rows { rows.new.items ≡ changed_from index (lowered_row by) rows.old.items }
    ensures capacity { vec_capacity rows.new ≡ vec_capacity rows.old }
{
    let mut at = rows.len();
    'lower: while at > index {
        at -= 1;
        rows[at].lower(by);
    }
}

/// The index of the row at a place, or the one where it would stand.
fn find_in(rows: &[PackedRow], place: usize) -> Result<usize, usize>
    requires { ArePlacesRising rows.now }
    ensures { IsFoundIn rows.now place result }
{
    let index = index_in(rows, place);
    match rows.get(index) {
        Some(row) if row.place() == place => Ok(index),
        _ => Err(index),
    }
}

/// How many rows stand before the place, found by halves.
fn index_in(rows: &[PackedRow], place: usize) -> usize
    requires { ArePlacesRising rows.now }
    ensures { IsPlaceIn rows.now place result }
{
    let mut index = 0;
    let mut count = rows.len();
    'halves: while count > 0 {
        let half = count / 2;
        if rows[index + half].place() < place {
            index += half + 1;
            count -= half + 1;
        } else {
            count = half;
        }
    }
    index
}
