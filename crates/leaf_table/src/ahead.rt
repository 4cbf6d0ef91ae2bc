//! Reads what the calls to come will read, and finds what they will look for.
//!
//! 1. A write waits for memory most of the time: for where the leaf of each of its cells lies, then for what the cell
//!    says of itself, and then for its rows.
//! 2. Here each of these is read for four cells before the next one is. So the processor asks the memory for all four
//!    at once, and finds them near by when the calls come. Where leaves lie is read beside their slots in the index.
//! 3. Kept is one sum of what was read, in the store, so that no compiler leaves the reads out. It can't be wrong,
//!    since nobody asks for it, and no clause sees it. It costs eight bytes, and some loads for a write whose rows lie
//!    near by already.

use crate::finger::Finger;
use crate::place::Place;
use graph_model::Key;
use leaf_array::Leaf;
use leaf_array::below::{NOWHERE, VersionSegment};

/// How many of four leaves have memory, which takes a look at where each of them lies.
pub fn count_with_memory(leaves: &Vec<Option<Box<Leaf>>>, likely: [u32; 4]) -> u64 {
    sum_of(likely.map(|leaf| match leaves.get(leaf as usize) {
        Some(Some(_)) => 1,
        _ => 0,
    }))
}

/// The sum of what four cells have. Nobody asks for it: it is kept so that no compiler leaves out the reads. Where rows
/// come into the first two, it takes more of them, and how many rows their leaves have.
pub fn sum_ahead(
    leaves: &Vec<Option<Box<Leaf>>>,
    keys: [Key; 4],
    places: [Place; 4],
    rows_come: bool,
) -> u64 {
    let cells = places.map(|place| cell_at(leaves, place));
    let mut sum = sum_of(cells.map(rows_in));
    if rows_come {
        sum = sum
            .wrapping_add(rows_at(leaves, places[0]))
            .wrapping_add(rows_at(leaves, places[1]));
    }
    sum = sum.wrapping_add(sum_of(cells.map(sum_in)));
    let near = [
        near_in(cells[0], keys[0], rows_come),
        near_in(cells[1], keys[1], rows_come),
        near_in(cells[2], keys[2], false),
        near_in(cells[3], keys[3], false),
    ];
    sum.wrapping_add(sum_of(near))
}

/// The sum of what the changed rows of a leaf's cells have, for whoever goes over all of them.
pub fn sum_leaf_ahead(leaves: &Vec<Option<Box<Leaf>>>, place: usize) -> u64 {
    let mut sum: u64 = 0;
    if let Some(Some(leaf)) = leaves.get(place) {
        'cells: for cell in &leaf.segments {
            sum = sum.wrapping_add(cell.sum_records_ahead());
        }
    }
    sum
}

/// Where four keys stand in the cells with these numbers, or would stand.
pub fn fingers_at(leaves: &Vec<Option<Box<Leaf>>>, keys: [Key; 4], cells: [u32; 4]) -> [Finger; 4] {
    [
        finger_at(leaves, keys[0], cells[0]),
        finger_at(leaves, keys[1], cells[1]),
        finger_at(leaves, keys[2], cells[2]),
        finger_at(leaves, keys[3], cells[3]),
    ]
}

/// Where a key stands in the cell with this number, or would stand.
fn finger_at(leaves: &Vec<Option<Box<Leaf>>>, key: Key, cell: u32) -> Finger {
    let row = match cell_at(leaves, Place::of_cell(cell)) {
        Some(segment) => segment.place_of(key),
        None => NOWHERE,
    };
    Finger { cell, row }
}

/// The cell at a place, where there is one.
fn cell_at(leaves: &Vec<Option<Box<Leaf>>>, place: Place) -> Option<&VersionSegment> {
    match leaves.get(place.leaf) {
        Some(Some(leaf)) => leaf.segments.get(place.segment),
        _ => None,
    }
}

/// How many rows the leaf at a place has.
fn rows_at(leaves: &Vec<Option<Box<Leaf>>>, place: Place) -> u64 {
    let mut rows: u64 = 0;
    if let Some(Some(leaf)) = leaves.get(place.leaf) {
        'cells: for cell in &leaf.segments {
            rows = rows.wrapping_add(cell.len() as u64);
        }
    }
    rows
}

/// How many rows a cell has.
fn rows_in(cell: Option<&VersionSegment>) -> u64 {
    match cell {
        Some(cell) => cell.len() as u64,
        None => 0,
    }
}

/// What is read ahead of a cell.
fn sum_in(cell: Option<&VersionSegment>) -> u64 {
    match cell {
        Some(cell) => cell.sum_ahead(),
        None => 0,
    }
}

/// What is read ahead of the rows near a key.
fn near_in(cell: Option<&VersionSegment>, key: Key, row_comes: bool) -> u64 {
    match cell {
        Some(cell) => cell.sum_near(key, row_comes),
        None => 0,
    }
}

/// The sum of four numbers, whatever wraps.
fn sum_of(numbers: [u64; 4]) -> u64 {
    let [first, second, third, fourth] = numbers;
    first
        .wrapping_add(second)
        .wrapping_add(third.wrapping_add(fourth))
}
