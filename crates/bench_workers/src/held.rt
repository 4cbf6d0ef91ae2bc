//! What a store holds, as a pass without a transaction finds it cell by cell.

ghost use Rattle.std.specs.Prelude.{◌≡◌};
ghost use Rattle.cases_workers.specs.SharedStore.Passes.{IsIdle};

use cases_workers::below::{Pass, Store, VersionSegment};
use graph_model::Key;
use std::sync::Wait;

/// How many leaves are neither free nor retired, and how many are retired.
#[derive(Clone, Copy, Debug, PartialEq, Eq)]
pub struct Leaves {
    pub in_use: u32,
    pub retired: u32,
}

/// Looks at the index, and holds it meanwhile. May wait, and takes no memory.
pub fn leaves_now(rt: &impl Wait, store: &Store, pass: &mut Pass) -> Leaves
    requires idle { IsIdle store.now pass.old }
    ensures idle { IsIdle store.now pass.new }
    ensures number { pass.new.seats.number ≡ pass.old.seats.number }
{
    let cells = store.cells();
    let held = cells.take(rt, &mut pass.seats.latch, store.index_place());
    let held = store.gather_index(&mut pass.seats, held);
    let leaves = Leaves {
        in_use: held.value.in_use(),
        retired: held.value.retired(),
    };
    let held = store.lay_index(&mut pass.seats, held);
    cells.give(&mut pass.seats.latch, held);
    leaves
}

/// How many undo records and touches all rows have. May wait, and takes no memory.
pub fn records_now(rt: &impl Wait, store: &Store, pass: &mut Pass) -> u64
    requires idle { IsIdle store.now pass.old }
    ensures idle { IsIdle store.now pass.new }
    ensures number { pass.new.seats.number ≡ pass.old.seats.number }
{
    let mut records: u64 = 0;
    let mut next = Key::of_vertex(0);
    'cells: for _cell in 0..store.index_place() {
        if !next.is_below(Key::END) {
            break;
        }
        let found = look_at(rt, store, pass, next);
        records = records.wrapping_add(found.records);
        next = found.high;
    }
    records
}

/// How many records a cell has, and where it ends.
#[derive(Clone, Copy)]
struct Found {
    records: u64,
    high: Key,
}

/// Looks at the cell of a key, and holds it meanwhile.
fn look_at(rt: &impl Wait, store: &Store, pass: &mut Pass, key: Key) -> Found
    requires idle { IsIdle store.now pass.old }
    ensures idle { IsIdle store.now pass.new }
    ensures number { pass.new.seats.number ≡ pass.old.seats.number }
{
    pass.cells.take(rt, store, &mut pass.seats, &[key]);
    let mut found = Found {
        records: 0,
        high: Key::END,
    };
    if let Some(taken) = pass.cells.taken.list.first() {
        found = Found {
            records: records_in(&taken.held.value),
            high: taken.held.value.high(),
        };
    }
    pass.cells.put_back(store, &mut pass.seats);
    found
}

/// How many undo records and touches the rows of a cell have.
fn records_in(segment: &VersionSegment) -> u64 {
    let mut records: u64 = 0;
    'rows: for place in 0..segment.len() {
        records = records.wrapping_add(segment.records_at(place) as u64);
    }
    records
}
