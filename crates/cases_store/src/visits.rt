//! Passes in threads of their own that visit all cells of one store, which is closed then.

ghost use Rattle.cases_store.specs.Visits.{AreAtEase, IsAtEase, StaysAtEase};

use crate::cell::visit;
use graph_model::{Kind, NoMemory};
use std::alloc::Global;
use std::sync::Wait;
use std::thread::{Threads, for_each_mut};
use store_rule::{Content, Pass, Store};
use txn_manager::{Config, StoreRefusal};

/// What two threads leave: how many cells have been changed by each of them in each round and by nobody else, how many
/// cells there are at the end, and how many of those have a row.
#[derive(Clone, Copy, Debug, PartialEq, Eq)]
pub struct Visited {
    pub changed: u32,
    pub cells: u32,
    pub filled: u32,
}

/// Two threads visit each cell of one store once a round. Then the store is closed.
pub fn visit_by_two<R: Threads + Wait + Sync>(
    rt: &R,
    alloc: Global,
    rounds: u32,
) -> Result<Visited, StoreRefusal> {
    let config = Config {
        kind: Kind::Directed,
        leaves: 2,
        passes: 2,
        txns_per_pass: 1,
    };
    let (store, mut passes) = Store::make(alloc, config)?;
    visit_together(rt, &store, &mut passes.list, rounds);
    let changed = cells_at_version(&store, &mut passes.list, 4 * u64::from(rounds));
    let content = store.take_apart(passes);
    let cells = content.cells.len();
    let filled = filled_cells(alloc, content)?;
    Ok(Visited {
        changed,
        cells,
        filled,
    })
}

/// All passes visit all cells, each in a thread of its own.
fn visit_together<R: Threads + Wait + Sync>(
    rt: &R,
    store: &Store,
    passes: &mut Vec<Pass>,
    rounds: u32,
)
    requires { AreAtEase store.now passes.old.items }
    ensures { AreAtEase store.now passes.new.items }
{
    for_each_mut(
        rt,
        passes.as_mut_slice(),
        2,
        &|_place: usize, pass: &mut Pass|
            requires { IsAtEase store.now pass.old }
            ensures { StaysAtEase store.entry.now pass.old pass.new }
        { visit_all(rt, store, pass, rounds) },
    );
}

/// Visits each cell once a round.
fn visit_all(rt: &impl Wait, store: &Store, pass: &mut Pass, rounds: u32)
    requires { IsAtEase store.now pass.old }
    ensures { StaysAtEase store.now pass.old pass.new }
{
    let cells = store.index_place();
    'rounds: for _round in 0..rounds {
        'cells: for cell in 0..cells {
            visit(rt, store, pass, cell);
        }
    }
}

/// How many cells have this version, by looks of the first pass. Nobody holds one.
fn cells_at_version(store: &Store, passes: &mut Vec<Pass>, version: u64) -> u32
    requires { AreAtEase store.now passes.old.items }
    ensures { AreAtEase store.now passes.new.items }
{
    if passes.is_empty() {
        return 0;
    }
    count_versions(store, &mut passes[0], version)
}

/// The same by this pass.
fn count_versions(store: &Store, pass: &mut Pass, version: u64) -> u32
    requires { IsAtEase store.now pass.old }
    ensures { StaysAtEase store.now pass.old pass.new }
{
    let latches = store.cells();
    let cells = store.index_place();
    let mut count: u32 = 0;
    'cells: for cell in 0..cells {
        if latches.version(&mut pass.latch, cell) == version {
            count = count.wrapping_add(1);
        }
    }
    count
}

/// How many cells of a closed store have a row.
fn filled_cells(alloc: Global, mut content: Content) -> Result<u32, NoMemory> {
    let mut filled: u32 = 0;
    'cells: for _cell in 0..content.cells.len() {
        if let Some(segment) = content.cells.pop(alloc)? {
            filled = filled.wrapping_add(u32::from(!segment.is_empty()));
        }
    }
    Ok(filled)
}
