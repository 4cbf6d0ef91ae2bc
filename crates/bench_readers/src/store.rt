//! A store with a graph, one of whose passes has a transaction that the others read.

ghost use Rattle.std.specs.Prelude.{◌≡◌, ◌≤◌, ◌++◌, ◌∷◌, [], length};
ghost use Rattle.std.specs.Vec.{vec_capacity};
ghost use Rattle.bench_graphs.specs.Loadable.{IsLoadableGraph};
ghost use Rattle.graph_model.specs.declared.write.Kind.TheVariants.{Undirected};
ghost use Rattle.reader_parts.specs.SharedStore.Ends.{AreIdle};

use crate::rounds::time_pass;
use anyhow::Result;
use bench_graphs::Graph;
use graph_model::{Kind, MAX_LEAVES, MAX_PASSES, MAX_TXNS_PER_PASS};
use reader_parts::below::{Pass, Store, close, loaded};
use std::alloc::Global;
use std::rt::Clock;
use std::sync::Wait;
use std::thread::Threads;
use txn_manager::Config;

/// How many rows a leaf has after a load.
const LEAF_ROWS: u64 = 208;

/// Makes a store with the graph, and has so many readers read it in so many rounds.
pub fn time_in_store<R: Threads + Wait + Clock + Print + Sync>(
    rt: &R,
    alloc: Global,
    graph: &Graph,
    readers: u64,
    rounds: u64,
) -> Result<()>
    requires { IsLoadableGraph graph.now }
{
    let load = graph.load(alloc)?;
    let (store, mut passes) = loaded(alloc, config_for(graph, readers), load)?;
    let ended = time_on(rt, &store, &mut passes.list, rounds);
    close(store, passes);
    ended
}

/// Room for the graph alone, for the readers' passes, and for the one that they read.
fn config_for(graph: &Graph, readers: u64) -> Config
    ensures { result.kind ≡ Undirected }
{
    let rows = (graph.ids.len() as u64).wrapping_add((graph.edges.len() as u64).wrapping_mul(2));
    Config {
        kind: Kind::Undirected,
        leaves: (rows / LEAF_ROWS + 1).min(u64::from(MAX_LEAVES)) as u32,
        passes: readers.max(1).saturating_add(1).min(u64::from(MAX_PASSES)) as u32,
        txns_per_pass: MAX_TXNS_PER_PASS,
    }
}

/// Has all passes but the last one read what a transaction of the last one sees.
fn time_on<R: Threads + Wait + Clock + Print + Sync>(
    rt: &R,
    store: &Store,
    list: &mut Vec<Pass>,
    rounds: u64,
) -> Result<()>
    requires { AreIdle store.now list.old.items }
    ensures { AreIdle store.now list.new.items }
{
    if list.len() < 2 {
        return Ok(());
    }
    let mut pass = take_last(list);
    let ended = time_pass(rt, store, &mut pass, list, rounds);
    list.push_reserved(pass);
    ended
}

/// The last pass of a list that has one.
fn take_last(list: &mut Vec<Pass>) -> Pass
    requires { 1 ≤ length list.old.items }
    ensures items { list.old.items ≡ list.new.items ++ result ∷ [] }
    ensures capacity { vec_capacity list.new ≡ vec_capacity list.old }
{
    let Some(pass) = list.pop() else {
        unreachable!()
    };
    pass
}
