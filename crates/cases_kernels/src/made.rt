//! The image of a made graph of 10,000 vertices, from rows in parts.

use crate::checks::{are_ended, are_storable};
use crate::images::assert_same_in_parts;
use graph_files::{Weights, read_edges, read_vertices};
use graph_maker::{MadeGraph, make_graph};
use graph_model::{Ids, Key, Kind, MAX_LOAD_ROWS, NoMemory, Row};
use graphalytics_io::Edges;
use std::alloc::Global;
use std::process::Abort;
use std::test::Fail;
use std::thread::Threads;

/// The graph that `make --seed 7 --vertices 10000 --edges 100000` makes.
#[test]
fn parts_give_the_image_of_a_made_graph(rt: HostRuntime) -> Result<(), Fail> {
    let alloc = rt.alloc();
    let rows = made_rows(&rt, alloc)?;
    assert_same_if_told(&rt, alloc, rows.as_slice())
}

/// The rows of that graph.
fn made_rows(rt: &impl Abort, alloc: Global) -> Result<Vec<Row>, Fail> {
    let made = made_texts(alloc)?;
    let ids = made_ids(rt, alloc, made.vertices.as_slice())?;
    let edges = made_edges(rt, alloc, made.edges.as_slice(), &ids)?;
    let rows = rows_of(alloc, &ids, &edges)?;
    assert_eq!(rt; rows.len(), 210_000);
    Ok(rows)
}

/// Its two files.
fn made_texts(alloc: Global) -> Result<MadeGraph, Fail> {
    Ok(make_graph(alloc, 7, 10_000, 100_000)?)
}

/// Its vertices.
fn made_ids(rt: &impl Abort, alloc: Global, text: &[u8]) -> Result<Ids, Fail> {
    match read_vertices(alloc, text, MAX_LOAD_ROWS) {
        Ok(ids) => Ok(ids),
        Err(_) => panic!(rt; "vertices are refused"),
    }
}

/// Its edges.
fn made_edges(rt: &impl Abort, alloc: Global, text: &[u8], ids: &Ids) -> Result<Edges, Fail> {
    match read_edges(
        alloc,
        text,
        ids,
        Kind::Undirected,
        Weights::Ones,
        MAX_LOAD_ROWS,
    ) {
        Ok(edges) => Ok(edges),
        Err(_) => panic!(rt; "edges are refused"),
    }
}

/// Asserts that the image of the rows in parts is that of a builder, if they are told to be those of a graph.
fn assert_same_if_told<R: Threads + Sync + Abort>(
    rt: &R,
    alloc: Global,
    rows: &[Row],
) -> Result<(), Fail> {
    if !are_storable(rows) {
        panic!(rt; "rows don't rise");
    }
    if !are_ended(alloc, rows)? {
        panic!(rt; "an end has no vertex");
    }
    assert_same_in_parts(rt, alloc, &[Kind::Undirected], rows)
}

/// The rows of a graph without directions and without weights, in their order.
fn rows_of(alloc: Global, ids: &Ids, edges: &Edges) -> Result<Vec<Row>, NoMemory> {
    let mut keys = Vec::new(alloc);
    'vertices: for id in ids.as_slice() {
        keys.push(key_of(*id, 0))?;
    }
    'edges: for edge in edges.as_slice() {
        keys.push(key_of(edge.u, edge.v.wrapping_add(1)))?;
        keys.push(key_of(edge.v, edge.u.wrapping_add(1)))?;
    }
    keys.sort_unstable();
    let mut rows = Vec::new(alloc);
    'keys: for key in keys.as_slice() {
        let weight = if key.second == 0 { 0 } else { 1 };
        rows.push(Row { key: *key, weight })?;
    }
    Ok(rows)
}

/// A key of these two numbers.
fn key_of(src: u64, second: u64) -> Key {
    Key { src, second }
}
