//! Stores of one leaf, and the row for which they have no place.

use crate::texts::{between, numbered, repeated};
use cases_setting::{End, SEARCH, desk_with, difference_on, run_difference};
use std::alloc::{AllocError, Global};
use std::test::Fail;

/// A run over a store of one leaf, in which the service has no turn.
const ONE_LEAF: &str = "run --vertices v --edges e --journal j --leaves 1 --schedule t s1";

/// A write finds no place: nothing is committed, and the journal is empty.
const WRITE: End = (
    6,
    "commits 0 vertices 0 edges 0 undo 0 retired 0\n",
    6,
    &[("j", "")],
);

/// A graph of 300 vertices finds no place: nothing is created.
const LOAD: End = (6, "load full\n", 3, &[]);

/// A script that begins, writes the vertices from 1 to 220, and commits.
fn script_of_220(alloc: Global) -> Result<String, AllocError> {
    let vertices = numbered(alloc, "vertex ", 1, 221)?;
    between(alloc, "begin\n", vertices.as_str(), "commit\n")
}

/// Its report where 219 of the vertices find a place.
fn report_of_219(alloc: Global) -> Result<String, AllocError> {
    let oks = repeated(alloc, "ok\n", 219)?;
    between(
        alloc,
        "begin 1.1 start 0\n",
        oks.as_str(),
        "full\nskipped\n",
    )
}

/// The density limits leave 219 vertices in a leaf that is filled in the order of their ids, where the service doesn't
/// bring rows together on the way.
#[test]
fn the_220th_vertex_finds_no_place_in_one_leaf(rt: HostRuntime) -> Result<(), Fail> {
    let alloc = rt.alloc();
    let script = script_of_220(alloc)?;
    let report = report_of_219(alloc)?;
    let schedule = repeated(alloc, "1\n", 222)?;
    let mut desk = desk_with(alloc, &[("v", ""), ("e", "")], &[])?;
    desk.put("s1", script.as_bytes())?;
    desk.put("t", schedule.as_bytes())?;
    let difference = difference_on(&rt, alloc, &mut desk, ONE_LEAF, WRITE)?;
    assert!(rt; difference.is_empty(), "{difference}");
    assert_eq!(rt; desk.get("s1.report"), Some(report.as_bytes()));
    Ok(())
}

#[test]
fn a_graph_of_300_vertices_finds_no_place_in_one_leaf(rt: HostRuntime) -> Result<(), Fail> {
    let alloc = rt.alloc();
    let vertices = numbered(alloc, "", 1, 301)?;
    let files = [("v", vertices.as_str()), ("e", ""), SEARCH];
    let run = (&files[..], "--directed --leaves 1 s1");
    let difference = run_difference(&rt, alloc, run, &[], LOAD)?;
    assert!(rt; difference.is_empty(), "{difference}");
    Ok(())
}
