//! Scripts that have segments spread, leaves split, and rows leave them.

use crate::texts::{between, numbered, repeated};
use cases_setting::{End, desk_with, difference_on};
use std::alloc::{AllocError, Global};
use std::test::Fail;

/// The vertices and their edges lie in one leaf.
const IN_ONE_LEAF: &str = "run --vertices v --edges e --journal j --directed --leaves 1 s1";

/// Thirty-four vertices and 33 edges.
const EDGES: End = (
    0,
    "commits 2 vertices 34 edges 33 undo 0 retired 0\n",
    5,
    &[],
);

/// A second script writes while the first one counts.
const COUNTED: &str = "run --vertices v --edges e --journal j --directed --schedule t s1 s2";

/// The first script sees the graph without the second one's 239 edges.
const COUNT: End = (
    0,
    "commits 2 vertices 300 edges 239 undo 0 retired 0\n",
    8,
    &[(
        "s1.report",
        "begin 1.1 start 1\nvertices 300 edges 0\ncommit -\n",
    )],
);

/// A store that has as many leaves as it needs.
const EMPTIED: &str = "run --vertices v --edges e --journal j --directed s1";

/// Of 300 vertices and 299 edges the edges are gone.
const NO_EDGES: End = (
    0,
    "commits 2 vertices 300 edges 0 undo 0 retired 0\n",
    5,
    &[],
);

/// A script that adds the edges from vertex 1 to vertices 34 to 2, in this order, and asks for its neighbours.
fn script_from_34(alloc: Global) -> Result<String, AllocError> {
    let mut script = String::from_str(alloc, "begin\n")?;
    for number in 0..33 {
        script.push_str(format!(in alloc; "edge 1 {}\n", 34_u32.saturating_sub(number))?.as_str())?;
    }
    script.push_str("neighbours 1\ncommit\n")?;
    Ok(script)
}

/// Its report: the neighbours come from vertex 2 on.
fn report_from_2(alloc: Global) -> Result<String, AllocError> {
    let mut report = String::from_str(alloc, "begin 1.1 start 1\n")?;
    report.push_str(repeated(alloc, "ok\n", 33)?.as_str())?;
    report.push_str("neighbours 33")?;
    for number in 2..35 {
        report.push_str(format!(in alloc; " {number}")?.as_str())?;
    }
    report.push_str("\ncommit 2\n")?;
    Ok(report)
}

#[test]
fn a_full_segment_is_spread_on_the_way(rt: HostRuntime) -> Result<(), Fail> {
    let alloc = rt.alloc();
    let vertices = numbered(alloc, "", 1, 35)?;
    let script = script_from_34(alloc)?;
    let report = report_from_2(alloc)?;
    let mut desk = desk_with(alloc, &[("e", "")], &[])?;
    desk.put("v", vertices.as_bytes())?;
    desk.put("s1", script.as_bytes())?;
    let difference = difference_on(&rt, alloc, &mut desk, IN_ONE_LEAF, EDGES)?;
    assert!(rt; difference.is_empty(), "{difference}");
    assert_eq!(rt; desk.get("s1.report"), Some(report.as_bytes()));
    Ok(())
}

#[test]
fn a_leaf_is_split_while_a_count_goes_on(rt: HostRuntime) -> Result<(), Fail> {
    let alloc = rt.alloc();
    let vertices = numbered(alloc, "", 1, 301)?;
    let edges = numbered(alloc, "edge 1 ", 2, 241)?;
    let script = between(alloc, "begin\n", edges.as_str(), "commit\n")?;
    let turns = repeated(alloc, "2\n", 241)?;
    let schedule = between(alloc, "1\n1\n", turns.as_str(), "")?;
    let sources = [("e", ""), ("s1", "begin\ncount\ncommit\n")];
    let mut desk = desk_with(alloc, &sources, &[])?;
    desk.put("v", vertices.as_bytes())?;
    desk.put("s2", script.as_bytes())?;
    desk.put("t", schedule.as_bytes())?;
    let difference = difference_on(&rt, alloc, &mut desk, COUNTED, COUNT)?;
    assert!(rt; difference.is_empty(), "{difference}");
    Ok(())
}

#[test]
fn all_edges_of_a_vertex_are_dropped(rt: HostRuntime) -> Result<(), Fail> {
    let alloc = rt.alloc();
    let vertices = numbered(alloc, "", 1, 301)?;
    let edges = numbered(alloc, "1 ", 2, 301)?;
    let drops = numbered(alloc, "drop 1 ", 2, 301)?;
    let script = between(alloc, "begin\n", drops.as_str(), "commit\n")?;
    let oks = repeated(alloc, "ok\n", 299)?;
    let report = between(alloc, "begin 1.1 start 1\n", oks.as_str(), "commit 2\n")?;
    let mut desk = desk_with(alloc, &[], &[])?;
    desk.put("v", vertices.as_bytes())?;
    desk.put("e", edges.as_bytes())?;
    desk.put("s1", script.as_bytes())?;
    let difference = difference_on(&rt, alloc, &mut desk, EMPTIED, NO_EDGES)?;
    assert!(rt; difference.is_empty(), "{difference}");
    assert_eq!(rt; desk.get("s1.report"), Some(report.as_bytes()));
    Ok(())
}
