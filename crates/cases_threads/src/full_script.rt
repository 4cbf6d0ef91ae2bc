//! A script on threads that finds no place for a row, and the other one that goes on.

use cases_setting::{End, desk_with, difference_on};
use desk_io::MemoryDesk;
use std::alloc::{AllocError, Global};
use std::test::Fail;

/// Two threads over a store of one leaf.
const ONE: &str = "run --vertices v --edges e --journal j --threads 2 --leaves 1 s1";

/// A write finds no place: nothing is committed, and the journal is empty.
const EMPTY: End = (
    6,
    "commits 0 vertices 0 edges 0 undo 0 retired 0\n",
    5,
    &[("j", "")],
);

/// One thread runs one script after the other.
const AFTER: &str = "run --vertices v --edges e --journal j --threads 1 --leaves 1 s1 s2";

/// What the first has written is taken back, so the second finds a place.
const OTHER: End = (
    6,
    "commits 1 vertices 1 edges 0 undo 0 retired 0\n",
    7,
    &[
        ("j", "commit 1 start 0 by 2.1\nvertex 1000\n"),
        ("s2.report", "begin 2.1 start 0\nok\ncommit 1\n"),
    ],
);

/// A script that begins, writes the vertices from 1 to 260, and commits.
fn script_of_260(alloc: Global) -> Result<String, AllocError> {
    let mut script = String::from_str(alloc, "begin\n")?;
    for vertex in 1..261 {
        script.push_str(format!(in alloc; "vertex {vertex}\n")?.as_str())?;
    }
    script.push_str("commit\n")?;
    Ok(script)
}

/// Its report where so many vertices find a place.
fn report_of(alloc: Global, places: usize) -> Result<String, AllocError> {
    let mut report = String::from_str(alloc, "begin 1.1 start 0\n")?;
    for _ in 0..places {
        report.push_str("ok\n")?;
    }
    report.push_str("full\n")?;
    for _ in places..260 {
        report.push_str("skipped\n")?;
    }
    Ok(report)
}

/// How many lines are answered `ok`.
fn places_of(desk: &MemoryDesk) -> usize {
    match str::from_utf8(desk.get("s1.report").unwrap_or(b"")) {
        Ok(report) => report
            .lines()
            .filter(|line: &&str| -> bool { **line == *"ok" })
            .count(),
        Err(_) => 0,
    }
}

/// The service brings rows together on the way, so how many vertices find a place isn't the same each time.
#[test]
fn a_leaf_has_places_for_some_of_260_vertices(rt: HostRuntime) -> Result<(), Fail> {
    let alloc = rt.alloc();
    let script = script_of_260(alloc)?;
    let mut desk = desk_with(alloc, &[("v", ""), ("e", "")], &[])?;
    desk.put("s1", script.as_bytes())?;
    let difference = difference_on(&rt, alloc, &mut desk, ONE, EMPTY)?;
    assert!(rt; difference.is_empty(), "{difference}");
    let places = places_of(&desk);
    assert!(rt; (103..257).contains(&places), "{places} places");
    let report = report_of(alloc, places)?;
    assert_eq!(rt; desk.get("s1.report"), Some(report.as_bytes()));
    Ok(())
}

#[test]
fn the_other_script_goes_on_after_one_is_full(rt: HostRuntime) -> Result<(), Fail> {
    let alloc = rt.alloc();
    let script = script_of_260(alloc)?;
    let sources = [("v", ""), ("e", ""), ("s2", "begin\nvertex 1000\ncommit\n")];
    let mut desk = desk_with(alloc, &sources, &[])?;
    desk.put("s1", script.as_bytes())?;
    let difference = difference_on(&rt, alloc, &mut desk, AFTER, OTHER)?;
    assert!(rt; difference.is_empty(), "{difference}");
    let report = report_of(alloc, places_of(&desk))?;
    assert_eq!(rt; desk.get("s1.report"), Some(report.as_bytes()));
    Ok(())
}
