//! Four scripts on a graph that is made, on four threads; and the same run where each call of the desk fails in turn.

use cases_setting::{End, File, desk_with, difference_on};
use desk_io::MemoryDesk;
use std::alloc::{AllocError, Global};
use std::test::Fail;

/// A graph of one component.
const MADE: &str = "make --seed 7 --vertices 50 --edges 300 --out v --edges-out e";

const RUN: &str = "run --vertices v --edges e --journal j --threads 4 s1 s2 s3 s4";

/// One computes the components, and each other one adds a vertex with an edge to vertex 1.
const SCRIPTS: &[File] = &[
    ("s1", "begin\nwcc o\ncommit\n"),
    ("s2", "begin\nvertex 20001\nedge 20001 1\ncommit\n"),
    ("s3", "begin\nvertex 20002\nedge 20002 1\ncommit\n"),
    ("s4", "begin\nvertex 20003\nedge 20003 1\ncommit\n"),
];

/// The scripts, and the two files that are made.
const SOURCES: End = (0, "made vertices 50 edges 300\n", 6, &[]);

/// With the journal, four reports and the table.
const WHOLE: End = (
    0,
    "commits 4 vertices 53 edges 303 undo 0 retired 0\n",
    12,
    &[],
);

/// Each call of the run, and one beyond the last: two reads of each source, then a create and a write of each output.
/// How the run ends where it fails, and how many outputs are whole then.
const CALLS: &[(u64, End, usize)] = &[
    (1, (4, "read failed v\n", 6, &[]), 0),
    (2, (4, "read failed v\n", 6, &[]), 0),
    (3, (4, "read failed e\n", 6, &[]), 0),
    (4, (4, "read failed e\n", 6, &[]), 0),
    (5, (4, "read failed s1\n", 6, &[]), 0),
    (6, (4, "read failed s1\n", 6, &[]), 0),
    (7, (4, "read failed s2\n", 6, &[]), 0),
    (8, (4, "read failed s2\n", 6, &[]), 0),
    (9, (4, "read failed s3\n", 6, &[]), 0),
    (10, (4, "read failed s3\n", 6, &[]), 0),
    (11, (4, "read failed s4\n", 6, &[]), 0),
    (12, (4, "read failed s4\n", 6, &[]), 0),
    (13, (5, "write failed j\n", 6, &[]), 0),
    (14, (5, "write failed j\n", 7, &[("j", "")]), 0),
    (15, (5, "write failed s1.report\n", 7, &[]), 1),
    (
        16,
        (5, "write failed s1.report\n", 8, &[("s1.report", "")]),
        1,
    ),
    (17, (5, "write failed s2.report\n", 8, &[]), 2),
    (
        18,
        (5, "write failed s2.report\n", 9, &[("s2.report", "")]),
        2,
    ),
    (19, (5, "write failed s3.report\n", 9, &[]), 3),
    (
        20,
        (5, "write failed s3.report\n", 10, &[("s3.report", "")]),
        3,
    ),
    (21, (5, "write failed s4.report\n", 10, &[]), 4),
    (
        22,
        (5, "write failed s4.report\n", 11, &[("s4.report", "")]),
        4,
    ),
    (23, (5, "write failed o\n", 11, &[]), 5),
    (24, (5, "write failed o\n", 12, &[("o", "")]), 5),
    (25, WHOLE, 5),
];

/// The outputs before the table, each with its length, which is the same whoever commits first.
const LENGTHS: &[(&str, usize)] = &[
    ("j", 4456),
    ("s1.report", 36),
    ("s2.report", 33),
    ("s3.report", 33),
    ("s4.report", 33),
];

/// A desk with the sources, where the calls of these numbers fail.
fn desk_of(alloc: Global, made: &MemoryDesk, failing: &[u64]) -> Result<MemoryDesk, AllocError> {
    let mut desk = desk_with(alloc, SCRIPTS, failing)?;
    for name in ["v", "e"] {
        if let Some(text) = made.get(name) {
            desk.put(name, text)?;
        }
    }
    Ok(desk)
}

/// The number of a line's last byte, a digit.
fn last_digit(text: &[u8], end: usize) -> u8 {
    match text.get(end) {
        Some(digit) => digit.saturating_sub(b'0'),
        None => 0,
    }
}

/// The components at the start that the first report names: all vertices are connected, and so are those of the scripts
/// that had committed by then.
fn components(alloc: Global, desk: &MemoryDesk) -> Result<String, AllocError> {
    let start = last_digit(
        desk.get("s1.report").unwrap_or(b""),
        "begin 1.1 start ".len(),
    );
    let mut table = String::new(alloc);
    for vertex in 1..51 {
        table.push_str(format!(in alloc; "{vertex} 1\n")?.as_str())?;
    }
    for (vertex, report) in [
        (20_001, "s2.report"),
        (20_002, "s3.report"),
        (20_003, "s4.report"),
    ] {
        let report = desk.get(report).unwrap_or(b"");
        if last_digit(report, report.len().saturating_sub(2)) <= start {
            table.push_str(format!(in alloc; "{vertex} 1\n")?.as_str())?;
        }
    }
    Ok(table)
}

/// Whether so many outputs are whole.
fn are_whole(desk: &MemoryDesk, count: usize) -> bool {
    for &(name, length) in LENGTHS.iter().take(count) {
        match desk.get(name) {
            Some(text) if text.len() == length => {}
            _ => return false,
        }
    }
    true
}

#[test]
fn components_are_those_of_the_graph_at_the_start(rt: HostRuntime) -> Result<(), Fail> {
    let alloc = rt.alloc();
    let mut made = desk_with(alloc, SCRIPTS, &[])?;
    let difference = difference_on(&rt, alloc, &mut made, MADE, SOURCES)?;
    assert!(rt; difference.is_empty(), "{difference}");
    let mut desk = desk_of(alloc, &made, &[])?;
    let difference = difference_on(&rt, alloc, &mut desk, RUN, WHOLE)?;
    assert!(rt; difference.is_empty(), "{difference}");
    let table = components(alloc, &desk)?;
    assert_eq!(rt; desk.get("o"), Some(table.as_bytes()));
    Ok(())
}

#[test]
fn each_call_of_a_run_on_threads_fails_once(rt: HostRuntime) -> Result<(), Fail> {
    let alloc = rt.alloc();
    let mut made = desk_with(alloc, SCRIPTS, &[])?;
    let difference = difference_on(&rt, alloc, &mut made, MADE, SOURCES)?;
    assert!(rt; difference.is_empty(), "{difference}");
    for &(call, end, whole) in CALLS {
        let mut desk = desk_of(alloc, &made, &[call])?;
        let difference = difference_on(&rt, alloc, &mut desk, RUN, end)?;
        assert!(rt; difference.is_empty(), "at call {call}: {difference}");
        assert!(rt; are_whole(&desk, whole), "at call {call}");
    }
    Ok(())
}
