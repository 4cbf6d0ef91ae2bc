//! Numbers at the edge of what is accepted: of a thousand digits, the largest weight, weights without digits on a side
//! of the point, and a byte that is no text.

use cases_setting::{End, File, Run, V, desk_with, difference_on, run_difference};
use std::alloc::{AllocError, Global};
use std::test::Fail;

/// A script that asks for the weight of an edge.
const ASK: File = ("s1", "begin\nweight 1 2\ncommit\n");

/// Weights that are accepted, and how the run ends.
const WEIGHTS: &[(Run, End)] = &[
    (
        (&[V, ("e", "1 2 4.294967295"), ASK], "--weights 9 s1"),
        (
            0,
            ONE_EDGE,
            5,
            &[(
                "s1.report",
                "begin 1.1 start 1\nweight 4294967295\ncommit -\n",
            )],
        ),
    ),
    (
        (&[V, ("e", "1 2 5."), ASK], "--weights 1 s1"),
        (
            0,
            ONE_EDGE,
            5,
            &[("s1.report", "begin 1.1 start 1\nweight 50\ncommit -\n")],
        ),
    ),
    (
        (&[V, ("e", "1 2 .5"), ASK], "--weights 1 s1"),
        (
            0,
            ONE_EDGE,
            5,
            &[("s1.report", "begin 1.1 start 1\nweight 5\ncommit -\n")],
        ),
    ),
];

/// Four vertices and an edge.
const ONE_EDGE: &str = "commits 1 vertices 4 edges 1 undo 0 retired 0\n";

/// The words of a run without edges.
const LINE: &str = "run --vertices v --edges e --journal j s1";

/// A vertex file, and how a run with it ends. Vertex 1 has no edge to itself.
const VERTICES: &[(&[u8], u32, &[u8], End)] = &[
    // 999 zeros and a 1
    (
        b"0",
        999,
        b"1",
        (
            0,
            "commits 1 vertices 1 edges 0 undo 0 retired 0\n",
            5,
            &[("s1.report", "begin 1.1 start 1\nnone\ncommit -\n")],
        ),
    ),
    // a thousand digits 9
    (b"9", 1000, b"", (1, "v line 1: id too large\n", 3, &[])),
    // a byte that is no text
    (b"", 0, b"\xff", (1, "v line 1: not a number\n", 3, &[])),
];

#[test]
fn weights_are_read_to_their_last_digit(rt: HostRuntime) -> Result<(), Fail> {
    let alloc = rt.alloc();
    for &(run, end) in WEIGHTS {
        let difference = run_difference(&rt, alloc, run, &[], end)?;
        assert!(rt; difference.is_empty(), "{difference}");
    }
    Ok(())
}

#[test]
fn ids_may_have_a_thousand_digits(rt: HostRuntime) -> Result<(), Fail> {
    let alloc = rt.alloc();
    for &(digit, times, last, end) in VERTICES {
        let text = repeated(alloc, digit, times, last)?;
        let mut desk = desk_with(
            alloc,
            &[("e", ""), ("s1", "begin\nweight 1 1\ncommit\n")],
            &[],
        )?;
        desk.put("v", text.as_slice())?;
        let difference = difference_on(&rt, alloc, &mut desk, LINE, end)?;
        assert!(rt; difference.is_empty(), "{difference}");
    }
    Ok(())
}

/// The same bytes so many times, and others after them.
fn repeated(alloc: Global, bytes: &[u8], times: u32, last: &[u8]) -> Result<Vec<u8>, AllocError> {
    let mut text = Vec::new(alloc);
    for _ in 0..times {
        text.extend_from_slice(bytes)?;
    }
    text.extend_from_slice(last)?;
    Ok(text)
}
