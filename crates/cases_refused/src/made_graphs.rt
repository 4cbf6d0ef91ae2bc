//! Graphs that are made from a seed.

use cases_setting::{End, File, call_difference};
use std::test::Fail;

/// The words of a small graph.
const SMALL: &str = "make --seed 0 --vertices 10 --edges 2 --out v --edges-out e";

const SMALL_V: File = ("v", "1\n2\n3\n4\n5\n6\n7\n8\n9\n10\n");

/// The number of the desk's call that fails, and how `make` ends: a call creates each file, and one writes it.
const CALLS: &[(u64, End)] = &[
    (1, (5, "write failed v\n", 0, &[])),
    (2, (5, "write failed v\n", 1, &[("v", "")])),
    (3, (5, "write failed e\n", 1, &[SMALL_V])),
    (4, (5, "write failed e\n", 2, &[SMALL_V, ("e", "")])),
    (
        5,
        (
            0,
            "made vertices 10 edges 2\n",
            2,
            &[SMALL_V, ("e", "6 1\n10 5\n")],
        ),
    ),
];

#[test]
fn a_graph_is_made_of_its_seed_or_an_output_fails(rt: HostRuntime) -> Result<(), Fail> {
    let alloc = rt.alloc();
    for &(call, end) in CALLS {
        let difference = call_difference(&rt, alloc, &[], &[call], SMALL, end)?;
        assert!(rt; difference.is_empty(), "at call {call}: {difference}");
    }
    Ok(())
}
