//! The faster kernels against the plain ones, on a graph that is made from a seed.

use cases_setting::{End, desk_with, difference_on};
use desk_io::MemoryDesk;
use std::test::Fail;

/// Each plain kernel, and the faster one at three widths, from the same root.
const SCRIPT: &str = "begin\nbfs 1 hops\nfastbfs 1 fasthops\nsssp 1 paths\nfastsssp 1 1 narrow\n\
    fastsssp 1 7 middle\nfastsssp 1 4294967295 wide\ncommit\n";

/// The results that are the same.
const SAME: &[(&str, &str)] = &[
    ("hops", "fasthops"),
    ("paths", "narrow"),
    ("paths", "middle"),
    ("paths", "wide"),
];

/// The words that make the graph, and those that run the script after them, with the ends.
const CALLS: &[(&str, End)] = &[
    (
        "make --seed 7 --vertices 10000 --edges 100000 --out v --edges-out e",
        (0, "made vertices 10000 edges 100000\n", 3, &[]),
    ),
    (
        "run --vertices v --edges e --journal j s1",
        (
            0,
            "made vertices 10000 edges 100000\n\
             commits 1 vertices 10000 edges 100000 undo 0 retired 0\n",
            11,
            &[],
        ),
    ),
];

#[test]
fn faster_kernels_give_the_tables_of_the_plain_ones(rt: HostRuntime) -> Result<(), Fail> {
    let alloc = rt.alloc();
    let mut desk = desk_with(alloc, &[("s1", SCRIPT)], &[])?;
    for &(words, end) in CALLS {
        let difference = difference_on(&rt, alloc, &mut desk, words, end)?;
        assert!(rt; difference.is_empty(), "{difference}");
    }
    assert_eq!(rt; first_other(&desk), "none");
    Ok(())
}

/// The first of the faster kernels' results that is another than the plain one, or none.
fn first_other(desk: &MemoryDesk) -> &str {
    for &(plain, faster) in SAME {
        if desk.get(faster) != desk.get(plain) {
            return faster;
        }
    }
    "none"
}
