//! Runs of scripts on threads whose end is the same whatever comes first.

use crate::second_first::SecondFirst;
use cases_setting::{E, End, File, Run, V, WHOLE, desk_with, difference_by, run_difference};
use std::test::Fail;

/// What the load of the path writes.
const LOADED: &str =
    "commit 1 start 0 by 0.1\nvertex 1\nvertex 2\nvertex 3\nvertex 4\nedge 1 2 1\nedge 2 3 1\n";

/// A script that removes two vertices, one of which has an edge at first.
const REMOVES: File = (
    "s1",
    "begin\nunvertex 4\nunvertex 1\ndrop 1 2\nunvertex 1\ncommit\n",
);

/// Runs, and how each ends.
const RUNS: &[(Run, End)] = &[
    // a search, as without threads
    (
        (
            &[V, E, ("s1", "begin\nbfs 1 o\ncommit\n")],
            "--threads 2 s1",
        ),
        WHOLE,
    ),
    // vertices are removed, as without threads
    (
        (&[V, E, REMOVES], "--threads 1 s1"),
        (
            0,
            "commits 2 vertices 2 edges 1 undo 0 retired 0\n",
            5,
            &[
                (
                    "j",
                    "commit 1 start 0 by 0.1\nvertex 1\nvertex 2\nvertex 3\nvertex 4\nedge 1 2 1\nedge 2 3 1\n\
                     commit 2 start 1 by 1.1\nunvertex 4\ndrop 1 2\nunvertex 1\n",
                ),
                (
                    "s1.report",
                    "begin 1.1 start 1\nok\nhas edges\nok\nok\ncommit 2\n",
                ),
            ],
        ),
    ),
    // one thread runs its scripts one after the other
    (
        (
            &[
                V,
                E,
                ("s1", "begin\nset 1 2 9\ncommit\n"),
                ("s2", "begin\nset 1 2 8\ncommit\n"),
            ],
            "--threads 1 s1 s2",
        ),
        (
            0,
            "commits 3 vertices 4 edges 2 undo 0 retired 0\n",
            7,
            &[
                (
                    "j",
                    "commit 1 start 0 by 0.1\nvertex 1\nvertex 2\nvertex 3\nvertex 4\nedge 1 2 1\nedge 2 3 1\n\
                     commit 2 start 1 by 1.1\nset 1 2 9\ncommit 3 start 2 by 2.1\nset 1 2 8\n",
                ),
                ("s1.report", "begin 1.1 start 1\nok\ncommit 2\n"),
                ("s2.report", "begin 2.1 start 2\nok\ncommit 3\n"),
            ],
        ),
    ),
    // nothing is loaded, so the first commit is the script's
    (
        (
            &[("v", ""), ("e", ""), ("s1", "begin\nvertex 7\ncommit\n")],
            "--threads 32 s1",
        ),
        (
            0,
            "commits 1 vertices 1 edges 0 undo 0 retired 0\n",
            5,
            &[
                ("j", "commit 1 start 0 by 1.1\nvertex 7\n"),
                ("s1.report", "begin 1.1 start 0\nok\ncommit 1\n"),
            ],
        ),
    ),
];

#[test]
fn runs_on_threads_end_as_they_must(rt: HostRuntime) -> Result<(), Fail> {
    let alloc = rt.alloc();
    for &(run, end) in RUNS {
        let difference = run_difference(&rt, alloc, run, &[], end)?;
        assert!(rt; difference.is_empty(), "{difference}");
    }
    Ok(())
}

/// Two scripts that read.
const READERS: &[File] = &[
    V,
    E,
    ("s1", "begin\nweight 1 2\ncommit\n"),
    ("s2", "begin\nweight 2 3\ncommit\n"),
];

#[test]
fn the_second_script_goes_on_while_the_first_is_held(rt: HostRuntime) -> Result<(), Fail> {
    let alloc = rt.alloc();
    let gate = SecondFirst::new();
    let mut desk = desk_with(alloc, READERS, &[])?;
    let line = "run --vertices v --edges e --journal j --threads 2 s1 s2";
    let end = (
        0,
        "commits 1 vertices 4 edges 2 undo 0 retired 0\n",
        7,
        &[
            ("j", LOADED),
            ("s1.report", "begin 1.1 start 1\nweight 1\ncommit -\n"),
            ("s2.report", "begin 2.1 start 1\nweight 1\ncommit -\n"),
        ] as &[File],
    );
    let difference = difference_by(&rt, alloc, &mut desk, line, &gate, end)?;
    assert!(rt; difference.is_empty(), "{difference}");
    assert!(rt;
        !gate.has_spent_its_tries(),
        "the first script wasn't run beside the second"
    );
    Ok(())
}
