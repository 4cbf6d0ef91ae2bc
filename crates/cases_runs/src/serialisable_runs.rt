//! Runs in which a commit is refused that would not leave a serial order, beside the same runs without that.

use crate::whole_runs::RUNS;
use cases_setting::{E, End, File, Run, V, run_difference};
use std::test::Fail;

/// Two scripts each of which looks at the edge that the other one sets.
const FIRST: File = ("s1", "begin\nweight 1 2\nset 2 3 5\ncommit\n");

const SECOND: File = ("s2", "begin\nweight 2 3\nset 1 2 5\ncommit\n");

/// The second script, which then tries again.
const SECOND_AGAIN: File = (
    "s2",
    "begin\nweight 2 3\nset 1 2 5\ncommit\nbegin\nweight 2 3\nset 1 2 5\ncommit\n",
);

const FIRST_COMMITS: File = ("s1.report", "begin 1.1 start 1\nweight 1\nok\ncommit 2\n");

/// The runs, and how each ends.
const SKEWED: &[(Run, End)] = &[
    // without the flag both commit, and each has seen what the other changed
    (
        (&[V, E, FIRST, SECOND], "s1 s2"),
        (
            0,
            "commits 3 vertices 4 edges 2 undo 0 retired 0\n",
            7,
            &[
                FIRST_COMMITS,
                ("s2.report", "begin 2.1 start 1\nweight 1\nok\ncommit 3\n"),
            ],
        ),
    ),
    // with it the second is refused
    (
        (&[V, E, FIRST, SECOND], "--serial s1 s2"),
        (
            0,
            "commits 2 vertices 4 edges 2 undo 0 retired 0\n",
            7,
            &[
                FIRST_COMMITS,
                (
                    "s2.report",
                    "begin 2.1 start 1\nweight 1\nok\nconflict later 2\n",
                ),
            ],
        ),
    ),
    // and sees the change when it tries again
    (
        (&[V, E, FIRST, SECOND_AGAIN], "--serial s1 s2"),
        (
            0,
            "commits 3 vertices 4 edges 2 undo 0 retired 0\n",
            7,
            &[
                FIRST_COMMITS,
                (
                    "s2.report",
                    "begin 2.1 start 1\nweight 1\nok\nconflict later 2\n\
                     begin 2.2 start 2\nweight 5\nok\ncommit 3\n",
                ),
            ],
        ),
    ),
    // one that wrote nothing is never refused
    (
        (
            &[
                V,
                E,
                ("s1", "begin\nedge 1 4\ncommit\n"),
                ("s2", "begin\ncount\ncommit\n"),
                ("t", "2\n1\n1\n1\n"),
            ],
            "--serial --schedule t s1 s2",
        ),
        (
            0,
            "commits 2 vertices 4 edges 3 undo 0 retired 0\n",
            8,
            &[(
                "s2.report",
                "begin 2.1 start 1\nvertices 4 edges 2\ncommit -\n",
            )],
        ),
    ),
];

#[test]
fn a_commit_that_leaves_no_serial_order_is_refused(rt: HostRuntime) -> Result<(), Fail> {
    let alloc = rt.alloc();
    for &(run, end) in SKEWED {
        let difference = run_difference(&rt, alloc, run, &[], end)?;
        assert!(rt; difference.is_empty(), "{difference}");
    }
    Ok(())
}

#[test]
fn runs_without_overlaps_end_the_same(rt: HostRuntime) -> Result<(), Fail> {
    let alloc = rt.alloc();
    for (run, end) in RUNS {
        let words = format!(in alloc; "--serial {}", run.1)?;
        let difference = run_difference(&rt, alloc, (run.0, words.as_str()), &[], end)?;
        assert!(rt; difference.is_empty(), "{difference}");
    }
    Ok(())
}
