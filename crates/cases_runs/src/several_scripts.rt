//! Runs of two scripts, by rotation and by a schedule.

use cases_setting::{E, End, File, Run, V, run_difference};
use std::test::Fail;

/// A script that sets the weight of an edge.
const SET_NINE: File = ("s1", "begin\nset 1 2 9\ncommit\n");

/// Another one that sets it.
const SET_EIGHT: File = ("s2", "begin\nset 1 2 8\ncommit\n");

/// The journal where the first of them commits alone.
const SET_ONCE: File = (
    "j",
    "commit 1 start 0 by 0.1\nvertex 1\nvertex 2\nvertex 3\nvertex 4\nedge 1 2 1\nedge 2 3 1\n\
     commit 2 start 1 by 1.1\nset 1 2 9\n",
);

/// What its report says.
const NINE_IS_SET: File = ("s1.report", "begin 1.1 start 1\nok\ncommit 2\n");

/// What is said of one commit that keeps the numbers of vertices and edges.
const KEPT: &str = "commits 2 vertices 4 edges 2 undo 0 retired 0\n";

/// Runs, and how each ends.
const RUNS: &[(Run, End)] = &[
    // by rotation the first script's transaction is open when the second writes
    (
        (&[V, E, SET_NINE, SET_EIGHT], "s1 s2"),
        (
            0,
            KEPT,
            7,
            &[
                SET_ONCE,
                NINE_IS_SET,
                (
                    "s2.report",
                    "begin 2.1 start 1\nconflict open 1.1\nskipped\n",
                ),
            ],
        ),
    ),
    // by this schedule it has committed since the second began
    (
        (
            &[V, E, SET_NINE, SET_EIGHT, ("t", "2\n1\n1\n1\n2\n2\n")],
            "--schedule t s1 s2",
        ),
        (
            0,
            KEPT,
            8,
            &[
                SET_ONCE,
                NINE_IS_SET,
                (
                    "s2.report",
                    "begin 2.1 start 1\nconflict later 2\nskipped\n",
                ),
            ],
        ),
    ),
    // a transaction sees the graph of its begin, and the next one what was committed since
    (
        (
            &[
                V,
                E,
                ("s1", "begin\ncount\ncommit\nbegin\ncount\ncommit\n"),
                ("s2", "begin\nedge 1 4\ncommit\n"),
                ("t", "1\n2\n2\n2\n1\n1\n1\n1\n1\n"),
            ],
            "--schedule t s1 s2",
        ),
        (
            0,
            "commits 2 vertices 4 edges 3 undo 0 retired 0\n",
            8,
            &[
                (
                    "j",
                    "commit 1 start 0 by 0.1\nvertex 1\nvertex 2\nvertex 3\nvertex 4\nedge 1 2 1\nedge 2 3 1\n\
                     commit 2 start 1 by 2.1\nedge 1 4 1\n",
                ),
                (
                    "s1.report",
                    "begin 1.1 start 1\nvertices 4 edges 2\ncommit -\n\
                     begin 1.2 start 2\nvertices 4 edges 3\ncommit -\n",
                ),
                ("s2.report", "begin 2.1 start 1\nok\ncommit 2\n"),
            ],
        ),
    ),
    // an edge clashes with the removal of its end
    (
        (
            &[
                V,
                E,
                ("s1", "begin\nunvertex 4\ncommit\n"),
                ("s2", "begin\nedge 1 4\ncommit\n"),
            ],
            "s1 s2",
        ),
        (
            0,
            "commits 2 vertices 3 edges 2 undo 0 retired 0\n",
            7,
            &[
                (
                    "j",
                    "commit 1 start 0 by 0.1\nvertex 1\nvertex 2\nvertex 3\nvertex 4\nedge 1 2 1\nedge 2 3 1\n\
                     commit 2 start 1 by 1.1\nunvertex 4\n",
                ),
                ("s1.report", "begin 1.1 start 1\nok\ncommit 2\n"),
                (
                    "s2.report",
                    "begin 2.1 start 1\nconflict open 1.1\nskipped\n",
                ),
            ],
        ),
    ),
    // what an aborted transaction wrote clashes no more
    (
        (
            &[
                V,
                E,
                ("s1", "begin\nset 1 2 9\nabort\n"),
                SET_EIGHT,
                ("t", "2\n1\n1\n1\n"),
            ],
            "--schedule t s1 s2",
        ),
        (
            0,
            KEPT,
            8,
            &[
                (
                    "j",
                    "commit 1 start 0 by 0.1\nvertex 1\nvertex 2\nvertex 3\nvertex 4\nedge 1 2 1\nedge 2 3 1\n\
                     commit 2 start 1 by 2.1\nset 1 2 8\n",
                ),
                ("s1.report", "begin 1.1 start 1\nok\naborted\n"),
                ("s2.report", "begin 2.1 start 1\nok\ncommit 2\n"),
            ],
        ),
    ),
];

#[test]
fn scripts_take_their_turns(rt: HostRuntime) -> Result<(), Fail> {
    let alloc = rt.alloc();
    for &(run, end) in RUNS {
        let difference = run_difference(&rt, alloc, run, &[], end)?;
        assert!(rt; difference.is_empty(), "{difference}");
    }
    Ok(())
}
