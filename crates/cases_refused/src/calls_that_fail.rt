//! Runs on a desk where one call fails.
//!
//! The calls of a run, in order: two reads of each source, a piece and its end; then for each
//! output the call that creates it and the one that writes it.

use cases_setting::{E, End, File, JOURNAL, PATH, REPORT, Run, SEARCH, V, WHOLE, run_difference};
use std::test::Fail;

/// A run, and how it ends where a call fails.
type Failing = (Run<'static>, &'static [(u64, End<'static>)]);

/// A search on a path, by turns and on threads, and two scripts that meet.
const RUNS: &[Failing] = &[
    (PATH, CALLS),
    ((&[V, E, SEARCH], "--threads 2 s1"), CALLS),
    (MEETING, CALLS_OF_TWO),
];

/// Each call of the search in turn, and one beyond the last. The second write is call 10, the third read call 3.
const CALLS: &[(u64, End)] = &[
    (1, (4, "read failed v\n", 3, &[])),
    (2, (4, "read failed v\n", 3, &[])),
    (3, (4, "read failed e\n", 3, &[])),
    (4, (4, "read failed e\n", 3, &[])),
    (5, (4, "read failed s1\n", 3, &[])),
    (6, (4, "read failed s1\n", 3, &[])),
    (7, (5, "write failed j\n", 3, &[])),
    (8, (5, "write failed j\n", 4, &[("j", "")])),
    (9, (5, "write failed s1.report\n", 4, &[JOURNAL])),
    (
        10,
        (
            5,
            "write failed s1.report\n",
            5,
            &[JOURNAL, ("s1.report", "")],
        ),
    ),
    (11, (5, "write failed o\n", 5, &[JOURNAL, REPORT])),
    (
        12,
        (5, "write failed o\n", 6, &[JOURNAL, REPORT, ("o", "")]),
    ),
    (13, WHOLE),
];

/// Two scripts, of which the second meets the open transaction of the first.
const MEETING: Run = (
    &[
        V,
        E,
        ("s1", "begin\nset 1 2 9\ncommit\n"),
        ("s2", "begin\nset 1 2 8\ncommit\n"),
    ],
    "s1 s2",
);

/// What they write.
const JOURNAL_OF_TWO: File = (
    "j",
    "commit 1 start 0 by 0.1\nvertex 1\nvertex 2\nvertex 3\nvertex 4\nedge 1 2 1\nedge 2 3 1\n\
     commit 2 start 1 by 1.1\nset 1 2 9\n",
);

const FIRST_REPORT: File = ("s1.report", "begin 1.1 start 1\nok\ncommit 2\n");

const SECOND_REPORT: File = (
    "s2.report",
    "begin 2.1 start 1\nconflict open 1.1\nskipped\n",
);

/// Each call of them in turn, and one beyond the last.
const CALLS_OF_TWO: &[(u64, End)] = &[
    (1, (4, "read failed v\n", 4, &[])),
    (2, (4, "read failed v\n", 4, &[])),
    (3, (4, "read failed e\n", 4, &[])),
    (4, (4, "read failed e\n", 4, &[])),
    (5, (4, "read failed s1\n", 4, &[])),
    (6, (4, "read failed s1\n", 4, &[])),
    (7, (4, "read failed s2\n", 4, &[])),
    (8, (4, "read failed s2\n", 4, &[])),
    (9, (5, "write failed j\n", 4, &[])),
    (10, (5, "write failed j\n", 5, &[("j", "")])),
    (11, (5, "write failed s1.report\n", 5, &[JOURNAL_OF_TWO])),
    (
        12,
        (
            5,
            "write failed s1.report\n",
            6,
            &[JOURNAL_OF_TWO, ("s1.report", "")],
        ),
    ),
    (
        13,
        (
            5,
            "write failed s2.report\n",
            6,
            &[JOURNAL_OF_TWO, FIRST_REPORT],
        ),
    ),
    (
        14,
        (
            5,
            "write failed s2.report\n",
            7,
            &[JOURNAL_OF_TWO, FIRST_REPORT, ("s2.report", "")],
        ),
    ),
    (
        15,
        (
            0,
            "commits 2 vertices 4 edges 2 undo 0 retired 0\n",
            7,
            &[JOURNAL_OF_TWO, FIRST_REPORT, SECOND_REPORT],
        ),
    ),
];

#[test]
fn each_call_of_the_desk_fails_once(rt: HostRuntime) -> Result<(), Fail> {
    let alloc = rt.alloc();
    for &(run, calls) in RUNS {
        for &(call, end) in calls {
            let difference = run_difference(&rt, alloc, run, &[call], end)?;
            assert!(rt;
                difference.is_empty(),
                "{} at call {call}: {difference}",
                run.1
            );
        }
    }
    Ok(())
}
