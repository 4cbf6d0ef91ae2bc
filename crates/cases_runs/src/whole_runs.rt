//! Runs of one script to the end, each with all that it writes.

use cases_setting::{
    E, End, File, JOURNAL, PATH, REPORT, RESULT, Run, SEARCH, SUMMARY, V, WHOLE, run_difference,
};
use std::test::Fail;

/// The journal of the path with one more commit.
const WITH_AN_EDGE: File = (
    "j",
    "commit 1 start 0 by 0.1\nvertex 1\nvertex 2\nvertex 3\nvertex 4\nedge 1 2 1\nedge 2 3 1\n\
     commit 2 start 1 by 1.1\nedge 1 4 1\n",
);

/// The least weights of walks from the path's first vertex.
const LEAST_WEIGHTS: File = ("s1", "begin\nsssp 1 o\ncommit\n");

/// Runs, and how each ends.
pub const RUNS: [(Run, End); 20] = [
    (PATH, WHOLE),
    // the same search by the faster kernel
    (
        (&[V, E, ("s1", "begin\nfastbfs 1 o\ncommit\n")], "s1"),
        WHOLE,
    ),
    // a root that is no vertex: there is no result
    (
        (&[V, E, ("s1", "begin\nbfs 9 o\ncommit\n")], "s1"),
        (
            0,
            SUMMARY,
            5,
            &[
                JOURNAL,
                ("s1.report", "begin 1.1 start 1\nno vertex 9\ncommit -\n"),
            ],
        ),
    ),
    // nothing to load: the journal is there and empty
    (
        (&[("v", ""), ("e", ""), SEARCH], "s1"),
        (
            0,
            "commits 0 vertices 0 edges 0 undo 0 retired 0\n",
            5,
            &[
                ("j", ""),
                ("s1.report", "begin 1.1 start 0\nno vertex 1\ncommit -\n"),
            ],
        ),
    ),
    // components of nothing: the result is there and empty
    (
        (
            &[("v", ""), ("e", ""), ("s1", "begin\nwcc o\ncommit\n")],
            "s1",
        ),
        (
            0,
            "commits 0 vertices 0 edges 0 undo 0 retired 0\n",
            6,
            &[
                ("j", ""),
                ("s1.report", "begin 1.1 start 0\ntable 0\ncommit -\n"),
                ("o", ""),
            ],
        ),
    ),
    // two kernels of one transaction, on a star: the centre takes the least of two labels that it meets once each
    (
        (
            &[
                ("v", "1\n2\n3\n"),
                ("e", "1 2\n1 3\n"),
                ("s1", "begin\ncdlp 1 o\nwcc p\ncommit\n"),
            ],
            "s1",
        ),
        (
            0,
            "commits 1 vertices 3 edges 2 undo 0 retired 0\n",
            7,
            &[
                (
                    "j",
                    "commit 1 start 0 by 0.1\nvertex 1\nvertex 2\nvertex 3\nedge 1 2 1\nedge 1 3 1\n",
                ),
                (
                    "s1.report",
                    "begin 1.1 start 1\ntable 3\ntable 3\ncommit -\n",
                ),
                ("o", "1 2\n2 1\n3 1\n"),
                ("p", "1 1\n2 1\n3 1\n"),
            ],
        ),
    ),
    // least weights, one of which the transaction has set: no walk leads to the vertex apart
    (
        (
            &[V, E, ("s1", "begin\nset 1 2 5\nsssp 1 o\ncommit\n")],
            "s1",
        ),
        (
            0,
            "commits 2 vertices 4 edges 2 undo 0 retired 0\n",
            6,
            &[
                (
                    "j",
                    "commit 1 start 0 by 0.1\nvertex 1\nvertex 2\nvertex 3\nvertex 4\nedge 1 2 1\nedge 2 3 1\n\
                     commit 2 start 1 by 1.1\nset 1 2 5\n",
                ),
                ("s1.report", "begin 1.1 start 1\nok\ntable 4\ncommit 2\n"),
                ("o", "1 0\n2 5\n3 6\n4 infinity\n"),
            ],
        ),
    ),
    // no round of labels
    (
        (&[V, E, ("s1", "begin\ncdlp 0 o\ncommit\n")], "s1"),
        (
            0,
            SUMMARY,
            6,
            &[JOURNAL, REPORT, ("o", "1 1\n2 2\n3 3\n4 4\n")],
        ),
    ),
    // an edge between the least id and the greatest
    (
        (
            &[
                ("v", "0\n9223372036854775806\n"),
                ("e", "9223372036854775806 0\n"),
                ("s1", "begin\nbfs 9223372036854775806 o\ncommit\n"),
            ],
            "s1",
        ),
        (
            0,
            "commits 1 vertices 2 edges 1 undo 0 retired 0\n",
            6,
            &[
                (
                    "j",
                    "commit 1 start 0 by 0.1\nvertex 0\nvertex 9223372036854775806\nedge 9223372036854775806 0 1\n",
                ),
                ("s1.report", "begin 1.1 start 1\ntable 2\ncommit -\n"),
                ("o", "0 1\n9223372036854775806 0\n"),
            ],
        ),
    ),
    // a kernel sees the writes of its own transaction
    (
        (&[V, E, ("s1", "begin\nedge 1 4\nbfs 1 o\ncommit\n")], "s1"),
        (
            0,
            "commits 2 vertices 4 edges 3 undo 0 retired 0\n",
            6,
            &[
                WITH_AN_EDGE,
                ("s1.report", "begin 1.1 start 1\nok\ntable 4\ncommit 2\n"),
                ("o", "1 0\n2 1\n3 2\n4 1\n"),
            ],
        ),
    ),
    // nothing of an aborted transaction stays
    (
        (
            &[
                V,
                E,
                (
                    "s1",
                    "begin\nedge 1 4\nabort\nbegin\nweight 1 4\nweight 2 1\ncommit\n",
                ),
            ],
            "s1",
        ),
        (
            0,
            SUMMARY,
            5,
            &[
                JOURNAL,
                (
                    "s1.report",
                    "begin 1.1 start 1\nok\naborted\nbegin 1.2 start 1\nnone\nweight 1\ncommit -\n",
                ),
            ],
        ),
    ),
    // each refusal of a write, and a write after them
    (
        (
            &[
                V,
                E,
                (
                    "s1",
                    "begin\nedge 1 1\nedge 2 1\nset 1 3 5\nedge 1 9\nvertex 4\n\
                     unvertex 2\ndrop 1 3\nedge 3 4 7\ncommit\n",
                ),
            ],
            "s1",
        ),
        (
            0,
            "commits 2 vertices 4 edges 3 undo 0 retired 0\n",
            5,
            &[
                (
                    "j",
                    "commit 1 start 0 by 0.1\nvertex 1\nvertex 2\nvertex 3\nvertex 4\nedge 1 2 1\nedge 2 3 1\n\
                     commit 2 start 1 by 1.1\nedge 3 4 7\n",
                ),
                (
                    "s1.report",
                    "begin 1.1 start 1\nself loop\nexists\nno edge\nno vertex 9\nexists\n\
                     has edges\nno edge\nok\ncommit 2\n",
                ),
            ],
        ),
    ),
    // a vertex loses its edges, and goes
    (
        (
            &[
                V,
                E,
                (
                    "s1",
                    "begin\nneighbours 2\ndrop 2 1\ndrop 2 3\nneighbours 2\nunvertex 2\nneighbours 2\ncount\ncommit\n",
                ),
            ],
            "s1",
        ),
        (
            0,
            "commits 2 vertices 3 edges 0 undo 0 retired 0\n",
            5,
            &[
                (
                    "j",
                    "commit 1 start 0 by 0.1\nvertex 1\nvertex 2\nvertex 3\nvertex 4\nedge 1 2 1\nedge 2 3 1\n\
                     commit 2 start 1 by 1.1\ndrop 2 1\ndrop 2 3\nunvertex 2\n",
                ),
                (
                    "s1.report",
                    "begin 1.1 start 1\nneighbours 2 1 3\nok\nok\nneighbours 0\n\
                     ok\nno vertex 2\nvertices 3 edges 0\ncommit 2\n",
                ),
            ],
        ),
    ),
    // a script that does nothing
    (
        (&[V, E, ("s1", "")], "s1"),
        (0, SUMMARY, 5, &[JOURNAL, ("s1.report", "")]),
    ),
    // arcs with directions: vertex 1 meets label 3 twice and label 2 once
    (
        (
            &[
                ("v", "1\n2\n3\n"),
                ("e", "3 1\n1 3\n2 1\n"),
                ("s1", "begin\ncdlp 1 o\ncommit\n"),
            ],
            "--directed s1",
        ),
        (
            0,
            "commits 1 vertices 3 edges 3 undo 0 retired 0\n",
            6,
            &[
                (
                    "j",
                    "commit 1 start 0 by 0.1\nvertex 1\nvertex 2\nvertex 3\nedge 3 1 1\nedge 1 3 1\nedge 2 1 1\n",
                ),
                ("s1.report", "begin 1.1 start 1\ntable 3\ncommit -\n"),
                ("o", "1 3\n2 1\n3 1\n"),
            ],
        ),
    ),
    // weights in tenths
    (
        (
            &[V, ("e", "1 2 0.5\n2 3 1\n"), LEAST_WEIGHTS],
            "--weights 1 s1",
        ),
        (
            0,
            SUMMARY,
            6,
            &[
                (
                    "j",
                    "commit 1 start 0 by 0.1\nvertex 1\nvertex 2\nvertex 3\nvertex 4\nedge 1 2 5\nedge 2 3 10\n",
                ),
                REPORT,
                ("o", "1 0\n2 5\n3 15\n4 infinity\n"),
            ],
        ),
    ),
    // the same weights by the faster kernel, in buckets of four tenths
    (
        (
            &[
                V,
                ("e", "1 2 0.5\n2 3 1\n"),
                ("s1", "begin\nfastsssp 1 4 o\ncommit\n"),
            ],
            "--weights 1 s1",
        ),
        (
            0,
            SUMMARY,
            6,
            &[REPORT, ("o", "1 0\n2 5\n3 15\n4 infinity\n")],
        ),
    ),
    // and a weight with one digit more, which is cut
    (
        (
            &[V, ("e", "1 2 0.5\n2 3 1\n1 3 0.55\n"), LEAST_WEIGHTS],
            "s1 --cut --weights 1",
        ),
        (
            0,
            "commits 1 vertices 4 edges 3 undo 0 retired 0\n",
            6,
            &[
                (
                    "j",
                    "commit 1 start 0 by 0.1\nvertex 1\nvertex 2\nvertex 3\nvertex 4\n\
                     edge 1 2 5\nedge 2 3 10\nedge 1 3 5\n",
                ),
                REPORT,
                ("o", "1 0\n2 5\n3 5\n4 infinity\n"),
            ],
        ),
    ),
    // without weights a third field isn't read
    ((&[V, ("e", "1 2 x\n2 3\n"), SEARCH], "--cut s1"), WHOLE),
    // a comment, carriage returns, a tab, more than one blank, an edge listed both ways, no last line feed
    (
        (
            &[V, ("e", "# graph\r\n1\t2\r\n2  1\r\n\r\n 3 2"), SEARCH],
            "s1",
        ),
        (
            0,
            SUMMARY,
            6,
            &[
                (
                    "j",
                    "commit 1 start 0 by 0.1\nvertex 1\nvertex 2\nvertex 3\nvertex 4\nedge 1 2 1\nedge 3 2 1\n",
                ),
                REPORT,
                RESULT,
            ],
        ),
    ),
];

#[test]
fn runs_end_with_all_that_they_write(rt: HostRuntime) -> Result<(), Fail> {
    let alloc = rt.alloc();
    for (run, end) in RUNS {
        let difference = run_difference(&rt, alloc, run, &[], end)?;
        assert!(rt; difference.is_empty(), "{difference}");
    }
    Ok(())
}
