//! Sources that are not there or not accepted. What each reader refuses is in the tests of its crate;
//! here stand the faults that only the whole run can have, and one of each reader.

use cases_setting::{E, End, File, Run, SEARCH, V, run_difference};
use std::test::Fail;

/// Sources that are refused, and what is said of the first that is.
const REFUSED: &[(Run, &str)] = &[
    // one of each reader: an id twice, an unknown vertex, a line of no transaction, no job
    (
        (&[("v", "1\n# 2\n\n1\n"), E, SEARCH], "s1"),
        "v line 4: duplicate vertex\n",
    ),
    (
        (&[V, ("e", "1 2\n2 5\n"), SEARCH], "s1"),
        "e line 2: unknown vertex\n",
    ),
    (
        (&[V, E, ("s1", "vertex 5\n")], "s1"),
        "s1 line 1: not begun\n",
    ),
    (
        (&[V, E, SEARCH, ("t", "1\n2\n")], "--schedule t s1"),
        "t line 2: no such job\n",
    ),
    // a word that is none, a line without its file, a transaction without an end
    (
        (&[V, E, ("s1", "begin\nbfs 1 o\ncomm\n")], "s1"),
        "s1 line 3: not a command\n",
    ),
    (
        (&[V, E, ("s1", "begin\nbfs 1\n")], "s1"),
        "s1 line 2: missing field\n",
    ),
    (
        (&[V, E, ("s1", "begin\nbfs 1 o\n")], "s1"),
        "s1 line 1: not ended\n",
    ),
    // signs, and the first id that is too large
    (
        (&[("v", "+1"), ("e", ""), SEARCH], "s1"),
        "v line 1: not a number\n",
    ),
    (
        (&[("v", "-1"), ("e", ""), SEARCH], "s1"),
        "v line 1: not a number\n",
    ),
    (
        (&[("v", "9223372036854775807"), ("e", ""), SEARCH], "s1"),
        "v line 1: id too large\n",
    ),
    // a weight without a digit, and the first that is too large
    (
        (&[V, ("e", "1 2 ."), SEARCH], "--weights 1 s1"),
        "e line 1: not a number\n",
    ),
    (
        (&[V, ("e", "1 2 4.294967296"), SEARCH], "--weights 9 s1"),
        "e line 1: weight too large\n",
    ),
    // buckets without a width
    (
        (&[V, E, ("s1", "begin\nfastsssp 1 0 o\ncommit\n")], "s1"),
        "s1 line 2: width out of range\n",
    ),
    // a line without its second end, a vertex that isn't there, a weight with a digit too many
    (
        (&[V, ("e", "1 2\n1\n"), SEARCH], "s1"),
        "e line 2: missing field\n",
    ),
    (
        (&[V, ("e", "1 7\n"), SEARCH], "s1"),
        "e line 1: unknown vertex\n",
    ),
    (
        (
            &[V, ("e", "1 2 0.5\n2 3 1\n1 3 0.55\n"), SEARCH],
            "--weights 1 s1",
        ),
        "e line 3: weight too fine\n",
    ),
    // numbers that would wrap to ids that are there
    (
        (&[("v", "2\n3\n18446744073709551617\n"), E, SEARCH], "s1"),
        "v line 3: id too large\n",
    ),
    (
        (&[V, ("e", "1 18446744073709551618\n"), SEARCH], "s1"),
        "e line 1: id too large\n",
    ),
    (
        (
            &[V, E, ("s1", "begin\nbfs 18446744073709551617 o\ncommit\n")],
            "s1",
        ),
        "s1 line 2: id too large\n",
    ),
    // a result with the name of a source, of an output, and of a result of another script
    (
        (&[V, E, ("s1", "begin\nbfs 1 v\ncommit\n")], "s1"),
        "s1 line 2: name twice\n",
    ),
    (
        (&[V, E, ("s1", "begin\nbfs 1 j\ncommit\n")], "s1"),
        "s1 line 2: name twice\n",
    ),
    (
        (
            &[V, E, ("s1", "begin\nbfs 1 s2.report\ncommit\n"), ("s2", "")],
            "s1 s2",
        ),
        "s1 line 2: name twice\n",
    ),
    (
        (
            &[V, E, SEARCH, ("s2", "# later\n\nbegin\nbfs 2 o\ncommit\n")],
            "s1 s2",
        ),
        "s2 line 4: name twice\n",
    ),
    // of several faulty ones the first is named
    (
        (&[("v", "x"), E, ("s1", "begin")], "s1"),
        "v line 1: not a number\n",
    ),
    (
        (&[V, ("e", "1"), ("s1", "begin")], "s1"),
        "e line 1: missing field\n",
    ),
    (
        (
            &[V, E, ("s1", "begin"), ("s2", "end"), ("t", "x")],
            "--schedule t s1 s2",
        ),
        "s1 line 1: not ended\n",
    ),
];

#[test]
fn sources_that_are_refused(rt: HostRuntime) -> Result<(), Fail> {
    let alloc = rt.alloc();
    for &(run, said) in REFUSED {
        let end: End = (1, said, run.0.len(), &[]);
        let difference = run_difference(&rt, alloc, run, &[], end)?;
        assert!(rt; difference.is_empty(), "{difference}");
    }
    Ok(())
}

/// A text that no reader accepts.
const FAULTY: &str = "not accepted";

/// The sources without one of the four, and how the run ends. All sources are read before one is refused,
/// so vertices that aren't accepted are not named where the script is missing.
const MISSING: &[(&[File], End)] = &[
    (
        &[("e", FAULTY), ("s1", FAULTY), ("t", FAULTY)],
        (4, "read failed v\n", 3, &[]),
    ),
    (
        &[("v", FAULTY), ("s1", FAULTY), ("t", FAULTY)],
        (4, "read failed e\n", 3, &[]),
    ),
    (
        &[("v", FAULTY), ("e", FAULTY), ("t", FAULTY)],
        (4, "read failed s1\n", 3, &[]),
    ),
    (
        &[("v", FAULTY), ("e", FAULTY), ("s1", FAULTY)],
        (4, "read failed t\n", 3, &[]),
    ),
];

#[test]
fn sources_that_are_not_there(rt: HostRuntime) -> Result<(), Fail> {
    let alloc = rt.alloc();
    for &(files, end) in MISSING {
        let difference = run_difference(&rt, alloc, (files, "--schedule t s1"), &[], end)?;
        assert!(rt; difference.is_empty(), "{difference}");
    }
    Ok(())
}
