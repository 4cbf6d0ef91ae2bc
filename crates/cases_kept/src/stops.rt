//! Two scripts on the path, on a disk where one call fails, and the journal file read back.
//!
//! The calls of the disk, in order: the file is chosen, cut, written and synced; then for each of the two commits its
//! body is written and synced, and the gate before it is written and synced.

use cases_setting::{E, End, File, JOURNAL_TEXT, V, desk_with, difference_with};
use journal_disk::MemoryDisk;
use std::test::Fail;

/// Two scripts of which the first sets a weight, and the second may not.
const SCRIPTS: [File; 2] = [
    ("s1", "begin\nset 1 2 9\ncommit\n"),
    ("s2", "begin\nset 1 2 8\ncommit\n"),
];

/// The run that keeps its commits in `k`.
const RUN: &str = "run --vertices v --edges e --journal j --keep k s1 s2";

/// `k` is read back into `j2`.
const RECOVER: &str = "recover --keep k --journal j2";

/// The journal of both commits.
const BOTH: &str =
    "commit 1 start 0 by 0.1\nvertex 1\nvertex 2\nvertex 3\nvertex 4\nedge 1 2 1\nedge 2 3 1\n\
     commit 2 start 1 by 1.1\nset 1 2 9\n";

/// A call of the disk failed: no output is there.
const STOPPED: End = (5, "write failed k\n", 4, &[]);

/// No call failed: the journal and two reports are there.
const DONE: End = (
    0,
    "commits 2 vertices 4 edges 2 undo 0 retired 0\n",
    7,
    &[("j", BOTH)],
);

/// What is read back: no journal file, no commit, the load, or both commits.
const NO_FILE: End = (1, "k: not a journal file\n", 0, &[]);

const NONE: End = (0, "commits 0 vertices 0 edges 0\n", 1, &[("j2", "")]);

const LOAD: End = (
    0,
    "commits 1 vertices 4 edges 2\n",
    1,
    &[("j2", JOURNAL_TEXT)],
);

const ALL: End = (0, "commits 2 vertices 4 edges 2\n", 1, &[("j2", BOTH)]);

/// Each call in turn, and one beyond the last: how the run ends, and how reading back does.
const CALLS: &[(u64, End, End)] = &[
    // the file is made
    (1, STOPPED, NO_FILE),
    (2, STOPPED, NO_FILE),
    (3, STOPPED, NO_FILE),
    (4, STOPPED, NONE),
    // the load
    (5, STOPPED, NONE),
    (6, STOPPED, NONE),
    (7, STOPPED, NONE),
    (8, STOPPED, LOAD),
    // the first script's commit
    (9, STOPPED, LOAD),
    (10, STOPPED, LOAD),
    (11, STOPPED, LOAD),
    (12, STOPPED, ALL),
    (13, DONE, ALL),
];

#[test]
fn a_stop_at_each_call_of_the_disk_leaves_what_was_acknowledged(
    rt: HostRuntime,
) -> Result<(), Fail> {
    let alloc = rt.alloc();
    for &(call, end, read_back) in CALLS {
        let mut desk = desk_with(alloc, &[V, E, SCRIPTS[0], SCRIPTS[1]], &[])?;
        let mut disk = MemoryDisk::with_failing(alloc, &[call])?;
        let difference = difference_with(&rt, alloc, &mut desk, &mut disk, RUN, end)?;
        assert!(rt; difference.is_empty(), "at call {call}: {difference}");
        let mut later = MemoryDisk::with_failing(alloc, &[])?;
        later.put("k", disk.get("k").unwrap_or(b""))?;
        let mut empty = desk_with(alloc, &[], &[])?;
        let difference = difference_with(&rt, alloc, &mut empty, &mut later, RECOVER, read_back)?;
        assert!(rt;
            difference.is_empty(),
            "read back behind call {call}: {difference}"
        );
    }
    Ok(())
}
