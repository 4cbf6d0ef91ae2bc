//! A run on the path whose commits are kept, and its journal file, whole and cut, read back.

use cases_setting::{
    E, End, JOURNAL, JOURNAL_TEXT, REPORT, RESULT, SEARCH, SUMMARY, V, desk_with, difference_with,
};
use journal_disk::MemoryDisk;
use std::alloc::{AllocError, Global};
use std::test::Fail;

/// The run that keeps its commits in `k`.
const RUN: &str = "run --vertices v --edges e --journal j --keep k s1";

/// `k` is read back into `j2`.
const RECOVER: &str = "recover --keep k --journal j2";

/// How many bytes `k` has: a header of 9 bytes, a commit of 32 bytes and six writes of 25, and two gates.
const SIZE: usize = 193;

/// The place of the first gate.
const FIRST_GATE: usize = 9;

/// The journal of the path, read back.
const WHOLE: End = (
    0,
    "commits 1 vertices 4 edges 2\n",
    1,
    &[("j2", JOURNAL_TEXT)],
);

/// No commit is read back.
const NONE: End = (0, "commits 0 vertices 0 edges 0\n", 1, &[("j2", "")]);

/// So many bytes of the file, with its first gate as it is or closed, and how reading it back ends.
const CUTS: &[(usize, bool, End)] = &[
    (SIZE, true, WHOLE),
    // without the last gate
    (192, true, WHOLE),
    // without the last byte of the commit
    (191, true, NONE),
    // with the gate before the commit closed
    (SIZE, false, NONE),
    // without the byte of the kind
    (8, true, (1, "k: not a journal file\n", 0, &[])),
];

#[test]
fn a_journal_file_is_read_back_up_to_its_first_fault(rt: HostRuntime) -> Result<(), Fail> {
    let alloc = rt.alloc();
    let mut desk = desk_with(alloc, &[V, E, SEARCH], &[])?;
    let mut disk = MemoryDisk::with_failing(alloc, &[])?;
    let end: End = (0, SUMMARY, 6, &[JOURNAL, REPORT, RESULT]);
    let difference = difference_with(&rt, alloc, &mut desk, &mut disk, RUN, end)?;
    assert!(rt; difference.is_empty(), "{difference}");
    let kept = disk.get("k").unwrap_or(b"");
    assert_eq!(rt; kept.len(), SIZE);
    for &(size, is_open, end) in CUTS {
        let mut cut = disk_with(alloc, kept, size, is_open)?;
        let mut empty = desk_with(alloc, &[], &[])?;
        let difference = difference_with(&rt, alloc, &mut empty, &mut cut, RECOVER, end)?;
        assert!(rt; difference.is_empty(), "of {size} bytes: {difference}");
    }
    Ok(())
}

/// A disk with the first so many bytes of a file, whose first gate is closed if it isn't to be open.
fn disk_with(
    alloc: Global,
    kept: &[u8],
    size: usize,
    is_open: bool,
) -> Result<MemoryDisk, AllocError> {
    let mut bytes = Vec::from_slice(alloc, kept)?;
    bytes.truncate(size);
    if let Some(gate) = bytes.get_mut(FIRST_GATE) {
        if !is_open {
            *gate = 0;
        }
    }
    let mut disk = MemoryDisk::with_failing(alloc, &[])?;
    disk.put("k", bytes.as_slice())?;
    Ok(disk)
}
