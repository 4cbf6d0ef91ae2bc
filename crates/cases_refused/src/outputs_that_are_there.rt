//! Runs whose outputs have names of files that are there.
//!
//! A desk makes an empty file in place of one that was there, so nothing of the older text stays.

use cases_setting::{E, End, File, JOURNAL, SEARCH, SUMMARY, V, WHOLE, run_difference};
use std::test::Fail;

/// A text that is longer than each output.
const OLDER: &str =
    "an older file, longer than each of the texts that take its place, even than the journal\n";

/// The files, the last of which is the older one, and how the run ends: where the root isn't a vertex there
/// is no result, and the older file stays.
const RUNS: &[(&[File], End)] = &[
    (&[V, E, SEARCH, ("j", OLDER)], WHOLE),
    (&[V, E, SEARCH, ("s1.report", OLDER)], WHOLE),
    (&[V, E, SEARCH, ("o", OLDER)], WHOLE),
    (
        &[V, E, ("s1", "begin\nbfs 9 o\ncommit\n"), ("o", OLDER)],
        (
            0,
            SUMMARY,
            6,
            &[
                JOURNAL,
                ("s1.report", "begin 1.1 start 1\nno vertex 9\ncommit -\n"),
                ("o", OLDER),
            ],
        ),
    ),
];

#[test]
fn an_output_that_is_there_is_replaced_whole(rt: HostRuntime) -> Result<(), Fail> {
    let alloc = rt.alloc();
    for &(files, end) in RUNS {
        let difference = run_difference(&rt, alloc, (files, "s1"), &[], end)?;
        assert!(rt; difference.is_empty(), "{difference}");
    }
    Ok(())
}
