//! Words that are taken in any order, and words that are not taken. What clap makes of words is in the tests of
//! `command_words`; here stand the ends of calls.

use cases_setting::{End, File, PATH, WHOLE, call_difference};
use std::alloc::{AllocError, Global};
use std::test::Fail;

/// The files stay as they are.
const REFUSED: End = (2, "bad words\n", 3, &[]);

/// Words up to the scripts, with which the least fault is in the scripts.
const GRAPH: &str = "run --vertices v --edges e --journal j ";

/// What the fault is, and words with that fault alone.
const CASES: &[(&str, &str)] = &[
    ("no words", ""),
    ("no journal", "run --vertices v --edges e s1"),
    (
        "another command",
        "walk --vertices v --edges e --journal j s1",
    ),
    ("an unknown option", "run --vertices v --edges e --log j s1"),
    (
        "one file for two sources",
        "run --vertices v --edges v --journal j s1",
    ),
    (
        "one script twice",
        "run --vertices v --edges e --journal j s1 s2 s1",
    ),
    (
        "vertices named as a report",
        "run --vertices s2.report --edges e --journal j s1 s2",
    ),
    (
        "a name that begins as an option does",
        "run --vertices v --edges e --journal -j s1",
    ),
    ("no script", "run --vertices v --edges e --journal j"),
    (
        "a schedule and no script",
        "run --vertices v --edges e --journal j --schedule t",
    ),
    (
        "the schedule as the journal",
        "run --vertices v --edges e --journal j --schedule j s1",
    ),
    (
        "the journal twice",
        "run --vertices v --edges e --journal j --journal k s1",
    ),
    (
        "ten digits of a weight",
        "run --vertices v --edges e --journal j --weights 10 s1",
    ),
    ("a request for help", "run --help"),
    (
        "a graph of one vertex",
        "make --seed 0 --vertices 1 --edges 0 --out a --edges-out b",
    ),
    (
        "one file for two outputs",
        "make --seed 0 --vertices 2 --edges 0 --out a --edges-out a",
    ),
];

/// Words in another order, and how the call ends.
const ORDERS: &[(&str, End)] = &[
    ("run --edges e --vertices v --journal j s1", WHOLE),
    ("run s1 --vertices v --edges e --journal j", WHOLE),
    (
        "run --vertices v --edges e --journal j s1 --schedule t",
        (4, "read failed t\n", 3, &[]),
    ),
];

#[test]
fn options_stand_in_any_order(rt: HostRuntime) -> Result<(), Fail> {
    let alloc = rt.alloc();
    for &(words, end) in ORDERS {
        let difference = call_difference(&rt, alloc, PATH.0, &[], words, end)?;
        assert!(rt; difference.is_empty(), "{words}: {difference}");
    }
    Ok(())
}

#[test]
fn words_that_are_refused(rt: HostRuntime) -> Result<(), Fail> {
    let alloc = rt.alloc();
    for &(fault, words) in CASES {
        let difference = call_difference(&rt, alloc, PATH.0, &[], words, REFUSED)?;
        assert!(rt; difference.is_empty(), "with {fault}: {difference}");
    }
    Ok(())
}

/// A graph of nothing.
const NO_GRAPH: &[File] = &[("v", ""), ("e", "")];

/// How many scripts are named, none of which is there, and how the run ends.
const COUNTS: &[(usize, End)] = &[
    (60, (4, "read failed x\n", 2, &[])),
    (61, (2, "bad words\n", 2, &[])),
];

#[test]
fn there_are_sixty_scripts_at_most(rt: HostRuntime) -> Result<(), Fail> {
    let alloc = rt.alloc();
    for &(count, end) in COUNTS {
        let words = words_with(alloc, count)?;
        let difference = call_difference(&rt, alloc, NO_GRAPH, &[], words.as_str(), end)?;
        assert!(rt; difference.is_empty(), "{count}: {difference}");
    }
    Ok(())
}

/// Words with so many scripts, each with a name of its own.
fn words_with(alloc: Global, count: usize) -> Result<String, AllocError> {
    let mut words = String::from_str(alloc, GRAPH)?;
    let mut name = String::from_str(alloc, "x")?;
    for _ in 0..count {
        words.push_str(name.as_str())?;
        words.push_str(" ")?;
        name.push_str("x")?;
    }
    Ok(words)
}
