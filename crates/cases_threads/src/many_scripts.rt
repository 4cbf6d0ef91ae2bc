//! As many scripts as a run may have, on as many threads: the store has a pass for each script, and fewer than threads
//! are left for kernels to read by.

use cases_setting::{E, End, JOURNAL, SUMMARY, V, desk_with, difference_on};
use desk_io::MemoryDesk;
use std::alloc::{AllocError, Global};
use std::test::Fail;

/// The graph, the scripts, the journal, their reports and results; and what the last one has.
const WHOLE: End = (
    0,
    SUMMARY,
    183,
    &[
        JOURNAL,
        ("s60.report", "begin 60.1 start 1\ntable 4\ncommit -\n"),
        ("o60", "1 0\n2 1\n3 2\n4 9223372036854775807\n"),
    ],
);

/// Puts the scripts on a desk, each with a search of its own. Answers the words of their run.
fn put_scripts(alloc: Global, desk: &mut MemoryDesk) -> Result<String, AllocError> {
    let mut line = String::from_str(alloc, "run --vertices v --edges e --journal j --threads 32")?;
    for number in 1..61 {
        let name = format!(in alloc; "s{number}")?;
        let script = format!(in alloc; "begin\nbfs 1 o{number}\ncommit\n")?;
        desk.put(name.as_str(), script.as_bytes())?;
        line.push_str(" ")?;
        line.push_str(name.as_str())?;
    }
    Ok(line)
}

#[test]
fn sixty_scripts_search_on_32_threads(rt: HostRuntime) -> Result<(), Fail> {
    let alloc = rt.alloc();
    let mut desk = desk_with(alloc, &[V, E], &[])?;
    let line = put_scripts(alloc, &mut desk)?;
    let difference = difference_on(&rt, alloc, &mut desk, line.as_str(), WHOLE)?;
    assert!(rt; difference.is_empty(), "{difference}");
    Ok(())
}
