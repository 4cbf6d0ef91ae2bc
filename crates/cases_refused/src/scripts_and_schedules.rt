//! What scripts and schedules are read as, or the first fault that is said of each.

use cases_setting::below::{Names, read_schedule, read_script};
use graph_model::{NoMemory, Write};
use graphalytics_io::Text;
use run_model::{Command, Kernel, Name, Query};
use std::alloc::Global;
use std::test::Fail;

/// Scripts, read one after the other with the name `j` taken at first: the lines that each is read as, or its
/// refusal.
const SCRIPTS: &[(&str, &str)] = &[
    ("", ""),
    ("# nothing\n \t\r\n", ""),
    ("begin\ncommit\nbegin\nabort\n", "begin/commit/begin/abort/"),
    (
        "begin\nvertex 1\nunvertex 02\nedge 1 2\nedge 3 4 007\nset 5 6 4294967295\ncommit",
        "begin/vertex 1/unvertex 2/edge 1 2 1/edge 3 4 7/set 5 6 4294967295/commit/",
    ),
    (
        "begin\ndrop 1 2\nweight 3 4\nneighbours 5\ncount\nabort",
        "begin/drop 1 2/weight 3 4/neighbours 5/count/abort/",
    ),
    (
        "\tbegin\r\n# bfs\n bfs\t9223372036854775806  o \r\n\r\ncommit\r",
        "begin/bfs 9223372036854775806 o/commit/",
    ),
    (
        "begin\nbfs 0000000000000000000000012 #\ncommit",
        "begin/bfs 12 #/commit/",
    ),
    (
        "begin\nwcc p\ncdlp 1000000 q\nsssp 3 r\ncommit",
        "begin/wcc p/cdlp 1000000 q/sssp 3 r/commit/",
    ),
    ("foo", "line 1: not a command"),
    (" # begin\n", "line 1: not a command"),
    (
        "begin\nfastbfs 4 s\nfastsssp 05 4294967295 t\ncommit",
        "begin/fastbfs 4 s/fastsssp 5 4294967295 t/commit/",
    ),
    ("begin\nfastwcc a\ncommit\n", "line 2: not a command"),
    ("begin\nfastsssp 1 a\n", "line 2: missing field"),
    ("\n\nvertex\n", "line 3: missing field"),
    ("begin\nset 1 2\ncommit\n", "line 2: missing field"),
    ("begin 5\n", "line 1: extra field"),
    ("begin\nedge 1 2 3 4\n", "line 2: extra field"),
    ("vertex x\n", "line 1: not begun"),
    ("begin\ncommit\ncommit\n", "line 3: not begun"),
    ("begin\ncount\nbegin\n", "line 3: begun twice"),
    (
        "begin\nedge 9999999999999999999 1 x\n",
        "line 2: not a number",
    ),
    ("begin\nvertex 1\r\r\n", "line 2: not a number"),
    (
        "begin\nset 1 9223372036854775807 4294967296\n",
        "line 2: id too large",
    ),
    (
        "begin\nvertex 18446744073709551617\n",
        "line 2: id too large",
    ),
    ("begin\nedge 1 2 4294967296\n", "line 2: weight too large"),
    (
        "begin\nbfs 9223372036854775807 \x7f\n",
        "line 2: id too large",
    ),
    ("begin\ncdlp 1000001 a\n", "line 2: rounds too large"),
    ("begin\nfastsssp 1 0 \x7f\n", "line 2: width out of range"),
    (
        "begin\nfastsssp 1 4294967296 a\n",
        "line 2: width out of range",
    ),
    (
        "begin\nfastsssp 9223372036854775807 0 a\n",
        "line 2: id too large",
    ),
    ("begin\nbfs 1 \x7f\n", "line 2: bad name"),
    ("begin\nbfs 1 j\n", "line 2: name twice"),
    ("begin\nbfs 1 o\n", "line 2: name twice"),
    ("begin\nwcc a\nwcc a\ncommit\n", "line 3: name twice"),
    ("begin\nbfs 1 a\ncommit\n", "begin/bfs 1 a/commit/"),
    ("\nbegin\ncount\n# end\n", "line 2: not ended"),
    ("begin\ncount 1\n", "line 2: extra field"),
];

/// Schedules for two scripts, and the jobs that each is read as, or its refusal.
const SCHEDULES: &[(&str, &str)] = &[
    ("", ""),
    ("0\n 2\t\r\n\n# 7\n0001", "0 2 1 "),
    ("0\n3", "line 2: no such job"),
    ("18446744073709551617\n", "line 1: no such job"),
    ("\n1 x\n", "line 2: extra field"),
    ("1\n-1\n", "line 2: not a number"),
];

#[test]
fn a_script_is_read_or_its_first_fault_said(rt: HostRuntime) -> Result<(), Fail> {
    let mut taken = Names::new(rt.alloc());
    taken.push(Name::from_vec(Vec::from_slice(rt.alloc(), b"j")?))?;
    for &(text, want) in SCRIPTS {
        let got = said_script(rt.alloc(), text, &mut taken)?;
        assert_eq!(rt; got.as_slice(), want.as_bytes(), "of {text}");
    }
    Ok(())
}

#[test]
fn a_schedule_is_read_or_its_first_fault_said(rt: HostRuntime) -> Result<(), Fail> {
    for &(text, want) in SCHEDULES {
        let got = said_schedule(rt.alloc(), text)?;
        assert_eq!(rt; got.as_slice(), want.as_bytes(), "of {text}");
    }
    Ok(())
}

/// The lines that a script is read as, each with a slash after it, or the refusal.
fn said_script(alloc: Global, text: &str, taken: &mut Names) -> Result<Text, Fail> {
    let mut said = Text::new(alloc);
    match read_script(alloc, text.as_bytes(), taken) {
        Ok(script) => {
            for command in script.as_slice() {
                say_command(command, &mut said)?;
                said.push_bytes(b"/")?;
            }
        }
        Err(refusal) => {
            let text = format!(in alloc; "{refusal}")?;
            said.push_bytes(text.as_bytes())?;
        }
    }
    Ok(said)
}

fn say_command(command: &Command, said: &mut Text) -> Result<(), NoMemory> {
    match command {
        Command::Begin => said.push_bytes(b"begin"),
        Command::Commit => said.push_bytes(b"commit"),
        Command::Abort => said.push_bytes(b"abort"),
        Command::Write { write } => say_write(*write, said),
        Command::Read { query } => say_query(*query, said),
        Command::Run { kernel, file } => say_kernel(*kernel, file.as_slice(), said),
    }
}

fn say_write(write: Write, said: &mut Text) -> Result<(), NoMemory> {
    match write {
        Write::AddVertex { v } => say(b"vertex", &[v], b"", said),
        Write::DropVertex { v } => say(b"unvertex", &[v], b"", said),
        Write::AddEdge { u, v, weight } => say(b"edge", &[u, v, weight], b"", said),
        Write::SetEdge { u, v, weight } => say(b"set", &[u, v, weight], b"", said),
        Write::DropEdge { u, v } => say(b"drop", &[u, v], b"", said),
    }
}

fn say_query(query: Query, said: &mut Text) -> Result<(), NoMemory> {
    match query {
        Query::WeightOf { u, v } => say(b"weight", &[u, v], b"", said),
        Query::NeighboursOf { v } => say(b"neighbours", &[v], b"", said),
        Query::Counts => said.push_bytes(b"count"),
    }
}

fn say_kernel(kernel: Kernel, file: &[u8], said: &mut Text) -> Result<(), NoMemory> {
    match kernel {
        Kernel::Bfs { root } => say(b"bfs", &[root], file, said),
        Kernel::Wcc => say(b"wcc", &[], file, said),
        Kernel::Cdlp { rounds } => say(b"cdlp", &[rounds as u64], file, said),
        Kernel::Sssp { root } => say(b"sssp", &[root], file, said),
        Kernel::FastBfs { root } => say(b"fastbfs", &[root], file, said),
        Kernel::FastSssp { root, width } => say(b"fastsssp", &[root, width as u64], file, said),
    }
}

/// Says a word, and the numbers and the name after it; the name of a line without one is empty.
fn say(word: &[u8], numbers: &[u64], name: &[u8], said: &mut Text) -> Result<(), NoMemory> {
    said.push_bytes(word)?;
    for number in numbers {
        said.push_bytes(b" ")?;
        said.push_number(*number)?;
    }
    if !name.is_empty() {
        said.push_bytes(b" ")?;
        said.push_bytes(name)?;
    }
    Ok(())
}

/// The jobs of a schedule for two scripts, each with a blank after it, or the refusal.
fn said_schedule(alloc: Global, text: &str) -> Result<Text, Fail> {
    let mut said = Text::new(alloc);
    match read_schedule(alloc, text.as_bytes(), 2) {
        Ok(schedule) => {
            for job in schedule.as_slice() {
                said.push_number(*job as u64)?;
                said.push_bytes(b" ")?;
            }
        }
        Err(refusal) => {
            let text = format!(in alloc; "{refusal}")?;
            said.push_bytes(text.as_bytes())?;
        }
    }
    Ok(said)
}
