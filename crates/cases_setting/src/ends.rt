//! How a run ends, beside the end that is wanted.
ghost use Rattle.std.specs.Prelude.{◌≡◌, [], IfOk};
ghost use Rattle.std.specs.String.{string_bytes};

use desk_io::{Gate, MemoryDesk, OpenGate};
use journal_disk::MemoryDisk;
use kept_program::below::Left;
use kept_program::teseo_kept;
use std::alloc::{AllocError, Global};
use std::sync::Wait;
use std::thread::Threads;

/// A file: its name and its text.
pub type File<'a> = (&'a str, &'a str);

/// The sources that are on the desk, and the words after those of the graph and the journal.
pub type Run<'a> = (&'a [File<'a>], &'a str);

/// A status, what is said, how many files there are, and the text of some of them.
pub type End<'a> = (u8, &'a str, usize, &'a [File<'a>]);

/// The words of the graph and the journal.
const GRAPH_WORDS: &str = "run --vertices v --edges e --journal j ";

/// How a run ends otherwise than it is wanted, as `call_difference` says it. The calls of the desk of
/// these numbers fail.
pub fn run_difference<R: Threads + Wait + Sync>(
    rt: &R,
    alloc: Global,
    run: Run,
    failing: &[u64],
    wanted: End,
) -> Result<String, AllocError> {
    let mut line = String::from_str(alloc, GRAPH_WORDS)?;
    line.push_str(run.1)?;
    call_difference(rt, alloc, run.0, failing, line.as_str(), wanted)
}

/// How a call with the words of a line ends otherwise than it is wanted, on a desk with these files, where
/// the calls of these numbers fail: nothing where it ends as wanted.
pub fn call_difference<R: Threads + Wait + Sync>(
    rt: &R,
    alloc: Global,
    files: &[File],
    failing: &[u64],
    line: &str,
    wanted: End,
) -> Result<String, AllocError> {
    let mut desk = desk_with(alloc, files, failing)?;
    difference_on(rt, alloc, &mut desk, line, wanted)
}

/// The same on a desk that is there.
pub fn difference_on<R: Threads + Wait + Sync>(
    rt: &R,
    alloc: Global,
    desk: &mut MemoryDesk,
    line: &str,
    wanted: End,
) -> Result<String, AllocError> {
    difference_by(rt, alloc, desk, line, &OpenGate, wanted)
}

/// The same with a gate of the caller's.
pub fn difference_by<R: Threads + Wait + Sync, G: Gate>(
    rt: &R,
    alloc: Global,
    desk: &mut MemoryDesk,
    line: &str,
    gate: &G,
    wanted: End,
) -> Result<String, AllocError> {
    let mut disk = MemoryDisk::with_failing(alloc, &[])?;
    let mut left = Left::Nothing;
    let words = split(alloc, line)?;
    let status = teseo_kept(rt, alloc, &words, desk, gate, &mut left, &mut disk);
    difference_to(alloc, status, desk, wanted)
}

/// The same on a desk and a disk that are there.
pub fn difference_with<R: Threads + Wait + Sync>(
    rt: &R,
    alloc: Global,
    desk: &mut MemoryDesk,
    disk: &mut MemoryDisk,
    line: &str,
    wanted: End,
) -> Result<String, AllocError> {
    let mut left = Left::Nothing;
    let words = split(alloc, line)?;
    let status = teseo_kept(rt, alloc, &words, desk, &OpenGate, &mut left, disk);
    difference_to(alloc, status, desk, wanted)
}

/// How a call that ended with this status ended otherwise than it is wanted.
fn difference_to(
    alloc: Global,
    status: u8,
    desk: &MemoryDesk,
    wanted: End,
) -> Result<String, AllocError> {
    let found = text_of_desk(alloc, status, desk, wanted.3)?;
    let wanted = text_of_end(alloc, wanted)?;
    difference(alloc, found.as_str(), wanted.as_str())
}

/// A desk with these files, where the calls of these numbers fail.
pub fn desk_with(alloc: Global, files: &[File], failing: &[u64]) -> Result<MemoryDesk, AllocError> {
    let mut desk = MemoryDesk::with_failing(alloc, failing)?;
    for file in files {
        desk.put(file.0, file.1.as_bytes())?;
    }
    Ok(desk)
}

/// Both texts, or nothing where they are the same.
fn difference(alloc: Global, found: &str, wanted: &str) -> Result<String, AllocError>
    ensures same { IfOk result (λ both. string_bytes both ≡ [] → found.now ≡ wanted.now) }
    ensures nothing { IfOk result (λ both. found.now ≡ wanted.now → string_bytes both ≡ []) }
{
    let mut both = String::new(alloc);
    if found != wanted {
        both.push_str("found ")?;
        both.push_str(found)?;
        both.push_str("\nwanted ")?;
        both.push_str(wanted)?;
    }
    Ok(both)
}

/// The end that a desk shows after a call, as text, with the files of the wanted end.
fn text_of_desk(
    alloc: Global,
    status: u8,
    desk: &MemoryDesk,
    files: &[File],
) -> Result<String, AllocError> {
    let mut text = first_line(alloc, status, text_of(desk.said()), desk.file_count())?;
    for file in files {
        push_file(&mut text, file.0, text_of(desk.get(file.0)))?;
    }
    Ok(text)
}

/// An end as text.
fn text_of_end(alloc: Global, end: End) -> Result<String, AllocError> {
    let mut text = first_line(alloc, end.0, end.1, end.2)?;
    for file in end.3 {
        push_file(&mut text, file.0, file.1)?;
    }
    Ok(text)
}

fn first_line(alloc: Global, status: u8, said: &str, files: usize) -> Result<String, AllocError> {
    format!(in alloc; "status {status}, {files} files, said {said}")
}

fn push_file(text: &mut String, name: &str, file: &str) -> Result<(), AllocError> {
    text.push_str(name)?;
    text.push_str(":\n")?;
    text.push_str(file)
}

/// Bytes that are told, as text.
fn text_of(bytes: Option<&[u8]>) -> &str {
    match bytes {
        Some(bytes) => str::from_utf8(bytes).unwrap_or("no text"),
        None => "not told",
    }
}

/// The words of a line, as the top call takes them.
fn split(alloc: Global, line: &str) -> Result<Vec<String>, AllocError> {
    let mut list = Vec::new(alloc);
    for word in line.split_whitespace() {
        list.push(String::from_str(alloc, word)?)?;
    }
    Ok(list)
}
