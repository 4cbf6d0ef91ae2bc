//! The journal's text.
//!
//! 1. A commit is a line with its stamp, start and name, and a line for each of its writes, in the order in which they
//!    were made.
//! 2. Where memory is refused the text is as it was.
//! 3. The first commit is mostly that of a load, with more writes than all others together: so several threads share
//!    its writes, and then the other commits.

ghost use Rattle.std.specs.Prelude.{◌≡◌, ◌++◌, ◌∷◌, [], codes, IfOk, OnOk, OnErr};
ghost use Rattle.run_model.specs.Texts.{field, name_text, write_text, commit_text, journal_text};
ghost use Rattle.graphalytics_io.specs.Appends.{Extends};

use crate::pieces::{Field, write_counted, write_named};
use graph_model::{Commit, Journal, NoMemory, Write};
use graphalytics_io::{Pieces, Spelling, Text, append_each, pieces_of_items, write_each};
use std::alloc::Global;
use std::thread::Threads;

/// Writes a journal at the end of a text: a line for each commit, and one for each of its writes. Without
/// memory nothing is written. Takes no memory but the text's own.
pub fn write_journal(journal: &Journal, text: &mut Text) -> Result<(), NoMemory>
    ensures ok { OnOk result (text.new ≡ text.old ++ journal_text journal.now) }
    ensures err { OnErr result (text.new ≡ text.old) }
{
    append_each::<Commit, CommitLines>(journal.as_slice(), text)
}

/// The text of a journal, made by several threads.
pub fn text_of_journal<R: Threads + Sync>(
    rt: &R,
    alloc: Global,
    journal: &Journal,
) -> Result<Text, NoMemory>
    ensures { IfOk result (λ text. text ≡ journal_text journal.now) }
{
    let [first, later @ ..] = journal.as_slice() else {
        return Ok(Text::new(alloc));
    };
    let mut pieces = pieces_of_commit(rt, alloc, first)?;
    pieces.append(pieces_of_items::<R, Commit, CommitLines>(rt, alloc, later)?)?;
    pieces.joined(alloc)
}

/// The text of a commit, in pieces: several threads share its writes.
fn pieces_of_commit<R: Threads + Sync>(
    rt: &R,
    alloc: Global,
    commit: &Commit,
) -> Result<Pieces, NoMemory>
    ensures { IfOk result (λ pieces. pieces ≡ commit_text commit.now) }
{
    let mut line = Text::new(alloc);
    write_commit_line(commit, &mut line)?;
    let mut pieces = Pieces::new(alloc);
    pieces.push(line)?;
    pieces.append(pieces_of_items::<R, Write, WriteLine>(rt, alloc, commit.writes.as_slice())?)?;
    Ok(pieces)
}

/// The line of a commit, and those of its writes.
struct CommitLines;

impl Spelling<Commit> for CommitLines {
    ghost text_of = { commit_text };

    fn write(commit: &Commit, text: &mut Text) -> Result<(), NoMemory> {
        write_commit_line(commit, text)?;
        write_each::<Write, WriteLine>(commit.writes.as_slice(), text)
    }
}

/// Writes the line of a commit without those of its writes. Without memory the text may have a part of it.
fn write_commit_line(commit: &Commit, text: &mut Text) -> Result<(), NoMemory>
    ensures ok { OnOk result (text.new ≡ text.old ++ (codes "commit" ++ field commit.now.stamp ++ codes " start"
        ++ field commit.now.start ++ codes " by " ++ name_text commit.now.by ++ (10 ∷ []))) }
    ensures err { OnErr result (Extends text.old text.new) }
{
    write_counted(b"commit", commit.stamp, text)?;
    write_counted(b" start", commit.start, text)?;
    write_named(b" by ", commit.by, text)?;
    text.push_bytes(b"\n")
}

/// The line of a write.
struct WriteLine;

impl Spelling<Write> for WriteLine {
    ghost text_of = { λ write. write_text write ++ codes "\n" };

    fn write(write: &Write, text: &mut Text) -> Result<(), NoMemory> {
        write_change(*write, text)?;
        text.push_bytes(b"\n")
    }
}

/// Writes a write, without its line feed. Without memory the text may have a part of it.
fn write_change(write: Write, text: &mut Text) -> Result<(), NoMemory>
    ensures ok { OnOk result (text.new ≡ text.old ++ write_text write) }
    ensures err { OnErr result (Extends text.old text.new) }
{
    match write {
        Write::AddVertex { v } => write_counted(b"vertex", v, text),
        Write::DropVertex { v } => write_counted(b"unvertex", v, text),
        Write::AddEdge { u, v, weight } => write_edge(b"edge", u, v, weight, text),
        Write::SetEdge { u, v, weight } => write_edge(b"set", u, v, weight, text),
        Write::DropEdge { u, v } => write_ends(b"drop", u, v, text),
    }
}

/// Writes a word, the ends of an edge, and its weight. Without memory the text may have a part of it.
fn write_edge(word: &[u8], u: u64, v: u64, weight: u64, text: &mut Text) -> Result<(), NoMemory>
    ensures ok { OnOk result (text.new ≡ text.old ++ (word.now ++ field u ++ field v ++ field weight)) }
    ensures err { OnErr result (Extends text.old text.new) }
{
    write_ends(word, u, v, text)?;
    Field::write(&weight, text)
}

/// Writes a word, and the ends of an edge. Without memory the text may have a part of it.
fn write_ends(word: &[u8], u: u64, v: u64, text: &mut Text) -> Result<(), NoMemory>
    ensures ok { OnOk result (text.new ≡ text.old ++ (word.now ++ field u ++ field v)) }
    ensures err { OnErr result (Extends text.old text.new) }
{
    write_counted(word, u, text)?;
    Field::write(&v, text)
}
