//! The command of a line.
//!
//! 1. A match over all words: each has a line that says which fields it has, so it is read from top to bottom against
//!    the table of FORMATS.

ghost use Rattle.std.specs.Prelude.{◌≡◌, ◌++◌, IfOk, OnOk, OnErr};
ghost use Rattle.run_model.specs.declared.command.Command.TheVariants as commands;
ghost use Rattle.script_lang.specs.Scripts.{command_of, file_of};

use crate::arguments::Arguments;
use crate::names::Names;
use crate::word::Word;
use graph_model::{NoMemory, Write};
use run_model::{Command, Kernel, Name, Query};
use std::alloc::Global;

/// The command of a word, with what its fields say.
pub(crate) fn command_of(
    alloc: Global,
    word: Word,
    arguments: Arguments<'_>,
) -> Result<Command, NoMemory>
    ensures { IfOk result (λ command. command ≡ command_of word arguments.entry) }
{
    let Arguments {
        vertex: u,
        target: v,
        weight,
        rounds,
        width,
        file,
    } = arguments;
    Ok(match word {
        Word::Begin => Command::Begin,
        Word::Commit => Command::Commit,
        Word::Abort => Command::Abort,
        Word::Vertex => writes(Write::AddVertex { v: u }),
        Word::Unvertex => writes(Write::DropVertex { v: u }),
        Word::Edge => writes(Write::AddEdge { u, v, weight }),
        Word::Set => writes(Write::SetEdge { u, v, weight }),
        Word::Drop => writes(Write::DropEdge { u, v }),
        Word::Weight => reads(Query::WeightOf { u, v }),
        Word::Neighbours => reads(Query::NeighboursOf { v: u }),
        Word::Count => reads(Query::Counts),
        Word::Bfs => runs(alloc, Kernel::Bfs { root: u }, file)?,
        Word::Wcc => runs(alloc, Kernel::Wcc, file)?,
        Word::Cdlp => runs(alloc, Kernel::Cdlp { rounds }, file)?,
        Word::Sssp => runs(alloc, Kernel::Sssp { root: u }, file)?,
        Word::FastBfs => runs(alloc, Kernel::FastBfs { root: u }, file)?,
        Word::FastSssp => runs(alloc, Kernel::FastSssp { root: u, width }, file)?,
    })
}

/// The command of a write.
fn writes(write: Write) -> Command
    ensures { result ≡ commands.Write write }
{
    Command::Write { write }
}

/// The command of a read.
fn reads(query: Query) -> Command
    ensures { result ≡ commands.Read query }
{
    Command::Read { query }
}

/// The command of a kernel whose table is for this file.
fn runs(alloc: Global, kernel: Kernel, file: &[u8]) -> Result<Command, NoMemory>
    ensures { IfOk result (λ command. command ≡ commands.Run kernel file.now) }
{
    let file = copy_name(alloc, file)?;
    Ok(Command::Run { kernel, file })
}

/// Puts the name of a command's file, if it has one, at the end of those taken.
pub(crate) fn take_file(alloc: Global, command: &Command, taken: &mut Names) -> Result<(), NoMemory>
    ensures ok { OnOk result (taken.new ≡ taken.old ++ file_of command.now) }
    ensures err { OnErr result (taken.new ≡ taken.old) }
{
    match command {
        Command::Run { kernel: _, file } => taken.push(copy_name(alloc, file.as_slice())?),
        _ => Ok(()),
    }
}

fn copy_name(alloc: Global, bytes: &[u8]) -> Result<Name, NoMemory>
    ensures { IfOk result (λ name. name ≡ bytes.now) }
{
    Ok(Name::from_vec(Vec::from_slice(alloc, bytes)?))
}
