//! How many leaves the store of a run has.
//!
//! A leaf that is split has at least 103 rows more than one that has just been split, so a store with a leaf for each
//! 103 rows that may be inserted, and one more, is never full. Rows are counted up to as many as fill the greatest
//! number of leaves.

ghost use Rattle.std.specs.Prelude.{◌≡◌, ◌+◌, ◌/◌, ◌≤◌, [], min, IfSome};
ghost use Rattle.graph_model.specs.declared.limits.TheConstants.{MAX_LEAVES, SPLIT_ROWS};
ghost use Rattle.graph_model.specs.Inserted.{inserted_by};
ghost use Rattle.source_run.specs.declared.leaves.TheConstants.{MOST_ROWS};
ghost use Rattle.source_run.specs.Input.{inputs_of};
ghost use Rattle.source_run.specs.Leaves.{asked_by, asked_in, leaves_for, most_rows, counted};
ghost use Rattle.source_run.specs.Parsing.{meaning_of};
ghost use Rattle.source_run.specs.Running.{Fits};

use crate::input::Input;
use graph_model::{Kind, MAX_LEAVES, SPLIT_ROWS, Write};
use run_model::{Command, Script};

/// How many rows fill the greatest number of leaves.
pub const MOST_ROWS: u64 = 13500416;

/// How many leaves the store has: as many as are stated, or as the rows of the graph and of the scripts' lines can
/// fill.
pub fn leaves_of(stated: Option<u32>, kind: Kind, input: &Input) -> u32
    requires some { IfSome stated (λ leaves. 1 ≤ leaves) }
    requires few { IfSome stated (λ leaves. leaves ≤ MAX_LEAVES) }
    requires fits { Fits kind input.now.ids input.now.edges }
    ensures leaves { result ≡ leaves_for stated (most_rows (inputs_of kind (meaning_of input.now))) }
    ensures some { 1 ≤ result }
    ensures few { result ≤ MAX_LEAVES }
{
    match stated {
        Some(leaves) => leaves,
        None => leaves_for_rows(rows_of(kind, input)),
    }
}

/// As many leaves as so many rows can fill, within the limit.
fn leaves_for_rows(rows: u64) -> u32
    requires { rows ≤ MOST_ROWS }
    ensures { result ≡ min MAX_LEAVES (1 + rows / SPLIT_ROWS) }
{
    // One more, for the leaf that is there before the first row comes.
    let leaves = 1 + rows / SPLIT_ROWS;
    leaves.min(MAX_LEAVES as u64) as u32
}

/// How many rows the graph and the lines of the scripts may insert.
fn rows_of(kind: Kind, input: &Input) -> u64
    requires { Fits kind input.now.ids input.now.edges }
    ensures { result ≡ counted (most_rows (inputs_of kind (meaning_of input.now))) }
{
    let mut rows = rows_of_graph(kind, input);
    'scripts: for script in input.scripts.as_slice() {
        rows = rows_with(kind, script.as_slice(), rows);
    }
    rows
}

/// How many rows the graph has.
fn rows_of_graph(kind: Kind, input: &Input) -> u64
    requires { Fits kind input.now.ids input.now.edges }
    ensures { result ≡ counted (most_rows (record (inputs_of kind (meaning_of input.now)) { scripts = [] })) }
{
    let vertices = input.ids.len() as u64;
    let edges = input.edges.len() as u64;
    match kind {
        Kind::Directed => vertices + edges,
        Kind::Undirected => vertices + 2 * edges,
    }
}

/// So many rows, and those that the lines of a script may insert.
fn rows_with(kind: Kind, script: &[Command], before: u64) -> u64
    requires { before ≤ MOST_ROWS }
    ensures { result ≡ counted (before + asked_in kind script.now) }
{
    let mut rows = before;
    'lines: for command in script {
        // Cut off at each line, so that no sum of a long script wraps; beyond that all leaves are taken anyway.
        rows = MOST_ROWS.min(rows + asked_by(kind, command));
    }
    rows
}

/// How many rows a line may insert.
fn asked_by(kind: Kind, command: &Command) -> u64
    ensures asked { result ≡ asked_by kind command.now }
    ensures few { result ≤ 2 }
{
    match command {
        Command::Write { write } => inserted_by(kind, *write),
        _ => 0,
    }
}

/// How many rows a write may insert.
fn inserted_by(kind: Kind, write: Write) -> u64
    ensures inserted { result ≡ inserted_by kind write }
    ensures few { result ≤ 2 }
{
    match write {
        Write::AddVertex { v: _ } => 1,
        Write::AddEdge { .. } => match kind {
            Kind::Directed => 1,
            Kind::Undirected => 2,
        },
        _ => 0,
    }
}
