//! Vertex files.
//!
//! 1. Ids are gathered in the order of the file and looked through for repeats by sorting a copy, which takes a
//!    fraction of what an ordered map takes.
//! 2. Where one stands twice, or a line has a fault, the file is gone over again with a set of the ids so far, and the
//!    first fault is told.

ghost use Rattle.std.specs.Prelude.{◌≡◌, [], ◌∷◌, ◌++◌, Ok, IfOk, IfErr, IfSome};
ghost use Rattle.graph_files.specs.Faults.{IsRefused};
ghost use Rattle.graph_files.specs.VertexFiles.{id_of, line_id, vertex_of, vertices_of};
ghost use Rattle.graph_files.specs.Kept.{IsSetOf};

use crate::refusal::{Fault, ReadRefusal, What};
use crate::room::{lines_of, with_room};
use graph_model::{Ids, MAX_ID};
use graphalytics_io::{Fields, NumberFault, field_lines, read_number};
use id_places::are_distinct;
use items::NoMemory;
use std::alloc::Global;
use std::collections::BTreeSet;

/// Reads the ids of a vertex file, at most `limit` of them. A file in which no id stands twice is gone over once; any
/// other once more.
pub fn read_vertices(alloc: Global, text: &[u8], limit: u64) -> Result<Ids, ReadRefusal>
    ensures ok { IfOk result (λ ids. vertices_of limit text.now ≡ Ok ids) }
    ensures fault { IfErr result (λ refusal. IsRefused (vertices_of limit text.now) refusal) }
{
    if let Some(ids) = read_unrepeated(alloc, text, limit)? {
        return Ok(ids);
    }
    read_each(alloc, text, limit)
}

/// Reads the ids where no line has a fault and no id stands twice. Else it may give nothing.
fn read_unrepeated(alloc: Global, text: &[u8], limit: u64) -> Result<Option<Ids>, NoMemory>
    ensures { IfOk result (λ found. IfSome found (λ ids. vertices_of limit text.now ≡ Ok ids)) }
{
    let mut ids = with_room(alloc, lines_of(text));
    let mut lines = field_lines(text);
    'lines: while let Some(line) = lines.next() {
        let Ok(id) = read_line_id(line.fields) else {
            return Ok(None)
        };
        if limit <= ids.len() as u64 {
            return Ok(None);
        }
        ids.push(id)?;
    }
    if are_distinct(Vec::from_slice(alloc, ids.as_slice())?) {
        Ok(Some(ids))
    } else {
        Ok(None)
    }
}

/// Reads the ids of a vertex file, each after those before it, up to its first fault.
fn read_each(alloc: Global, text: &[u8], limit: u64) -> Result<Ids, ReadRefusal>
    ensures ok { IfOk result (λ ids. vertices_of limit text.now ≡ Ok ids) }
    ensures fault { IfErr result (λ refusal. IsRefused (vertices_of limit text.now) refusal) }
{
    let mut reading = IdsSoFar::new(alloc);
    let mut lines = field_lines(text);
    'lines: while let Some(line) = lines.next() {
        let number = line.number;
        match reading.check(line.fields, limit) {
            Ok(id) => reading = reading.with(id)?,
            Err(what) => return Err(ReadRefusal::Fault(Fault { line: number, what })),
        }
    }
    let IdsSoFar { ids, .. } = reading;
    Ok(ids)
}

/// The ids of the lines so far.
#[derive(Drop)]
struct IdsSoFar {
    /// In the order of the file.
    ids: Ids,
    /// The same as a set, to find repeats.
    sorted: BTreeSet<u64>,
    ghost same: { IsSetOf sorted ids },
}

impl IdsSoFar {
    ghost use Rattle.std.specs.Prelude.{◌≡◌};

    fn new(alloc: Global) -> IdsSoFar
        ensures { result.ids ≡ [] }
    {
        IdsSoFar {
            ids: Ids::new(alloc),
            sorted: BTreeSet::new(alloc),
        }
    }

    /// The id of the next line.
    fn check(&self, fields: Fields<'_>, limit: u64) -> Result<u64, What>
        ensures { result ≡ vertex_of limit self.now.ids fields.entry }
    {
        let id = read_line_id(fields)?;
        if self.sorted.contains(&id) {
            return Err(What::DuplicateVertex);
        }
        if limit <= self.ids.len() as u64 {
            return Err(What::TooManyRows);
        }
        Ok(id)
    }

    /// The same with an id after the others.
    fn with(self, id: u64) -> Result<IdsSoFar, NoMemory>
        ensures { IfOk result (λ reading. reading.ids ≡ self.ids ++ id ∷ []) }
    {
        let IdsSoFar {
            mut ids,
            mut sorted,
        } = self;
        ids.push(id)?;
        sorted.insert(id)?;
        Ok(IdsSoFar { ids, sorted })
    }
}

/// Reads the id of a line.
fn read_line_id(fields: Fields<'_>) -> Result<u64, What>
    ensures { result ≡ line_id fields.entry }
{
    let mut fields = fields;
    let Some(field) = fields.next() else {
        return Err(What::MissingField)
    };
    if fields.next().is_some() {
        return Err(What::ExtraField);
    }
    read_id(field)
}

/// Reads an id.
pub(crate) fn read_id(field: &[u8]) -> Result<u64, What>
    ensures { result ≡ id_of field.now }
{
    match read_number(field, MAX_ID) {
        Ok(id) => Ok(id),
        Err(NumberFault::NotANumber) => Err(What::NotANumber),
        Err(NumberFault::TooLarge) => Err(What::IdTooLarge),
    }
}
