//! The fields of a line after its word.
//!
//! 1. All of them are read. Of several faults the one is named whose check comes first, wherever its field stands.

ghost use Rattle.std.specs.Prelude.{◌≡◌, ◌≤◌, None, Some, MatchResult};
ghost use Rattle.std.specs.List.{list_all};
ghost use Rattle.script_lang.specs.Faults.{earlier};
ghost use Rattle.script_lang.specs.FieldFaults.{fault_of, is_name_byte, is_file_name, file_fault, width_fault, field_fault, fields_fault};
ghost use Rattle.script_lang.specs.Values.{no_values, with_value, with_values};
ghost use Rattle.graphalytics_io.specs.Numbers.{number_within, number_of};

use crate::names::Names;
use crate::refusal::ScriptWhat;
use crate::word::FieldKind;
use graph_model::{MAX_ID, MAX_ROUNDS, MAX_WEIGHT};
use graphalytics_io::{Fields, NumberFault, read_number};
use std::marker::Model;

/// The greatest width, which is that of `kernel_sssp`'s type.
pub(crate) const MAX_WIDTH: u32 = 4294967295;

/// What the fields of a line say: a value for each kind of field.
#[derive(Drop)]
pub(crate) struct Arguments<'a> {
    /// The first id, 0 where there is none.
    pub vertex: u64,
    /// The second one.
    pub target: u64,
    /// 1 where there is none.
    pub weight: u64,
    /// 0 where there are none.
    pub rounds: u32,
    /// 1 where there is none.
    pub width: u32,
    /// Without bytes where there is none.
    pub file: &'a [u8],
}

impl<'a> Model for Arguments<'a> {
    ghost use Rattle.script_lang.specs.Values.{Values};

    ghost Value = { Values };

    ghost view = { λ arguments. record {
      vertex = arguments.vertex;
      target = arguments.target;
      weight = arguments.weight;
      rounds = arguments.rounds;
      width = arguments.width;
      file = arguments.file.now;
    } };
}

/// Reads fields of these kinds. The first fault in the order of the checks counts, whichever field has it.
pub(crate) fn read_arguments<'a>(
    kinds: &[FieldKind],
    fields: Fields<'a>,
    taken: &Names,
) -> Result<Arguments<'a>, ScriptWhat>
    ensures { MatchResult result
        (λ arguments. (fields_fault taken.now kinds.now fields.entry ≡ None)
        × (arguments ≡ with_values no_values kinds.now fields.entry))
        (λ what. fields_fault taken.now kinds.now fields.entry ≡ Some what) }
{
    let mut left = fields;
    let mut arguments = Arguments::new();
    let mut fault = None;
    'kinds: for kind in kinds {
        if let Some(field) = left.next() {
            // All fields are read, whatever the first one says: which fault counts is told by the order of the checks,
            // and not by that of the fields.
            fault = earlier(fault, arguments.read(*kind, field, taken));
        }
    }
    match fault {
        None => Ok(arguments),
        Some(what) => Err(what),
    }
}

impl<'a> Arguments<'a> {
    /// The values of a line without fields.
    fn new() -> Arguments<'a>
        ensures { result ≡ no_values }
    {
        Arguments {
            vertex: 0,
            target: 0,
            weight: 1,
            rounds: 0,
            width: 1,
            file: b"",
        }
    }

    /// Reads one more field, and gives its fault, if it has one.
    fn read(&mut self, kind: FieldKind, field: &'a [u8], taken: &Names) -> Option<ScriptWhat>
        ensures fault { result ≡ field_fault taken.now kind field.now }
        ensures value { result ≡ None → self.new ≡ with_value self.old kind field.now }
    {
        match self.set(kind, field, taken) {
            Ok(()) => None,
            Err(what) => Some(what),
        }
    }

    /// Reads one more field.
    fn set(&mut self, kind: FieldKind, field: &'a [u8], taken: &Names) -> Result<(), ScriptWhat>
        ensures { MatchResult result
            (λ _. (field_fault taken.now kind field.now ≡ None) × (self.new ≡ with_value self.old kind field.now))
            (λ what. field_fault taken.now kind field.now ≡ Some what) }
    {
        match kind {
            FieldKind::Vertex => self.vertex = number_up_to(field, MAX_ID, ScriptWhat::IdTooLarge)?,
            FieldKind::Target => self.target = number_up_to(field, MAX_ID, ScriptWhat::IdTooLarge)?,
            FieldKind::Weight => {
                self.weight = number_up_to(field, MAX_WEIGHT, ScriptWhat::WeightTooLarge)?
            }
            FieldKind::OptionalWeight => {
                self.weight = number_up_to(field, MAX_WEIGHT, ScriptWhat::WeightTooLarge)?
            }
            FieldKind::Rounds => {
                self.rounds = number_up_to(
                    field,
                    MAX_ROUNDS as u64,
                    ScriptWhat::RoundsTooLarge,
                )? as u32
            }
            FieldKind::Width => self.width = width_of(field)?,
            FieldKind::File => self.file = new_name(field, taken)?,
        }
        Ok(())
    }
}

/// The fault whose check comes first.
fn earlier(fault: Option<ScriptWhat>, other: Option<ScriptWhat>) -> Option<ScriptWhat>
    ensures { result ≡ earlier fault other }
{
    match (fault, other) {
        (None, _) => other,
        (Some(_), None) => fault,
        (Some(what), Some(next)) => {
            if what.order() <= next.order() {
                fault
            } else {
                other
            }
        }
    }
}

/// Reads a number up to a limit; `above` is the fault of a number above it.
fn number_up_to(field: &[u8], limit: u64, above: ScriptWhat) -> Result<u64, ScriptWhat>
    ensures { MatchResult result
        (λ number. (fault_of above (number_within limit field.now) ≡ None)
        × (number ≡ number_of field.now) × (number ≤ limit))
        (λ what. fault_of above (number_within limit field.now) ≡ Some what) }
{
    match read_number(field, limit) {
        Ok(number) => Ok(number),
        Err(NumberFault::NotANumber) => Err(ScriptWhat::NotANumber),
        Err(NumberFault::TooLarge) => Err(above),
    }
}

/// Reads a width, from 1 on.
fn width_of(field: &[u8]) -> Result<u32, ScriptWhat>
    ensures { MatchResult result
        (λ width. (width_fault field.now ≡ None) × (width ≡ number_of field.now))
        (λ what. width_fault field.now ≡ Some what) }
{
    let width = number_up_to(field, MAX_WIDTH as u64, ScriptWhat::WidthOutOfRange)?;
    if width == 0 {
        return Err(ScriptWhat::WidthOutOfRange);
    }
    Ok(width as u32)
}

/// Reads a file name that isn't taken.
fn new_name<'a>(field: &'a [u8], taken: &Names) -> Result<&'a [u8], ScriptWhat>
    ensures { MatchResult result
        (λ name. (file_fault taken.now field.now ≡ None) × (name.now ≡ field.now))
        (λ what. file_fault taken.now field.now ≡ Some what) }
{
    // Its form first: a name that is none can't be taken.
    if !is_file_name(field) {
        return Err(ScriptWhat::BadName);
    }
    if taken.contains(field) {
        return Err(ScriptWhat::NameTwice);
    }
    Ok(field)
}

/// Whether a field may name a file: some bytes, printable ASCII without blanks.
fn is_file_name(field: &[u8]) -> bool
    ensures { result ≡ is_file_name field.now }
{
    match field {
        [] => false,
        _ => are_name_bytes(field),
    }
}

fn are_name_bytes(field: &[u8]) -> bool
    ensures { result ≡ list_all is_name_byte field.now }
{
    field.iter().all(|byte| 33 <= *byte && *byte <= 126)
}
