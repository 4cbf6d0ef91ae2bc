//! The fields of a line: blanks may stand at both ends of a line, and any count between fields.
//!
//! A field is lent from the line, so taking it copies nothing and needs no memory.

ghost use Rattle.std.specs.Prelude.{◌≡◌, ◌≤◌, [], ◌∷◌, length, not, MatchOption};
ghost use Rattle.std.specs.List.{position, position_or_len};
ghost use Rattle.graphalytics_io.specs.Fields.{is_blank, fields_of};

use std::marker::Model;

/// What is left of the fields of a line. Blanks are spaces and tabs, and a field is what stands between them.
#[derive(Drop)]
pub struct Fields<'a> {
    /// The bytes from the next field on, blanks before it included.
    rest: &'a [u8],
}

impl<'a> Model for Fields<'a> {
    ghost use Rattle.std.specs.Prelude.{ℕ, List};
    ghost use Rattle.graphalytics_io.specs.Fields.{fields_of};

    ghost Value = { List (List ℕ) };

    ghost view = { λ fields. fields_of fields.rest.now };
}

impl<'a> Fields<'a> {
    /// The fields of a line.
    pub(crate) fn of(line: &'a [u8]) -> Fields<'a>
        ensures { result ≡ fields_of line.now }
    {
        Fields { rest: line }
    }

    /// Lends the next field, and takes it from those that are left.
    pub fn next(&mut self) -> Option<&'a [u8]>
        ensures { MatchOption result ((self.old ≡ []) × (self.new ≡ []))
            (λ field. self.old ≡ field.now ∷ self.new) }
    {
        let (_, line) = self.rest.split_at(blanks_len(self.rest));
        let (field, rest) = line.split_at(field_len(line));
        self.rest = rest;
        if field.is_empty() {
            return None;
        }
        Some(field)
    }

    /// How many fields are left.
    pub fn count(&self) -> usize
        ensures { result ≡ length self.now }
    {
        let mut left = Fields { rest: self.rest };
        let mut count = 0;
        'fields: while left.next().is_some() {
            count += 1;
        }
        count
    }
}

pub(crate) fn is_blank(byte: u8) -> bool
    ensures { result ≡ is_blank byte }
{
    byte == b' ' || byte == b'\t'
}

/// How many bytes of a line stand before the first that is no blank.
fn blanks_len(line: &[u8]) -> usize
    ensures place { result ≡ position_or_len (λ byte. not (is_blank byte)) line.now }
    ensures within { result ≤ length line.now }
{
    match first_non_blank(line) {
        Some(place) => place,
        None => line.len(),
    }
}

/// The place of the first byte that is no blank.
fn first_non_blank(line: &[u8]) -> Option<usize>
    ensures { result ≡ position (λ byte. not (is_blank byte)) line.now }
{
    line.iter().position(|byte| !is_blank(*byte))
}

/// How many bytes of a line stand before its first blank.
fn field_len(line: &[u8]) -> usize
    ensures place { result ≡ position_or_len is_blank line.now }
    ensures within { result ≤ length line.now }
{
    match first_blank(line) {
        Some(place) => place,
        None => line.len(),
    }
}

/// The place of the first blank.
fn first_blank(line: &[u8]) -> Option<usize>
    ensures { result ≡ position is_blank line.now }
{
    line.iter().position(|byte| is_blank(*byte))
}
