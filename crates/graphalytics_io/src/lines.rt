//! The lines of a text that say something.
//!
//! 1. Each line is counted, also those that are passed over: comments, and lines that have only blanks.
//! 2. The number of the line that was read last and the bytes that are left are together at most the bytes of the
//!    text, so numbers of lines do not overflow.

ghost use Rattle.std.specs.Prelude.{◌≡◌, [], ◌∷◌, MatchOption};
ghost use Rattle.std.specs.List.{position, before_first, after_first, list_all};
ghost use Rattle.graphalytics_io.specs.Fields.{is_blank, is_line_feed, fields_of, without_return};
ghost use Rattle.graphalytics_io.specs.FieldLines.{field_lines, is_comment, is_passed_over, LinesHaveFields};

use crate::line_fields::{Fields, is_blank};
use std::marker::Model;

/// A line that says something, with its number in the text, from 1.
#[derive(Drop)]
pub struct FieldLine<'a> {
    /// Its number in the text, from 1; lines that say nothing are counted too.
    pub number: u64,
    /// What it says.
    pub fields: Fields<'a>,
}

/// What is left of the lines of a text.
#[derive(Drop)]
pub struct FieldLines<'a> {
    /// The bytes from the next line on.
    rest: &'a [u8],
    /// The number of the line that was read last.
    number: u64,
}

impl<'a> Model for FieldLines<'a> {
    ghost use Rattle.std.specs.Prelude.{List, ◌+◌, ◌^◌, ◌<◌, length};
    ghost use Rattle.graphalytics_io.specs.declared.lines.FieldLine.{FieldLine};
    ghost use Rattle.graphalytics_io.specs.Fields.{lines_of};
    ghost use Rattle.graphalytics_io.specs.FieldLines.{numbered};

    ghost Value = { List FieldLine };

    ghost view = { λ lines. numbered lines.number (lines_of lines.rest.now) };

    ghost invariant = { λ lines. lines.number + length lines.rest.now < 2 ^ 64 };
}

/// The fields of a line.
pub fn fields(line: &[u8]) -> Fields<'_>
    ensures { result ≡ fields_of line.now }
{
    Fields::of(line)
}

/// The lines of a text that say something.
pub fn field_lines(text: &[u8]) -> FieldLines<'_>
    ensures { result ≡ field_lines text.now }
{
    FieldLines {
        rest: text,
        number: 0,
    }
}

impl<'a> FieldLines<'a> {
    /// Lends the next line that says something, and takes it from those that are left.
    pub fn next(&mut self) -> Option<FieldLine<'a>>
        ensures { MatchOption result ((self.old ≡ []) × (self.new ≡ []))
            (λ line. self.old ≡ line ∷ self.new) }
    {
        'lines: while !self.rest.is_empty() {
            let (line, rest) = cut_line(self.rest);
            self.rest = rest;
            self.number += 1;
            let line = without_return(line);
            if !is_passed_over(line) {
                return Some(FieldLine {
                    number: self.number,
                    fields: fields(line),
                });
            }
        }
        None
    }
}

/// Cuts a text at its first line feed, or at its end where it has none.
fn cut_line(text: &[u8]) -> (&[u8], &[u8])
    ensures line { result.0.now ≡ before_first is_line_feed text.now }
    ensures rest { result.1.now ≡ after_first is_line_feed text.now }
{
    match first_line_feed(text) {
        Some(end) => (&text[..end], &text[end + 1..]),
        None => (text, &text[text.len()..]),
    }
}

fn first_line_feed(text: &[u8]) -> Option<usize>
    ensures { result ≡ position is_line_feed text.now }
{
    text.iter().position(|byte| *byte == b'\n')
}

/// A line without the carriage return at its end, where it has one.
fn without_return(line: &[u8]) -> &[u8]
    ensures { result.now ≡ without_return line.now }
{
    match line {
        [front @ .., b'\r'] => front,
        _ => line,
    }
}

fn is_passed_over(line: &[u8]) -> bool
    ensures { result ≡ is_passed_over line.now }
{
    is_comment(line) || has_only_blanks(line)
}

fn is_comment(line: &[u8]) -> bool
    ensures { result ≡ is_comment line.now }
{
    match line {
        [b'#', ..] => true,
        _ => false,
    }
}

fn has_only_blanks(line: &[u8]) -> bool
    ensures { result ≡ list_all is_blank line.now }
{
    line.iter().all(|byte| is_blank(*byte))
}

/// A line that says something has a field.
pub fn lines_have_fields()
    ensures { LinesHaveFields }
{}
