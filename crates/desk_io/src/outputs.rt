//! Texts that are written whole, one after another.
//!
//! 1. All texts are made before the first is written, so no output is created for a run that fails before.
//! 2. The first write that fails ends it: what was written stays, and later names aren't touched.
ghost use Rattle.std.specs.Prelude.{◌≡◌, ◌≢◌, AllPairs, IfErr, OnOk};
ghost use Rattle.std.specs.String.{string_bytes};
ghost use Rattle.desk_io.specs.Outputs.{NamedText, WritesAll, FailsAtPlace, names_of};

use crate::desk::Desk;
use crate::sink::write_sink;
use items::Items;
use std::marker::Model;
use thiserror::Error;

/// A text and the name that it is written under.
#[derive(Drop)]
pub struct Output {
    /// What the file is called.
    name: String,
    /// What is written to it, whole.
    text: Items<u8>,
}

impl Model for Output {
    ghost Value = { NamedText };

    ghost view = { λ output. record { name = string_bytes output.name; text = output.text } };
}

impl Output {
    pub fn new(name: String, text: Items<u8>) -> Output
        ensures { result ≡ record { name = string_bytes name; text = text } }
    {
        Output { name, text }
    }

    pub fn name(&self) -> &str
        ensures { result.now ≡ self.now.name }
    {
        self.name.as_str()
    }

    pub fn text(&self) -> &[u8]
        ensures { result.now ≡ self.now.text }
    {
        self.text.as_slice()
    }
}

/// Which output was not written whole: its place among the outputs, from 0.
#[derive(Clone, Copy, Debug, PartialEq, Eq, Error)]
#[error("output {place} cannot be written")]
pub struct WriteStop {
    /// Among the outputs, from 0.
    pub place: usize,
}

/// Creates and writes the outputs, in order. The first that fails ends it: no later one is
/// created. No memory is taken.
pub fn write_all<D: Desk>(desk: &mut D, outputs: &[Output]) -> Result<(), WriteStop>
    requires { AllPairs (λ a b. a ≢ b) (names_of outputs.now) }
    ensures written { OnOk result (WritesAll outputs.now (D.files desk.old) (D.files desk.new)) }
    ensures stop { IfErr result (λ stop.
        FailsAtPlace outputs.now stop.place (D.files desk.old) (D.files desk.new)) }
{
    'outputs: for place in 0..outputs.len() {
        let output = &outputs[place];
        match write_sink(desk, output.name(), output.text()) {
            Ok(()) => {}
            Err(_) => return Err(WriteStop { place }),
        }
    }
    Ok(())
}
