//! Parts of lines that reports and the journal share.
//!
//! 1. Each has a word or a blank before its number, so a line is its parts, one after the other.

ghost use Rattle.std.specs.Prelude.{◌≡◌, ◌++◌, OnOk, OnErr};
ghost use Rattle.run_model.specs.Texts.{field, name_text};
ghost use Rattle.graphalytics_io.specs.Appends.{Extends};

use graph_model::{NoMemory, TxnName};
use graphalytics_io::{Spelling, Text};

/// A number after a blank.
pub(crate) struct Field;

impl Spelling<u64> for Field {
    ghost text_of = { field };

    fn write(n: &u64, text: &mut Text) -> Result<(), NoMemory> {
        text.push_bytes(b" ")?;
        text.push_number(*n)
    }
}

/// Writes a word, and a number after a blank. Without memory the text may have a part of it.
pub(crate) fn write_counted(word: &[u8], n: u64, text: &mut Text) -> Result<(), NoMemory>
    ensures ok { OnOk result (text.new ≡ text.old ++ (word.now ++ field n)) }
    ensures err { OnErr result (Extends text.old text.new) }
{
    text.push_bytes(word)?;
    Field::write(&n, text)
}

/// Writes a word, and a transaction's name. Without memory the text may have a part of it.
pub(crate) fn write_named(word: &[u8], name: TxnName, text: &mut Text) -> Result<(), NoMemory>
    ensures ok { OnOk result (text.new ≡ text.old ++ (word.now ++ name_text name)) }
    ensures err { OnErr result (Extends text.old text.new) }
{
    text.push_bytes(word)?;
    text.push_number(name.job as u64)?;
    text.push_bytes(b".")?;
    text.push_number(name.number as u64)
}
