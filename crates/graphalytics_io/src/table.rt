//! Result files.
//!
//! 1. A line has a vertex and its value with a blank between, as Graphalytics compares them; lines stand in rising
//!    order of vertices.
//! 2. Where memory is refused the text is as it was: a half of a table is never handed on.

ghost use Rattle.std.specs.Prelude.{◌≡◌, ◌++◌, OnOk, OnErr};
ghost use Rattle.graph_model.specs.TableText.{table_text, entry_line};

use crate::spelling::{Spelling, append_each};
use crate::text::Text;
use graph_model::{Entry, Table, Value};
use items::NoMemory;

/// Writes a table at the end of a text: a line for each vertex. Without memory nothing is written.
pub fn write_table(table: &Table, text: &mut Text) -> Result<(), NoMemory>
    ensures ok { OnOk result (text.new ≡ text.old ++ table_text table.now) }
    ensures err { OnErr result (text.new ≡ text.old) }
{
    append_each::<Entry, EntryLine>(table.as_slice(), text)
}

/// The line of an entry: the vertex, a blank, the value, a line feed.
pub(crate) struct EntryLine;

impl Spelling<Entry> for EntryLine {
    ghost text_of = { entry_line };

    fn write(entry: &Entry, text: &mut Text) -> Result<(), NoMemory> {
        text.push_number(entry.vertex)?;
        match entry.value {
            Value::Number { n } => {
                text.push_bytes(b" ")?;
                text.push_number(n)?;
                text.push_bytes(b"\n")
            }
            Value::Infinity => text.push_bytes(b" infinity\n"),
        }
    }
}
