//! The texts of the two files.
//!
//! 1. They are texts that the readers of this program take, with one blank between two fields and a line feed after
//!    each line.

ghost use Rattle.std.specs.Prelude.{◌≡◌, IfOk};
ghost use Rattle.std.specs.List.{flat_map};
ghost use Rattle.graph_maker.specs.Texts.{vertex_text, pair_line};

use crate::pair::VertexPair;
use graphalytics_io::{Spelling, Text, append_each};
use items::NoMemory;
use std::alloc::Global;

/// The text of the vertex file: the ids from 1, a line each.
pub(crate) fn vertex_lines(alloc: Global, vertices: u32) -> Result<Text, NoMemory>
    ensures { IfOk result (λ text. text ≡ vertex_text vertices) }
{
    let mut text = Text::new(alloc);
    let mut written = 0;
    'ids: while written < vertices {
        written += 1;
        text.push_number(u64::from(written))?;
        text.push_bytes(b"\n")?;
    }
    Ok(text)
}

/// The text of the edge file.
pub(crate) fn edge_lines(alloc: Global, pairs: &[VertexPair]) -> Result<Text, NoMemory>
    ensures { IfOk result (λ text. text ≡ flat_map pair_line pairs.now) }
{
    let mut text = Text::new(alloc);
    append_each::<VertexPair, PairLine>(pairs, &mut text)?;
    Ok(text)
}

/// The line of a pair: the first end, a blank, the second end, a line feed.
struct PairLine;

impl Spelling<VertexPair> for PairLine {
    ghost text_of = { pair_line };

    fn write(pair: &VertexPair, text: &mut Text) -> Result<(), NoMemory> {
        text.push_number(pair.first)?;
        text.push_bytes(b" ")?;
        text.push_number(pair.second)?;
        text.push_bytes(b"\n")
    }
}
