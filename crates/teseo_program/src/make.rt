//! The command `make`: a graph from its seed.
//!
//! 1. Both texts are made before the first file is created.

ghost use Rattle.std.specs.Prelude.{◌≡◌, ◌≢◌, ◌<◌, IfOk};
ghost use Rattle.command_words.specs.Views.{make_request};
ghost use Rattle.teseo_program.specs.MadeGraphs.{made_line};
ghost use Rattle.teseo_program.specs.Prepared.{IsMadeGraph, NamesAreApart};

use crate::left::Left;
use crate::outputs::output_of;
use crate::prepare::Prepared;
use command_words::MakeWords;
use graph_maker::make_graph;
use graph_model::NoMemory;
use graphalytics_io::Text;
use items::Items;
use std::alloc::Global;

/// Makes the two files of a graph, and what is said of them. Creates nothing.
pub fn prepare_graph(alloc: Global, words: &MakeWords<'_>) -> Result<Prepared, NoMemory>
    requires some { 0 < words.now.vertices }
    requires apart { words.now.out.now ≢ words.now.edges_out.now }
    ensures made { IfOk result (IsMadeGraph (make_request words.now)) }
    ensures apart { IfOk result NamesAreApart }
{
    let graph = make_graph(alloc, words.seed, words.vertices, words.edges)?;
    // How many edges there are, since repeats and loops were passed over.
    let summary = made_text(alloc, u64::from(words.vertices), graph.kept as u64)?;
    let mut outputs = Items::new(alloc);
    outputs.push(output_of(alloc, words.out, graph.vertices)?)?;
    outputs.push(output_of(alloc, words.edges_out, graph.edges)?)?;
    Ok(Prepared {
        outputs,
        summary,
        is_full: false,
        left: Left::Nothing,
    })
}

/// How many vertices and edges were made, as it is said.
fn made_text(alloc: Global, vertices: u64, edges: u64) -> Result<Text, NoMemory>
    ensures { IfOk result (λ text. text ≡ made_line vertices edges) }
{
    let mut text = Text::new(alloc);
    text.push_bytes(b"made vertices ")?;
    text.push_number(vertices)?;
    text.push_bytes(b" edges ")?;
    text.push_number(edges)?;
    text.push_bytes(b"\n")?;
    Ok(text)
}
