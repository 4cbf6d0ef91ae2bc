//! What the words of `run` ask for: the sources in their order, and what the graph is.
//!
//! 1. A source is told by its place, as a fault names it later.

ghost use Rattle.std.specs.Prelude.{◌≡◌, ◌<◌, [], map, length, get_or, IfOk};
ghost use Rattle.command_words.specs.Views.{run_request};
ghost use Rattle.source_run.specs.Requests.{kind_of, weights_of, source_names, scripts_and_schedule, name_at};

use command_words::RunWords;
use graph_files::Weights;
use graph_model::Kind;
use items::NoMemory;
use std::alloc::Global;

/// Whether edges have directions.
pub fn kind_of(words: &RunWords<'_>) -> Kind
    ensures { result ≡ kind_of (run_request words.now) }
{
    if words.is_directed {
        Kind::Directed
    } else {
        Kind::Undirected
    }
}

/// What the weights of the edge file are.
pub fn weights_of(words: &RunWords<'_>) -> Weights
    ensures { result ≡ weights_of (run_request words.now) }
{
    match words.weights {
        Some(digits) => Weights::Units {
            digits,
            cut: words.is_cut,
        },
        None => Weights::Ones,
    }
}

/// How many scripts there are.
pub fn script_count(words: &RunWords<'_>) -> usize
    ensures { result ≡ length (run_request words.now).scripts }
{
    words.scripts.as_slice().len()
}

/// The name of the script at a place.
pub fn script_at<'a>(words: &RunWords<'a>, place: usize) -> &'a str
    requires { place < length (run_request words.now).scripts }
    ensures { result.now ≡ get_or (run_request words.now).scripts place [] }
{
    words.scripts[place]
}

/// The names of the sources, in the order in which they are read.
pub fn sources_of<'a>(alloc: Global, words: &RunWords<'a>) -> Result<Vec<&'a str>, NoMemory>
    ensures { IfOk result (λ names. map (λ name. name.now) names.items ≡ source_names (run_request words.now)) }
{
    let mut names = Vec::new(alloc);
    // In the order in which they are parsed, by which the place of a fault is told.
    names.push(words.vertices)?;
    names.push(words.edges)?;
    names.extend_from_slice(words.scripts.as_slice())?;
    if let Some(schedule) = words.schedule {
        names.push(schedule)?;
    }
    Ok(names)
}

/// The name of the source at a place, or an empty one where there is no such place. Takes no memory.
pub fn source_at<'a>(words: &RunWords<'a>, place: usize) -> &'a str
    ensures { result.now ≡ name_at (source_names (run_request words.now)) place }
{
    match place {
        0 => words.vertices,
        1 => words.edges,
        _ => script_or_schedule(words, place - 2),
    }
}

/// The name at a place among the scripts and the schedule, or an empty one.
fn script_or_schedule<'a>(words: &RunWords<'a>, place: usize) -> &'a str
    ensures { result.now ≡ get_or (scripts_and_schedule (run_request words.now)) place [] }
{
    let count = words.scripts.len();
    if place < count {
        return words.scripts[place];
    }
    match words.schedule {
        Some(schedule) if place == count => schedule,
        _ => "",
    }
}
