//! All that comes before the first output is created: the sources are read and parsed, the scripts run,
//! and the texts are made.

ghost use Rattle.std.specs.Prelude.{◌≡◌, ◌≤◌, length, All, IfOk, IfErr, OnOk};
ghost use Rattle.command_words.specs.Words.{taken_names};
ghost use Rattle.command_words.specs.Views.{run_request};
ghost use Rattle.source_run.specs.Requests.{IsAsked, kind_of};
ghost use Rattle.source_run.specs.Input.{Texts, IsAccepted};
ghost use Rattle.source_run.specs.Parsing.{meaning_of, AreRunnable};
ghost use Rattle.teseo_program.specs.Prepared.{IsUnprepared, AreAccepted, IsPreparedOf, IsMadeOf, IsLoadStop, NamesAreApart};

use crate::left::Left;
use crate::outcome::Outcome;
use crate::outputs::{is_full, outputs_of, summary_of};
use command_words::RunWords;
use desk_io::{Desk, Gate, Output, read_all};
use graph_model::{LoadRefusal, MAX_SOURCE_BYTES};
use graphalytics_io::Text;
use items::Items;
use source_run::below::{files_are_loadable, load_is_legal};
use source_run::{Input, Manner, kind_of, leaves_of, parse_sources, run_scripts, sources_of};
use std::alloc::Global;
use std::sync::Wait;
use std::thread::Threads;

/// The outputs in the order in which they are written, the summary that is said at the end, whether a report has a
/// line `full`, and what the store that ran has left, if one did.
#[derive(Drop)]
pub struct Prepared {
    /// In the order in which they are written.
    pub outputs: Items<Output>,
    /// What is said at the end.
    pub summary: Text,
    /// Whether a report has a line `full`.
    pub is_full: bool,
    /// What the store that ran has left, if one did.
    pub left: Left,
}

/// Reads and parses the sources, runs the scripts, and makes all texts. Creates nothing.
pub fn prepare<R: Threads + Wait + Sync, D: Desk, G: Gate>(
    rt: &R,
    alloc: Global,
    desk: &mut D,
    words: &RunWords<'_>,
    gate: &G,
) -> Result<Prepared, Outcome>
    requires { IsAsked (run_request words.now) }
    ensures prepared { IfOk result (IsPreparedOf (run_request words.now) (D.files desk.old)) }
    ensures apart { IfOk result NamesAreApart }
    ensures ok { OnOk result (D.files desk.new ≡ D.files desk.old) }
    ensures refused { IfErr result (IsUnprepared (run_request words.now) (D.files desk.old) (D.files desk.new)) }
{
    let input = read_input(rt, alloc, desk, words)?;
    match make(rt, alloc, words, input, gate) {
        Ok(prepared) => Ok(prepared),
        Err(refusal) => Err(Outcome::from(refusal)),
    }
}

/// Reads the sources, and parses them. Creates nothing.
pub fn read_input<R: Threads + Sync, D: Desk>(
    rt: &R,
    alloc: Global,
    desk: &mut D,
    words: &RunWords<'_>,
) -> Result<Input, Outcome>
    requires { IsAsked (run_request words.now) }
    ensures accepted { IfOk result (λ input. AreAccepted (run_request words.now) (D.files desk.old) (meaning_of input)) }
    ensures runnable { IfOk result (λ input. AreRunnable (taken_names (run_request words.now)) input.scripts) }
    ensures count { IfOk result (λ input. length input.scripts ≡ length (run_request words.now).scripts) }
    ensures listed { IfOk result (λ input. All (λ job. job ≤ length input.scripts) input.schedule) }
    ensures ok { OnOk result (D.files desk.new ≡ D.files desk.old) }
    ensures refused { IfErr result (IsUnprepared (run_request words.now) (D.files desk.old) (D.files desk.new)) }
{
    let names = sources_of(alloc, words)?;
    let sources = read_all(alloc, desk, &names, MAX_SOURCE_BYTES)?;
    let input = match parse_sources(rt, alloc, &sources, words) {
        Ok(input) => input,
        Err(stop) => return Err(Outcome::from(stop)),
    };
    Ok(input)
}

/// Runs the scripts on the graph of the sources, and makes the texts of what that leaves.
fn make<R: Threads + Wait + Sync, G: Gate>(
    rt: &R,
    alloc: Global,
    words: &RunWords<'_>,
    input: Input,
    gate: &G,
) -> Result<Prepared, LoadRefusal>
    requires asked { IsAsked (run_request words.now) }
    requires accepted { (texts : Texts) × IsAccepted (run_request words.now) texts (meaning_of input) }
    requires runnable { AreRunnable (taken_names (run_request words.now)) input.scripts }
    requires count { length input.scripts ≡ length (run_request words.now).scripts }
    requires listed { All (λ job. job ≤ length input.scripts) input.schedule }
    ensures made { IfOk result (IsMadeOf (run_request words.now) (meaning_of input)) }
    ensures apart { IfOk result NamesAreApart }
    ensures refused { IfErr result (IsLoadStop (run_request words.now) (meaning_of input)) }
{
    // The laws that what was read of files may be loaded, which the engine asks for.
    files_are_loadable();
    load_is_legal();
    let kind = kind_of(words);
    let leaves = leaves_of(words.leaves, kind, &input);
    let manner = Manner {
        threads: words.threads,
        is_serial: words.is_serial,
    };
    let run = run_scripts(rt, alloc, kind, leaves, manner, input, gate)?;
    let commits = run.ran.journal().len() as u64;
    let summary = summary_of(alloc, commits, run.totals)?;
    let outputs = outputs_of(rt, alloc, words, &run)?;
    // Looked for in the reports, as a reader would, and not in the store.
    let is_full = is_full(&run);
    Ok(Prepared {
        outputs,
        summary,
        is_full,
        left: Left::from(run.ran),
    })
}
