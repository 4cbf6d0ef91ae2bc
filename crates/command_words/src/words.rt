//! Whether the words are taken, and as what.
//!
//! 1. Clap's definitions say what it finds; the checks here are of what it found.
//! 2. What is found gives one request at most, so a check that fails refuses the words.

ghost use Rattle.std.specs.Prelude.{◌≡◌, ℕ, true, map, option_map, codes, IsTrue, ◌↔◌, Option, Some, None, IfOk, IfErr};
ghost use Rattle.std.specs.String.{string_bytes};
ghost use Rattle.graph_model.specs.declared.limits.TheConstants.{MAX_LEAVES, MAX_THREADS};
ghost use Rattle.clap.specs.Words.{all_of, first_of, subcommand_rows_of, takes};
ghost use Rattle.command_words.specs.App.{teseo_app};
ghost use Rattle.command_words.specs.Words.{RunRequest, MakeRequest, RecoverRequest, IsTaken, GivesRun, IsRun, GivesMake, IsMake, GivesRecover, IsRecover};
ghost use Rattle.command_words.specs.Numbers.{HasNumber, IsOptionalNumber};
ghost use Rattle.command_words.specs.Views.{run_request, make_request, recover_request, request_of, rows_in};
ghost use Rattle.command_words.specs.Views.{IsFound, Refuses, RefusesWords};

use crate::app::teseo_command;
use crate::command::{MakeWords, ProgramWords, RecoverWords, RunWords};
use crate::number::read_number;
use crate::refusal::WordsRefusal;
use clap::ArgMatches;
use graph_model::{MAX_LEAVES, MAX_SCRIPTS, MAX_THREADS};
use std::alloc::Global;

/// How many digits of a weight may stand after the point.
const MAX_WEIGHT_DIGITS: u64 = 9;

/// How few vertices may be made.
const MIN_MADE_VERTICES: u64 = 2;

/// How many vertices may be made.
const MAX_MADE_VERTICES: u64 = 1000000;

/// How many edges may be made.
const MAX_MADE_EDGES: u64 = 3000000;

/// What the words ask for, the words after the program's name.
pub fn read_words<'a>(alloc: Global, words: &'a [String]) -> Result<ProgramWords<'a>, WordsRefusal>
    ensures taken { IfOk result (λ command. IsTaken (map string_bytes words.entry.now) (request_of command)) }
    ensures refused { IfErr result (RefusesWords (map string_bytes words.entry.now)) }
{
    let matches = parse_words(alloc, words)?;
    let Some((name, found)) = subcommand_in(&matches) else {
        return Err(WordsRefusal::BadWords)
    };
    if name == "run" {
        return Ok(ProgramWords::Run(run_words(alloc, found)?));
    }
    if name == "make" {
        return Ok(ProgramWords::Make(make_words(found)?));
    }
    if name == "recover" {
        return Ok(ProgramWords::Recover(recover_words(found)?));
    }
    Err(WordsRefusal::BadWords)
}

/// What clap finds in the words.
fn parse_words<'a>(alloc: Global, words: &'a [String]) -> Result<ArgMatches<'a>, WordsRefusal>
    ensures found { IfOk result (IsFound (map string_bytes words.entry.now)) }
    ensures refused { IfErr result (Refuses (takes teseo_app (map string_bytes words.entry.now) ≡ true)) }
{
    let command = teseo_command(alloc)?;
    Ok(command.try_get_matches_from(words)?)
}

/// The subcommand that the words name, with what clap found for it.
fn subcommand_in<'m, 'a>(matches: &'m ArgMatches<'a>) -> Option<(&'a str, &'m ArgMatches<'a>)>
    ensures { option_map (λ found. (found.0.now, rows_in found.1.now)) result ≡ subcommand_rows_of matches.now }
{
    matches.subcommand()
}

/// The words of `run`.
fn run_words<'a>(alloc: Global, found: &ArgMatches<'a>) -> Result<RunWords<'a>, WordsRefusal>
    ensures taken { IfOk result (λ words. IsRun (rows_in found.now) (run_request words)) }
    ensures refused { IfErr result (Refuses ((request : RunRequest) × IsRun (rows_in found.now) request)) }
{
    let words = given_run(alloc, found)?;
    if words.scripts.len() > MAX_SCRIPTS {
        return Err(WordsRefusal::BadWords);
    }
    if !words.goes_together() {
        return Err(WordsRefusal::BadWords);
    }
    // Two outputs of one name would be one file, with what the later one wrote.
    if !words.has_distinct_names() {
        return Err(WordsRefusal::BadWords);
    }
    Ok(words)
}

/// The words of `run`, before the checks of its names.
fn given_run<'a>(alloc: Global, found: &ArgMatches<'a>) -> Result<RunWords<'a>, WordsRefusal>
    ensures given { IfOk result (λ words. GivesRun (rows_in found.now) (run_request words)) }
    ensures refused { IfErr result (Refuses ((request : RunRequest) × GivesRun (rows_in found.now) request)) }
{
    let scripts = scripts_in(alloc, found)?;
    let vertices = text_in(found, "vertices")?;
    let edges = text_in(found, "edges")?;
    let journal = text_in(found, "journal")?;
    let weights = weights_in(found)?;
    let leaves = leaves_in(found)?;
    let threads = threads_in(found)?;
    Ok(RunWords {
        vertices,
        edges,
        journal,
        is_directed: is_used(found, "directed"),
        weights,
        is_cut: is_used(found, "cut"),
        schedule: optional_text(found, "schedule"),
        leaves,
        threads,
        is_serial: is_used(found, "serial"),
        keep: optional_text(found, "keep"),
        scripts,
    })
}

/// The words of `make`.
fn make_words<'a>(found: &ArgMatches<'a>) -> Result<MakeWords<'a>, WordsRefusal>
    ensures taken { IfOk result (λ words. IsMake (rows_in found.now) (make_request words)) }
    ensures refused { IfErr result (Refuses ((request : MakeRequest) × IsMake (rows_in found.now) request)) }
{
    let words = given_make(found)?;
    if words.out == words.edges_out {
        return Err(WordsRefusal::BadWords);
    }
    Ok(words)
}

/// The words of `make`, before the check of its names.
fn given_make<'a>(found: &ArgMatches<'a>) -> Result<MakeWords<'a>, WordsRefusal>
    ensures given { IfOk result (λ words. GivesMake (rows_in found.now) (make_request words)) }
    ensures refused { IfErr result (Refuses ((request : MakeRequest) × GivesMake (rows_in found.now) request)) }
{
    let seed = number_in(found, "seed", 0, u64::MAX)?;
    let vertices = number_in(found, "vertices", MIN_MADE_VERTICES, MAX_MADE_VERTICES)?;
    let edges = number_in(found, "edges", 0, MAX_MADE_EDGES)?;
    let out = text_in(found, "out")?;
    let edges_out = text_in(found, "edges-out")?;
    Ok(MakeWords {
        seed,
        vertices: vertices as u32,
        edges: edges as u32,
        out,
        edges_out,
    })
}

/// The words of `recover`.
fn recover_words<'a>(found: &ArgMatches<'a>) -> Result<RecoverWords<'a>, WordsRefusal>
    ensures taken { IfOk result (λ words. IsRecover (rows_in found.now) (recover_request words)) }
    ensures refused { IfErr result (Refuses ((request : RecoverRequest) × IsRecover (rows_in found.now) request)) }
{
    let words = given_recover(found)?;
    if words.keep == words.journal {
        return Err(WordsRefusal::BadWords);
    }
    Ok(words)
}

/// The words of `recover`, before the check of its names.
fn given_recover<'a>(found: &ArgMatches<'a>) -> Result<RecoverWords<'a>, WordsRefusal>
    ensures given { IfOk result (λ words. GivesRecover (rows_in found.now) (recover_request words)) }
    ensures refused { IfErr result (Refuses ((request : RecoverRequest) × GivesRecover (rows_in found.now) request)) }
{
    let keep = text_in(found, "keep")?;
    let journal = text_in(found, "journal")?;
    Ok(RecoverWords { keep, journal })
}

/// The text of an option, where it was given.
fn optional_text<'a>(found: &ArgMatches<'a>, name: &str) -> Option<&'a str>
    ensures { option_map (λ text. text.now) result ≡ first_of name.now (rows_in found.now) }
{
    found.get_str(name)
}

/// The text of an option that has to be given.
fn text_in<'a>(found: &ArgMatches<'a>, name: &str) -> Result<&'a str, WordsRefusal>
    ensures given { IfOk result (λ text. first_of name.now (rows_in found.now) ≡ Some text.now) }
    ensures refused { IfErr result (λ _. first_of name.now (rows_in found.now) ≡ None) }
{
    match optional_text(found, name) {
        Some(text) => Ok(text),
        None => Err(WordsRefusal::BadWords),
    }
}

/// Whether a flag was used.
fn is_used(found: &ArgMatches<'_>, name: &str) -> bool
    ensures { IsTrue result ↔ (first_of name.now (rows_in found.now) ≡ Some (codes "true")) }
{
    match optional_text(found, name) {
        Some(text) => text == "true",
        None => false,
    }
}

/// The number of an option that has to be given.
fn number_in(found: &ArgMatches<'_>, name: &str, least: u64, most: u64) -> Result<u64, WordsRefusal>
    ensures given { IfOk result (HasNumber least most (first_of name.now (rows_in found.now))) }
    ensures refused { IfErr result (λ _. (number : ℕ)
        → HasNumber least most (first_of name.now (rows_in found.now)) number → ⊥) }
{
    let text = text_in(found, name)?;
    match read_number(text, least, most) {
        Some(number) => Ok(number),
        None => Err(WordsRefusal::BadWords),
    }
}

/// How many digits of a weight stand after the point, where the edges have weights.
fn weights_in(found: &ArgMatches<'_>) -> Result<Option<u8>, WordsRefusal>
    ensures given { IfOk result (IsOptionalNumber 0 9 (first_of (codes "weights") (rows_in found.now))) }
    ensures refused { IfErr result (λ _. (digits : Option ℕ)
        → IsOptionalNumber 0 9 (first_of (codes "weights") (rows_in found.now)) digits → ⊥) }
{
    let Some(text) = optional_text(found, "weights") else {
        return Ok(None)
    };
    match read_number(text, 0, MAX_WEIGHT_DIGITS) {
        Some(digits) => Ok(Some(digits as u8)),
        None => Err(WordsRefusal::BadWords),
    }
}

/// How many leaves the store has, where that is stated.
fn leaves_in(found: &ArgMatches<'_>) -> Result<Option<u32>, WordsRefusal>
    ensures given { IfOk result (IsOptionalNumber 1 MAX_LEAVES (first_of (codes "leaves") (rows_in found.now))) }
    ensures refused { IfErr result (λ _. (leaves : Option ℕ)
        → IsOptionalNumber 1 MAX_LEAVES (first_of (codes "leaves") (rows_in found.now)) leaves → ⊥) }
{
    let Some(text) = optional_text(found, "leaves") else {
        return Ok(None)
    };
    match read_number(text, 1, MAX_LEAVES as u64) {
        Some(leaves) => Ok(Some(leaves as u32)),
        None => Err(WordsRefusal::BadWords),
    }
}

/// How many threads run the scripts, where they run side by side.
fn threads_in(found: &ArgMatches<'_>) -> Result<Option<u32>, WordsRefusal>
    ensures given { IfOk result (IsOptionalNumber 1 MAX_THREADS (first_of (codes "threads") (rows_in found.now))) }
    ensures refused { IfErr result (λ _. (threads : Option ℕ)
        → IsOptionalNumber 1 MAX_THREADS (first_of (codes "threads") (rows_in found.now)) threads → ⊥) }
{
    let Some(text) = optional_text(found, "threads") else {
        return Ok(None)
    };
    match read_number(text, 1, MAX_THREADS as u64) {
        Some(threads) => Ok(Some(threads as u32)),
        None => Err(WordsRefusal::BadWords),
    }
}

/// The names of the scripts.
fn scripts_in<'a>(alloc: Global, found: &ArgMatches<'a>) -> Result<Vec<&'a str>, WordsRefusal>
    ensures given { IfOk result (λ scripts.
        all_of (codes "script") (rows_in found.now) ≡ Some (map (λ name. name.now) scripts.items)) }
    ensures refused { IfErr result (Refuses ((scripts : _)
        × (all_of (codes "script") (rows_in found.now) ≡ Some scripts))) }
{
    let Some(names) = found.get_raw("script") else {
        return Err(WordsRefusal::BadWords)
    };
    let mut scripts = Vec::new(alloc);
    scripts.extend_from_slice(names)?;
    Ok(scripts)
}
