//! What the sources stand for.
//!
//! 1. The sources are parsed in the order in which they were read, so the first one with a fault is the one that
//!    is named.
//! 2. The names that a script may not use grow by the files of each script, in order.
//! 3. Several threads read the scripts early, each as if those before it asked for no file. Where one does, those after
//!    it are read again.

ghost use Rattle.std.specs.Prelude.{◌≡◌, ◌≤◌, ◌<◌, ◌++◌, ℕ, List, true, length, get_or, All, Ok, IfOk, IfErr};
ghost use Rattle.std.specs.List.{AllZip};
ghost use Rattle.graph_model.specs.declared.limits.TheConstants.{MAX_LOAD_ROWS, MAX_SCRIPTS};
ghost use Rattle.graph_files.specs.VertexFiles.{vertices_of};
ghost use Rattle.graph_files.specs.EdgeFiles.{edge_of, edges_of};
ghost use Rattle.graph_files.specs.Faults.{IsRefused as IsReadRefused};
ghost use Rattle.graph_files.specs.Kept.{IsFront, every_id};
ghost use Rattle.graphalytics_io.specs.FieldLines.{field_lines};
ghost use Rattle.command_words.specs.Words.{taken_names};
ghost use Rattle.command_words.specs.Views.{run_request, taken_name};
ghost use Rattle.graph_files.specs.Weights.{AreReadable};
ghost use Rattle.script_lang.specs.Early.{IsEarly};
ghost use Rattle.script_lang.specs.Runnable.{IsRunnable};
ghost use Rattle.script_lang.specs.Scripts.{script_of, files_of, IsRefused};
ghost use Rattle.source_run.specs.Requests.{weights_of, rules_of};
ghost use Rattle.source_run.specs.Input.{texts_of, AreScripts};
ghost use Rattle.source_run.specs.Parsing.{AreTexts, IsInputOf, AreEntriesOf, AreRunnable, IsParseStop, IsGraphStop, IsScriptStop, IsScheduleStopOf, stop_of_script};

use crate::fault::{ParseStop, SourceFault};
use crate::request::{kind_of, script_count, weights_of};
use command_words::{RunWords, TakenName};
use desk_io::{Bytes, Sources};
use graph_files::{Front, ReadRefusal, edges_of_front, read_side_by_side};
use graph_model::{Ids, MAX_LOAD_ROWS, NoMemory};
use graphalytics_io::Edges;
use items::Items;
use run_model::{Name, Script};
use script_lang::{
    Names, Schedule, ScheduleRefusal, ScriptRefusal, read_early, read_schedule, read_script,
};
use std::alloc::Global;
use std::thread::Threads;

/// The graph of the files, the scripts that run on it, and their schedule.
#[derive(Drop)]
pub struct Input {
    /// In the order of the vertex file.
    pub ids: Ids,
    /// In the order of the edge file.
    pub edges: Edges,
    /// In the order of the words.
    pub scripts: Items<Script>,
    /// Which script is in turn, as far as it goes.
    pub schedule: Schedule,
}

/// Parses the vertex file, the edge file, the scripts and the schedule.
pub fn parse_sources<R: Threads + Sync>(
    rt: &R,
    alloc: Global,
    sources: &Sources,
    words: &RunWords<'_>,
) -> Result<Input, ParseStop>
    requires few { length (run_request words.now).scripts ≤ MAX_SCRIPTS }
    requires texts { AreTexts (run_request words.now) sources.now }
    requires readable { AreReadable (weights_of (run_request words.now)) }
    ensures accepted { IfOk result (IsInputOf (run_request words.now) sources.now) }
    ensures runnable { IfOk result (λ input. AreRunnable (taken_names (run_request words.now)) input.scripts) }
    ensures count { IfOk result (λ input. length input.scripts ≡ length (run_request words.now).scripts) }
    ensures listed { IfOk result (λ input. All (λ job. job ≤ length input.scripts) input.schedule) }
    ensures refused { IfErr result
        (IsParseStop (run_request words.now) (texts_of (run_request words.now) sources.now)) }
{
    let texts = sources.as_slice();
    let vertices = texts[0].as_slice();
    let lines = texts[1].as_slice();
    let (read, front) = read_side_by_side(
        rt,
        alloc,
        vertices,
        MAX_LOAD_ROWS,
        lines,
        weights_of(words),
    );
    // In the order in which sources are named: the first that isn't accepted is the one that is told.
    let ids = parse_vertices(vertices, read)?;
    let edges = parse_edges(rt, alloc, lines, front?, &ids, words)?;
    // Names of the words come first; each script adds those of its results, so a later one can't take them.
    let mut taken = names_taken(alloc, words)?;
    let count = script_count(words);
    let scripts = parse_scripts(rt, alloc, &texts[2..count + 2], &mut taken)?;
    let schedule = parse_schedule(alloc, texts, words)?;
    Ok(Input {
        ids,
        edges,
        scripts,
        schedule,
    })
}

/// The ids of the vertex file, the first source, where this was read of it. The text itself only the contract reads.
fn parse_vertices(text: &[u8], read: Result<Ids, ReadRefusal>) -> Result<Ids, ParseStop>
    requires ok { IfOk read (λ ids. vertices_of MAX_LOAD_ROWS text.now ≡ Ok ids) }
    requires fault { IfErr read (λ refusal. IsReadRefused (vertices_of MAX_LOAD_ROWS text.now) refusal) }
    ensures ok { IfOk result (λ ids. vertices_of MAX_LOAD_ROWS text.now ≡ Ok ids) }
    ensures refused { IfErr result (IsGraphStop 0 (vertices_of MAX_LOAD_ROWS text.now)) }
{
    let _ = text;
    match read {
        Ok(ids) => Ok(ids),
        Err(ReadRefusal::Fault(fault)) => Err(ParseStop::NotAccepted {
            place: 0,
            fault: SourceFault::Graph(fault),
        }),
        Err(ReadRefusal::NoMemory) => Err(ParseStop::NoMemory),
    }
}

/// Parses the edge file, the second source, by several threads, where each line was read by itself.
fn parse_edges<R: Threads + Sync>(
    rt: &R,
    alloc: Global,
    text: &[u8],
    front: Front,
    ids: &Ids,
    words: &RunWords<'_>,
) -> Result<Edges, ParseStop>
    requires readable { AreReadable (weights_of (run_request words.now)) }
    requires front { IsFront (edge_of every_id (weights_of (run_request words.now))) (field_lines text.now) front }
    ensures ok { IfOk result (λ edges. edges_of (rules_of (run_request words.now) ids.now) text.now ≡ Ok edges) }
    ensures refused { IfErr result (IsGraphStop 1 (edges_of (rules_of (run_request words.now) ids.now) text.now)) }
{
    match edges_of_front(
        rt,
        alloc,
        text,
        front,
        ids,
        kind_of(words),
        weights_of(words),
        MAX_LOAD_ROWS,
    ) {
        Ok(edges) => Ok(edges),
        Err(ReadRefusal::Fault(fault)) => Err(ParseStop::NotAccepted {
            place: 1,
            fault: SourceFault::Graph(fault),
        }),
        Err(ReadRefusal::NoMemory) => Err(ParseStop::NoMemory),
    }
}

/// Parses the scripts, the sources from the third on, by several threads.
fn parse_scripts<R: Threads + Sync>(
    rt: &R,
    alloc: Global,
    texts: &[Bytes],
    taken: &mut Names,
) -> Result<Items<Script>, ParseStop>
    ensures ok { IfOk result (AreScripts taken.old texts.now) }
    ensures runnable { IfOk result (AreRunnable taken.old) }
    ensures refused { IfErr result (IsScriptStop taken.old texts.now) }
{
    let mut early = read_early(rt, alloc, texts, taken)?;
    let before = taken.len();
    let mut scripts = Items::new(alloc);
    'texts: for k in 0..texts.len() {
        // What was read early is right as long as no script has asked for a file.
        let read = take_read(&mut early, k, taken.len() == before);
        // A fault of a script knows its line alone; which source it is in is added here.
        let script = match read_behind(alloc, texts[k].as_slice(), read, taken) {
            Ok(script) => script,
            Err(refusal) => return Err(script_stop(k + 2, refusal)),
        };
        scripts.push(script)?;
    }
    Ok(scripts)
}

/// Takes out what was read early of the text at a place, if it is right.
fn take_read(early: &mut Vec<Option<Script>>, place: usize, is_right: bool) -> Option<Script>
    ensures read { (first now : List (List ℕ)) (texts : List (List ℕ)) (text none : List ℕ)
        → AllZip (IsEarly first) texts early.old.items → place < length texts → text ≡ get_or texts place none
        → (is_right ≡ true → now ≡ first) → IsEarly now text result }
    ensures left { (first : List (List ℕ)) (texts : List (List ℕ)) → AllZip (IsEarly first) texts early.old.items
        → AllZip (IsEarly first) texts early.new.items }
{
    if !is_right {
        return None;
    }
    match early.get_mut(place) {
        Some(read) => read.take(),
        None => None,
    }
}

/// The script that was read early, if it was; else it is read now.
fn read_behind(
    alloc: Global,
    text: &[u8],
    early: Option<Script>,
    taken: &mut Names,
) -> Result<Script, ScriptRefusal>
    requires { IsEarly taken.old text.now early }
    ensures ok { IfOk result (λ script. script_of taken.old text.now ≡ Ok script) }
    ensures names { IfOk result (λ script. taken.new ≡ taken.old ++ files_of script) }
    ensures runnable { IfOk result (IsRunnable taken.old) }
    ensures fault { IfErr result (IsRefused (script_of taken.old text.now)) }
{
    match early {
        Some(script) => Ok(script),
        None => read_script(alloc, text, taken),
    }
}

/// The stop at a script, the source at this place.
fn script_stop(place: usize, refusal: ScriptRefusal) -> ParseStop
    ensures { result ≡ stop_of_script place refusal }
{
    match refusal {
        ScriptRefusal::Fault { line, what } => ParseStop::NotAccepted {
            place,
            fault: SourceFault::Script { line, what },
        },
        ScriptRefusal::NoMemory => ParseStop::NoMemory,
    }
}

/// Parses the schedule, the last source, where there is one.
fn parse_schedule(
    alloc: Global,
    texts: &[Bytes],
    words: &RunWords<'_>,
) -> Result<Schedule, ParseStop>
    requires few { length (run_request words.now).scripts ≤ MAX_SCRIPTS }
    requires texts { AreTexts (run_request words.now) texts.now }
    ensures ok { IfOk result (AreEntriesOf (run_request words.now) texts.now) }
    ensures listed { IfOk result (All (λ job. job ≤ length (run_request words.now).scripts)) }
    ensures refused { IfErr result (IsScheduleStopOf (run_request words.now) texts.now) }
{
    let count = script_count(words);
    // Then all turns go by rotation.
    if words.schedule.is_none() {
        return Ok(Schedule::new(alloc));
    }
    match read_schedule(alloc, texts[count + 2].as_slice(), count as u32) {
        Ok(schedule) => Ok(schedule),
        Err(ScheduleRefusal::Fault { line, what }) => Err(ParseStop::NotAccepted {
            place: count + 2,
            fault: SourceFault::Schedule { line, what },
        }),
        Err(ScheduleRefusal::NoMemory) => Err(ParseStop::NoMemory),
    }
}

/// The names that a script may not give a file, before the first script is read.
fn names_taken(alloc: Global, words: &RunWords<'_>) -> Result<Names, NoMemory>
    ensures { IfOk result (λ taken. taken ≡ taken_names (run_request words.now)) }
{
    let mut taken = Names::new(alloc);
    'places: for place in 0..words.taken_len() {
        taken.push(name_of(alloc, words.taken(place))?)?;
    }
    Ok(taken)
}

/// A name with its bytes.
fn name_of(alloc: Global, name: TakenName<'_>) -> Result<Name, NoMemory>
    ensures { IfOk result (λ copy. copy ≡ taken_name name.entry) }
{
    let bytes = match name {
        TakenName::Given(name) => Vec::from_slice(alloc, name.as_bytes())?,
        TakenName::ReportOf(script) => {
            let mut bytes = Vec::from_slice(alloc, script.as_bytes())?;
            // No word has this name, so it is made here as it is made for the output.
            bytes.extend_from_slice(b".report")?;
            bytes
        }
    };
    Ok(Name::from_vec(bytes))
}
