//! The outputs and the summary, all made before the first of them is written.
//!
//! 1. Where memory is refused for one of them nothing is created.

ghost use Rattle.std.specs.Prelude.{◌≡◌, ◌++◌, map, length, All, IfOk, OnOk};
ghost use Rattle.std.specs.List.{AllByRecursion, list_any};
ghost use Rattle.graph_model.specs.TableText.{table_text};
ghost use Rattle.run_model.specs.Texts.{report_text};
ghost use Rattle.source_run.specs.ScriptLang.FieldFaults.{IsNameByte};
ghost use Rattle.source_run.specs.JobRunner.Phases.{file_of};
ghost use Rattle.command_words.specs.Words.{report_name};
ghost use Rattle.command_words.specs.Views.{run_request};
ghost use Rattle.source_run.specs.Requests.{report_names};
ghost use Rattle.teseo_program.specs.Outcomes.{is_full, shows_full};
ghost use Rattle.teseo_program.specs.Sinks.{summary_line, sinks_of, file_output};
ghost use Rattle.source_run.specs.Running.{run_outputs, HavePrintableNames};

use command_words::RunWords;
use desk_io::Output;
use graph_model::{NoMemory, Table};
use graphalytics_io::{Text, text_of_table};
use items::Items;
use report_lang::{text_of_journal, text_of_report};
use run_model::{Answer, Name};
use source_run::below::NamedTable;
use source_run::{RunResult, script_at};
use std::alloc::Global;
use std::thread::Threads;
use txn_manager::Totals;

/// The journal, the reports and the kernel files, in the order in which they are written.
pub fn outputs_of<R: Threads + Sync>(
    rt: &R,
    alloc: Global,
    words: &RunWords<'_>,
    run: &RunResult,
) -> Result<Items<Output>, NoMemory>
    requires count { length run.now.jobs ≡ length (run_request words.now).scripts }
    requires names { HavePrintableNames run.now.jobs }
    ensures { IfOk result (λ outputs. outputs
        ≡ sinks_of (run_request words.now).journal (report_names (run_request words.now)) (run_outputs run.now)) }
{
    let mut outputs = Items::new(alloc);
    let text = text_of_journal(rt, alloc, run.ran.journal())?;
    // The journal comes first: where a later output fails, what was committed is known all the same.
    outputs.push(output_of(alloc, words.journal, text)?)?;
    let jobs = run.jobs.as_slice();
    'reports: for k in 0..jobs.len() {
        let script = script_at(words, k);
        outputs.push(report_output(rt, alloc, script, jobs[k].answers())?)?;
    }
    'jobs: for job in jobs {
        push_results(rt, alloc, job.tables(), &mut outputs)?;
    }
    Ok(outputs)
}

/// A text under a name.
pub fn output_of(alloc: Global, name: &str, text: Text) -> Result<Output, NoMemory>
    ensures { IfOk result (λ output. output ≡ record { name = name.now; text = text }) }
{
    Ok(Output::new(
        String::from_str(alloc, name)?,
        Items::from_vec(text.into_vec()),
    ))
}

/// The report of a script under its name.
fn report_output<R: Threads + Sync>(
    rt: &R,
    alloc: Global,
    script: &str,
    answers: &[Answer],
) -> Result<Output, NoMemory>
    ensures { IfOk result (λ output. output
        ≡ record { name = report_name script.now; text = report_text answers.now }) }
{
    let mut name = String::from_str(alloc, script)?;
    name.push_str(".report")?;
    let text = text_of_report(rt, alloc, answers)?;
    Ok(Output::new(name, Items::from_vec(text.into_vec())))
}

/// Puts the results of a script after the outputs.
fn push_results<R: Threads + Sync>(
    rt: &R,
    alloc: Global,
    tables: &[NamedTable],
    outputs: &mut Items<Output>,
) -> Result<(), NoMemory>
    requires { AllByRecursion (λ t. All IsNameByte t.name) tables.now }
    ensures { OnOk result (outputs.new ≡ outputs.old ++ map (λ t. file_output (file_of t)) tables.now) }
{
    'tables: for named in tables {
        outputs.push(result_output(rt, alloc, &named.name, &named.table)?)?;
    }
    Ok(())
}

/// A result under the name that its script gives it.
fn result_output<R: Threads + Sync>(
    rt: &R,
    alloc: Global,
    file: &Name,
    table: &Table,
) -> Result<Output, NoMemory>
    requires { All IsNameByte file.now }
    ensures { IfOk result (λ output. output ≡ record { name = file.now; text = table_text table.now }) }
{
    let text = text_of_table(rt, alloc, table)?;
    output_of(alloc, name_text(file), text)
}

/// A name of printable ASCII, as text.
fn name_text(file: &Name) -> &str
    requires { All IsNameByte file.now }
    ensures { result.now ≡ file.now }
{
    match str::from_utf8(file.as_slice()) {
        Ok(text) => text,
        Err(_) => unreachable!(),
    }
}

/// Whether a report has a line `full`.
pub fn is_full(run: &RunResult) -> bool
    ensures { result ≡ shows_full (run_outputs run.now) }
{
    'jobs: for job in run.jobs.as_slice() {
        if is_full_report(job.answers()) {
            return true;
        }
    }
    false
}

/// Whether one of the answers is `full`.
fn is_full_report(answers: &[Answer]) -> bool
    ensures { result ≡ list_any is_full answers.now }
{
    'answers: for answer in answers {
        if is_full_answer(answer) {
            return true;
        }
    }
    false
}

/// Whether the answer is `full`.
fn is_full_answer(answer: &Answer) -> bool
    ensures { result ≡ is_full answer.now }
{
    matches!(answer, Answer::Full)
}

/// The summary: how many commits there are, and what the store holds.
pub fn summary_of(alloc: Global, commits: u64, totals: Totals) -> Result<Text, NoMemory>
    ensures { IfOk result (λ text. text ≡ summary_line commits totals) }
{
    let mut text = Text::new(alloc);
    text.push_bytes(b"commits ")?;
    text.push_number(commits)?;
    text.push_bytes(b" vertices ")?;
    text.push_number(totals.vertices)?;
    text.push_bytes(b" edges ")?;
    text.push_number(totals.edges)?;
    text.push_bytes(b" undo ")?;
    text.push_number(totals.undo)?;
    text.push_bytes(b" retired ")?;
    text.push_number(totals.retired)?;
    text.push_bytes(b"\n")?;
    Ok(text)
}
