//! All that comes before the first output of a run whose commits are kept: the sources are read and parsed, the journal
//! file is made, the scripts run, and the texts are made.

ghost use Rattle.std.specs.Prelude.{◌≡◌, ◌≤◌, [], false, None, length, All, IfOk, IfErr, OnOk, OnErr};
ghost use Rattle.journal_disk.specs.Disk.{FaultsStand};
ghost use Rattle.kept_run.specs.RunKeeper.Keeping.{IsKept, acknowledged_on};
ghost use Rattle.command_words.specs.Words.{taken_names};
ghost use Rattle.command_words.specs.Views.{run_request};
ghost use Rattle.kept_run.specs.SourceRun.Requests.{IsAsked, kind_of};
ghost use Rattle.kept_run.specs.SourceRun.Input.{Texts, IsAccepted};
ghost use Rattle.kept_run.specs.SourceRun.Parsing.{meaning_of, AreRunnable};
ghost use Rattle.kept_run.specs.TeseoProgram.Prepared.{NamesAreApart};
ghost use Rattle.kept_program.specs.Outcomes.{KeepsSome};
ghost use Rattle.kept_program.specs.Prepared.{IsKeptPrepared, IsKeptMade, IsKeptStop, IsUnkept};

use crate::outcome::KeptOutcome;
use command_words::RunWords;
use desk_io::Desk;
use journal_disk::Disk;
use journal_recovery::below::DiskFault;
use kept_run::below::{
    Input, Keeper, Left, Prepared, files_are_loadable, is_full, kind_of, leaves_of, load_is_legal,
    outputs_of, read_input, summary_of,
};
use kept_run::{KeptRefusal, run_scripts_kept};
use std::alloc::Global;
use std::thread::Threads;

/// Reads and parses the sources, makes the journal file, runs the scripts, and makes all texts. Creates nothing else.
pub fn prepare_kept<R: Threads + Sync, D: Desk, K: Disk>(
    rt: &R,
    alloc: Global,
    desk: &mut D,
    words: &RunWords<'_>,
    name: &str,
    disk: &mut K,
) -> Result<Prepared, KeptOutcome>
    requires asked { IsAsked (run_request words.now) }
    requires by_turns { (run_request words.now).threads ≡ None }
    requires plain { (run_request words.now).is_serial ≡ false }
    ensures prepared { IfOk result (IsKeptPrepared
        (acknowledged_on K.moment K.may_leave K.left_since disk.new) (run_request words.now) (D.files desk.old)) }
    ensures apart { IfOk result NamesAreApart }
    ensures ok { OnOk result (D.files desk.new ≡ D.files desk.old) }
    ensures stand { OnOk result (FaultsStand (K.state disk.old) (K.state disk.new)) }
    ensures refused { IfErr result (IsUnkept
        (acknowledged_on K.moment K.may_leave K.left_since disk.new)
        (run_request words.now) (D.files desk.old) (D.files desk.new) (K.state disk.old) (K.state disk.new)) }
{
    let input = match read_input(rt, alloc, desk, words) {
        Ok(input) => input,
        Err(outcome) => return Err(KeptOutcome::Of(outcome)),
    };
    // After the sources, so that a run which isn't accepted creates no file.
    let mut keeper = match Keeper::create(alloc, disk, name, kind_of(words)) {
        Ok(keeper) => keeper,
        Err(DiskFault) => return Err(KeptOutcome::NotMade),
    };
    match make_kept(rt, alloc, words, input, disk, &mut keeper) {
        Ok(prepared) => Ok(prepared),
        Err(refusal) => Err(KeptOutcome::from(refusal)),
    }
}

/// Runs the scripts on the graph of the sources, keeps the commits in a file that is new, and makes the texts of what
/// that leaves.
fn make_kept<R: Threads + Sync, K: Disk>(
    rt: &R,
    alloc: Global,
    words: &RunWords<'_>,
    input: Input,
    disk: &mut K,
    keeper: &mut Keeper,
) -> Result<Prepared, KeptRefusal>
    requires asked { IsAsked (run_request words.now) }
    requires by_turns { (run_request words.now).threads ≡ None }
    requires plain { (run_request words.now).is_serial ≡ false }
    requires accepted { (texts : Texts) × IsAccepted (run_request words.now) texts (meaning_of input) }
    requires runnable { AreRunnable (taken_names (run_request words.now)) input.scripts }
    requires count { length input.scripts ≡ length (run_request words.now).scripts }
    requires listed { All (λ job. job ≤ length input.scripts) input.schedule }
    requires new { IsKept K.moment K.may_leave K.left_since K.state
        (kind_of (run_request words.now)) [] keeper.old.file disk.old }
    ensures made { IfOk result (IsKeptMade
        (acknowledged_on K.moment K.may_leave K.left_since disk.new) (run_request words.now) (meaning_of input)) }
    ensures apart { IfOk result NamesAreApart }
    ensures stand { OnOk result (FaultsStand (K.state disk.old) (K.state disk.new)) }
    ensures still { OnErr result (KeepsSome
        (acknowledged_on K.moment K.may_leave K.left_since disk.new) (run_request words.now) (meaning_of input)) }
    ensures refused { IfErr result
        (IsKeptStop (run_request words.now) (meaning_of input) (K.state disk.old) (K.state disk.new)) }
{
    files_are_loadable();
    load_is_legal();
    let kind = kind_of(words);
    let leaves = leaves_of(words.leaves, kind, &input);
    let run = run_scripts_kept(rt, alloc, kind, leaves, input, disk, keeper)?;
    let commits = run.ran.journal().len() as u64;
    let summary = summary_of(alloc, commits, run.totals)?;
    let outputs = outputs_of(rt, alloc, words, &run)?;
    let is_full = is_full(&run);
    Ok(Prepared {
        outputs,
        summary,
        is_full,
        left: Left::from(run.ran),
    })
}
