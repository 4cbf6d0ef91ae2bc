//! The command `recover`: the journal of a file that a stopped run has left.
//!
//! 1. The file is read whole, and both texts are made, before the output is created.

ghost use Rattle.std.specs.Prelude.{IfOk, IfErr, OnOk};
ghost use Rattle.journal_disk.specs.Disk.{FaultsStand};
ghost use Rattle.journal_recovery.specs.JournalFile.Recovering.{IsRefused};
ghost use Rattle.command_words.specs.Views.{recover_request};
ghost use Rattle.kept_run.specs.TeseoProgram.Prepared.{NamesAreApart};
ghost use Rattle.kept_program.specs.Outcomes.{RecoverEnds};
ghost use Rattle.kept_program.specs.Prepared.{IsRecovered};

use crate::outcome::KeptOutcome;
use crate::say::say_stop;
use command_words::RecoverWords;
use desk_io::Desk;
use items::Items;
use journal_disk::Disk;
use journal_recovery::below::RecoverRefusal;
use journal_recovery::recover_texts;
use kept_run::below::{Left, Prepared, output_of, write_and_say};
use std::alloc::Global;

/// Reads a journal file, and writes the text of its journal.
pub fn recover<D: Desk, K: Disk>(
    alloc: Global,
    desk: &mut D,
    words: &RecoverWords<'_>,
    disk: &mut K,
) -> KeptOutcome
    ensures { RecoverEnds result (recover_request words.now)
        (D.files desk.old) (D.files desk.new) (K.state disk.old) (K.state disk.new) }
{
    match prepare_recovery(alloc, words, disk) {
        Ok(prepared) => KeptOutcome::Of(write_and_say(desk, &prepared)),
        Err(refusal) => {
            let outcome = KeptOutcome::from(refusal);
            say_stop(desk, "", words.keep, outcome);
            outcome
        }
    }
}

/// Reads the file, and makes the text of its journal, and what is said of it. Creates no output.
fn prepare_recovery<K: Disk>(
    alloc: Global,
    words: &RecoverWords<'_>,
    disk: &mut K,
) -> Result<Prepared, RecoverRefusal>
    ensures recovered { IfOk result (IsRecovered (K.state disk.old) (recover_request words.now)) }
    ensures apart { IfOk result NamesAreApart }
    ensures stand { OnOk result (FaultsStand (K.state disk.old) (K.state disk.new)) }
    ensures refused { IfErr result (IsRefused (K.state disk.old) words.now.keep.now (K.state disk.new)) }
{
    let texts = recover_texts(alloc, disk, words.keep)?;
    let mut outputs = Items::new(alloc);
    outputs.push(output_of(alloc, words.journal, texts.journal)?)?;
    Ok(Prepared {
        outputs,
        summary: texts.summary,
        is_full: false,
        left: Left::Nothing,
    })
}
