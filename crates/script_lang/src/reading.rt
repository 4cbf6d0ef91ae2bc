//! A script that is read as far as some line.
//!
//! 1. The checks of a line are made in the order of `ScriptWhat`, and nothing is changed before all are passed.
//! 2. A line's file name is taken before its command stands in the script, so no later line can ask for it.

ghost use Rattle.std.specs.Prelude.{◌≡◌, ◌≤◌, ◌<◌, ◌^◌, length, take, is_some, None, Some, Ok, Err, OnOk, OnErr, IfErr, MatchResult};
ghost use Rattle.graph_model.specs.declared.limits.TheConstants.{MAX_BEGINS};
ghost use Rattle.run_model.specs.Commands.{next_txn};
ghost use Rattle.script_lang.specs.Words.{needed};
ghost use Rattle.script_lang.specs.Scripts.{command_of, count_fault, place_fault, begins_fault, read_line, began_behind};
ghost use Rattle.script_lang.specs.Readings.{before_of, ReadsLine, IsRefusedLine};

use crate::arguments::{Arguments, read_arguments};
use crate::command::{command_of, take_file};
use crate::names::Names;
use crate::refusal::{ScriptRefusal, ScriptWhat};
use crate::word::{FieldKind, Word, word_of};
use graph_model::MAX_BEGINS;
use graphalytics_io::{FieldLine, Fields};
use run_model::{Command, Script};
use std::alloc::Global;

/// The commands of the lines so far, and what the next line is checked against.
#[derive(Drop)]
pub(crate) struct ScriptSoFar {
    /// Those so far.
    pub script: Script,
    /// The line of the `begin` whose transaction is open.
    pub began: Option<u64>,
    /// How many lines `begin` there were.
    pub begun: u32,
}

impl ScriptSoFar {
    /// Reads one more line.
    pub(crate) fn read_line(
        &mut self,
        alloc: Global,
        line: FieldLine<'_>,
        taken: &mut Names,
    ) -> Result<(), ScriptRefusal>
        requires { self.old.begun ≤ MAX_BEGINS }
        ensures ok { OnOk result (ReadsLine self.old taken.old line.entry self.new taken.new) }
        ensures err { IfErr result (λ refusal. IsRefusedLine self.old taken.old line.entry refusal) }
        ensures kept { OnErr result (take (length taken.old) taken.new ≡ taken.old) }
    {
        let number = line.number;
        let (word, arguments) = match self.check(line.fields, taken) {
            Ok(parts) => parts,
            Err(what) => return Err(ScriptRefusal::Fault { line: number, what }),
        };
        let command = command_of(alloc, word, arguments)?;
        // From this line on the name is taken, for the lines to come and for later scripts.
        take_file(alloc, &command, taken)?;
        self.follow(number, &command);
        self.script.push(command)?;
        Ok(())
    }

    /// Checks a line, and gives its word and what its fields say.
    fn check<'a>(
        &self,
        fields: Fields<'a>,
        taken: &Names,
    ) -> Result<(Word, Arguments<'a>), ScriptWhat>
        ensures { MatchResult result
            (λ parts. read_line (before_of self.now taken.now) fields.entry ≡ Ok (command_of parts.0 parts.1))
            (λ what. read_line (before_of self.now taken.now) fields.entry ≡ Err what) }
    {
        let mut fields = fields;
        let Some(field) = fields.next() else {
            return Err(ScriptWhat::NotACommand)
        };
        let Some(word) = word_of(field) else {
            return Err(ScriptWhat::NotACommand)
        };
        // The order of these checks is that in which faults of a line count.
        check_count(word.kinds(), fields.count())?;
        check_place(word, self.began.is_some())?;
        let arguments = read_arguments(word.kinds(), fields, taken)?;
        // Last, since it is the one fault that a shorter script wouldn't have.
        check_begins(word, self.begun)?;
        Ok((word, arguments))
    }

    /// Notes what is known after a line.
    fn follow(&mut self, number: u64, command: &Command)
        requires { next_txn self.old.begun command.now < 2 ^ 32 }
        ensures { self.new ≡ record self.old {
          began = began_behind self.old.began number command.now;
          begun = next_txn self.old.begun command.now;
        } }
    {
        match command {
            Command::Begin => {
                self.began = Some(number);
                self.begun += 1;
            }
            Command::Commit => self.began = None,
            Command::Abort => self.began = None,
            _ => {}
        }
    }
}

/// Checks how many fields stand after a word.
fn check_count(kinds: &[FieldKind], count: usize) -> Result<(), ScriptWhat>
    ensures { MatchResult result (λ _. count_fault kinds.now count ≡ None)
        (λ what. count_fault kinds.now count ≡ Some what) }
{
    if count < needed(kinds) {
        return Err(ScriptWhat::MissingField);
    }
    // A field that may be missing counts here and not above.
    if kinds.len() < count {
        return Err(ScriptWhat::ExtraField);
    }
    Ok(())
}

/// How many of the fields a line has to have.
fn needed(kinds: &[FieldKind]) -> usize
    ensures { result ≡ needed kinds.now }
{
    kinds.iter().filter(|kind| kind.is_needed()).count()
}

/// Checks whether a line may stand where a transaction is open, or where none is.
fn check_place(word: Word, is_open: bool) -> Result<(), ScriptWhat>
    ensures { MatchResult result (λ _. place_fault word is_open ≡ None)
        (λ what. place_fault word is_open ≡ Some what) }
{
    match (word.is_begin(), is_open) {
        // Transactions of a script come one after the other: its pass has one at a time.
        (true, true) => Err(ScriptWhat::BegunTwice),
        (false, false) => Err(ScriptWhat::NotBegun),
        _ => Ok(()),
    }
}

/// Checks that there aren't too many lines `begin`.
fn check_begins(word: Word, begun: u32) -> Result<(), ScriptWhat>
    ensures { MatchResult result (λ _. begins_fault word begun ≡ None)
        (λ what. begins_fault word begun ≡ Some what) }
{
    if word.is_begin() && MAX_BEGINS <= begun {
        return Err(ScriptWhat::TooManyBegins);
    }
    Ok(())
}
