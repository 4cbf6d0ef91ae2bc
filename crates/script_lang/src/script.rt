//! Reads scripts.
//!
//! 1. Each line is looked at once, and nothing after the first fault is read.
//! 2. After a refusal the names are those of before the call.

ghost use Rattle.std.specs.Prelude.{◌≡◌, ◌++◌, length, take, Ok, IfOk, IfErr, OnErr};
ghost use Rattle.script_lang.specs.Scripts.{script_of, files_of, IsRefused};
ghost use Rattle.script_lang.specs.Runnable.{IsRunnable};

use crate::names::Names;
use crate::reading::ScriptSoFar;
use crate::refusal::{ScriptRefusal, ScriptWhat};
use graphalytics_io::field_lines;
use run_model::Script;
use std::alloc::Global;

/// Reads a script. The files that it asks for become the last of the names taken.
pub fn read_script(alloc: Global, text: &[u8], taken: &mut Names) -> Result<Script, ScriptRefusal>
    ensures ok { IfOk result (λ script. script_of taken.old text.now ≡ Ok script) }
    ensures names { IfOk result (λ script. taken.new ≡ taken.old ++ files_of script) }
    ensures runnable { IfOk result (λ script. IsRunnable taken.old script) }
    ensures fault { IfErr result (λ refusal. IsRefused (script_of taken.old text.now) refusal) }
    ensures err { OnErr result (taken.new ≡ taken.old) }
{
    let before = taken.len();
    let read = read_lines(alloc, text, taken);
    if read.is_err() {
        // The caller may try another text, whose names are then as free as before.
        taken.truncate(before);
    }
    read
}

/// Reads the lines of a script. After a refusal there may be more names than before.
fn read_lines(alloc: Global, text: &[u8], taken: &mut Names) -> Result<Script, ScriptRefusal>
    ensures ok { IfOk result (λ script. script_of taken.old text.now ≡ Ok script) }
    ensures names { IfOk result (λ script. taken.new ≡ taken.old ++ files_of script) }
    ensures fault { IfErr result (λ refusal. IsRefused (script_of taken.old text.now) refusal) }
    ensures kept { OnErr result (take (length taken.old) taken.new ≡ taken.old) }
{
    let mut reading = ScriptSoFar {
        script: Script::new(alloc),
        began: None,
        begun: 0,
    };
    let mut lines = field_lines(text);
    'lines: while let Some(line) = lines.next() {
        reading.read_line(alloc, line, taken)?;
    }
    let ScriptSoFar { script, began, .. } = reading;
    match began {
        None => Ok(script),
        // Named by the line of its `begin`: the end of the script has no line.
        Some(line) => Err(ScriptRefusal::Fault {
            line,
            what: ScriptWhat::NotEnded,
        }),
    }
}
