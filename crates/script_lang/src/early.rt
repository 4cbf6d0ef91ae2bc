//! Scripts that are read side by side.
//!
//! 1. Each is read as if those before it asked for no file. One that asks for a file itself is left out, and so is one
//!    with a fault, and one for which memory ran out: whoever reads it after the others finds what it has.

ghost use Rattle.std.specs.Prelude.{◌≡◌, ◌<◌, ◌++◌, IfOk};
ghost use Rattle.std.specs.List.{AllZip};
ghost use Rattle.std.specs.Thread.{IsSync};
ghost use Rattle.script_lang.specs.Early.{IsEarly};

use crate::names::Names;
use crate::script::read_script;
use graph_model::NoMemory;
use graphalytics_io::cuts_for;
use items::Items;
use run_model::Script;
use std::alloc::Global;
use std::marker::Sync;
use std::thread::{Threads, join};

/// The scripts of these texts, read by several threads, where these names are taken. Nothing stands for a script that
/// asks for a file, for one with a fault, and for one for which memory ran out.
pub fn read_early<R: Threads + Sync>(
    rt: &R,
    alloc: Global,
    texts: &[Items<u8>],
    taken: &Names,
) -> Result<Vec<Option<Script>>, NoMemory>
    ensures { IfOk result (λ early. AllZip (IsEarly taken.now) texts.now early.items) }
{
    let cuts = cuts_for(rt);
    let early = read_texts(rt, alloc, texts, taken, cuts)?;
    Ok(early)
}

/// The same of texts that are cut so often.
#[cycle(texts)]
fn read_texts<R: Threads + Sync>(
    rt: &R,
    alloc: Global,
    texts: &[Items<u8>],
    taken: &Names,
    cuts: u32,
) -> Result<Vec<Option<Script>>, NoMemory>
    ensures { IfOk result (λ early. AllZip (IsEarly taken.now) texts.now early.items) }
{
    if cuts == 0 || texts.len() < 2 {
        return read_each(alloc, texts, taken);
    }
    let (front, behind) = texts.split_at(texts.len() / 2);
    let early = read_both(rt, alloc, front, behind, taken, cuts)?;
    Ok(early)
}

/// The same of two halves.
#[cycle(texts)]
fn read_both<R: Threads + Sync>(
    rt: &R,
    alloc: Global,
    front: &[Items<u8>],
    behind: &[Items<u8>],
    taken: &Names,
    cuts: u32,
) -> Result<Vec<Option<Script>>, NoMemory>
    requires cuts { 0 < cuts }
    ensures { IfOk result (λ early. AllZip (IsEarly taken.now) (front.now ++ behind.now) early.items) }
{
    let (first, second) = join(
        rt,
        || -> Result<Vec<Option<Script>>, NoMemory>
            requires { IsSync R.row × (0 < cuts) }
            ensures { IfOk result (λ early. AllZip (IsEarly taken.entry.now) front.entry.now early.items) }
        { read_texts(rt, alloc, front, taken, cuts - 1) },
        || -> Result<Vec<Option<Script>>, NoMemory>
            requires { IsSync R.row × (0 < cuts) }
            ensures { IfOk result (λ early. AllZip (IsEarly taken.entry.now) behind.entry.now early.items) }
        { read_texts(rt, alloc, behind, taken, cuts - 1) },
    );
    let (mut early, mut second) = (first?, second?);
    early.append(&mut second)?;
    Ok(early)
}

/// The same by one thread.
fn read_each(
    alloc: Global,
    texts: &[Items<u8>],
    taken: &Names,
) -> Result<Vec<Option<Script>>, NoMemory>
    ensures { IfOk result (λ early. AllZip (IsEarly taken.now) texts.now early.items) }
{
    let mut early = Vec::new(alloc);
    'texts: for text in texts {
        early.push(read_alone(alloc, text.as_slice(), taken))?;
    }
    Ok(early)
}

/// The script of a text that asks for no file, if it is one and there is memory.
fn read_alone(alloc: Global, text: &[u8], taken: &Names) -> Option<Script>
    ensures { IsEarly taken.now text.now result }
{
    // Names of its own, so that scripts beside it see none of its files.
    let Ok(mut names) = taken.copy(alloc) else {
        return None
    };
    let Ok(script) = read_script(alloc, text, &mut names) else {
        return None
    };
    if names.len() == taken.len() {
        Some(script)
    } else {
        None
    }
}
