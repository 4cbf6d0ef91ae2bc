//! All parts are read at once.
//!
//! 1. The call ends when the last part is read, so whatever threads were lent is the caller's again.

ghost use Rattle.std.specs.Prelude.{All};
ghost use Rattle.std.specs.List.{AllByRecursion, AllZip};
ghost use Rattle.reader_parts.specs.Parts.{HasRead, MayRead};

use crate::part::ReaderPart;
use shared_readers::below::{CellHints, Store};
use std::sync::Wait;
use std::thread::{Threads, for_each_mut};

/// Has each part read by its reader, in a thread of its own. May wait.
pub(crate) fn read_all<R: Threads + Wait + Sync>(
    rt: &R,
    store: &Store,
    hints: &CellHints,
    parts: &mut Vec<ReaderPart>,
)
    requires unread { AllByRecursion (MayRead store.now) parts.old.items }
    ensures read { AllZip (HasRead store.now) parts.old.items parts.new.items }
{
    read_each(rt, store, hints, parts.as_mut_slice());
}

/// The same of parts side by side.
fn read_each<R: Threads + Wait + Sync>(
    rt: &R,
    store: &Store,
    hints: &CellHints,
    parts: &mut [ReaderPart],
)
    requires unread { AllByRecursion (MayRead store.now) parts.old }
    ensures read { AllZip (HasRead store.now) parts.old parts.new }
{
    // A thread for each part. None is started where there are no parts, but the number may not be 0.
    let count = parts.len().max(1);
    for_each_mut(
        rt,
        parts,
        count,
        &|_place: usize, part: &mut ReaderPart|
            requires { MayRead store.now part.old }
            ensures { HasRead store.entry.now part.old part.new }
        { part.read(rt, store, hints) },
    );
}
