//! The rows of a part of a view, in a list.
//!
//! 1. Each run begins at the key where the last one ended, so rows that move between cells meanwhile are neither left
//!    out nor read twice.

ghost use Rattle.std.specs.Prelude.{◌≡◌, false, ◌++◌, OnOk};
ghost use Rattle.graph_model.specs.Rows.{is_below, rows};
ghost use Rattle.shared_readers.specs.Readers.{IsReader, KeepsReading, seen_in};

use crate::place::ReadPlace;
use crate::reader::SnapshotReader;
use crate::runs::read_run;
use graph_model::{Key, NoMemory, Row, Rows64};
use shared_store::Store;
use std::sync::Wait;

/// Appends the rows that the reader sees from a key on and before another to a list. May wait. Out of memory the list
/// has some of them.
pub fn read_part(
    rt: &impl Wait,
    store: &Store,
    reader: &mut SnapshotReader,
    place: &mut ReadPlace<'_>,
    from: Key,
    until: Key,
    list: &mut Vec<Row>,
) -> Result<(), NoMemory>
    requires reader { IsReader store.now reader.old }
    requires ordered { is_below until from ≡ false }
    ensures kept { KeepsReading store.now reader.old reader.new }
    ensures rows { OnOk result (list.new.items ≡ list.old.items ++ rows (seen_in store.now reader.old) from until) }
{
    let mut run = Rows64::new();
    let mut next = from;
    'cells: for _cell in rt.forever() {
        if !next.is_below(until) {
            return Ok(());
        }
        let end = read_run(rt, store, reader, place, next, until, &mut run);
        // Only rows of a run that is whole come into the list: a torn read never gets this far.
        list.extend_from_slice(run.as_slice())?;
        next = end;
    }
    unreachable!()
}
