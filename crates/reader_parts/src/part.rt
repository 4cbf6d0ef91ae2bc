//! One part of a view, with the reader that reads it.
//!
//! 1. Each part has a list of its own, so threads share nothing but the store and the hints of the pass.
//! 2. Out of memory a part says so and keeps its reader, which has to be joined all the same.

ghost use Rattle.reader_parts.specs.Parts.{HasRead, MayRead};

use graph_model::{Key, Row};
use shared_readers::below::{CellHints, Store};
use shared_readers::{ReadPlace, SnapshotReader, read_part};
use std::sync::Wait;

/// The rows from a key on and before another, as far as they were read. Where memory ran out in the thread it says so.
pub struct ReaderPart {
    /// Whoever reads it, in a thread of its own.
    pub(crate) reader: SnapshotReader,
    /// Where it begins.
    pub(crate) from: Key,
    /// Where it ends, and the next part begins.
    pub(crate) until: Key,
    /// Those that were read.
    pub(crate) rows: Vec<Row>,
    /// Whether the thread ended for lack of memory.
    pub(crate) ran_out: bool,
}

impl ReaderPart {
    /// Reads all its rows into the list, which is empty. May wait.
    pub(crate) fn read(&mut self, rt: &impl Wait, store: &Store, hints: &CellHints)
        requires { MayRead store.now self.old }
        ensures { HasRead store.now self.old self.new }
    {
        let mut place = ReadPlace::new(hints);
        let ended = read_part(
            rt,
            store,
            &mut self.reader,
            &mut place,
            self.from,
            self.until,
            &mut self.rows,
        );
        // Kept and not answered: a thread among others has nobody to answer, and its reader has to be joined first.
        self.ran_out = ended.is_err();
    }
}
