//! What a transaction reads of one row.
//!
//! 1. A read changes nothing, so it may stop anywhere; it takes no memory.

ghost use Rattle.std.specs.Prelude.{◌≡◌, ◌≤◌, true, length};
ghost use Rattle.graph_model.specs.Rows.{is_below, end_key};
ghost use Rattle.leaf_store.specs.Leaves.{contents_of};
ghost use Rattle.leaf_rows.specs.Readers.{value_for};

use crate::reader::Reader;
use crate::rows::LeafRows;
use graph_model::Key;
use leaf_store::Finger;
use row_writes::HeldCells;

impl LeafRows {
    /// The reader's value of a key.
    pub fn value(&self, reader: &Reader, key: Key) -> Option<u64>
        requires within { is_below key end_key ≡ true }
        requires started { reader.now.start ≤ length reader.now.manager.now.journal }
        ensures { result ≡ value_for reader.now (contents_of self.now key) }
    {
        self.is_unstamped();
        self.row(key, Finger::nowhere())
            .value(&reader.snapshot(), &mut reader.known())
    }
}
