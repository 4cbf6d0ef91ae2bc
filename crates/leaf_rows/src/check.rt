//! Whether a write may be made.
//!
//! 1. It changes nothing, and takes no memory: a write that is refused leaves no trace.
//! 2. Where edges have to be looked for, which may go through all rows, that is done only where the write removes a
//!    vertex that the view has.

ghost use Rattle.std.specs.Prelude.{◌≡◌, ◌≤◌, length, IsSome};
ghost use Rattle.graph_model.specs.declared.limits.TheConstants.{MAX_ID};
ghost use Rattle.graph_model.specs.Graph.{Graph, has_edges};
ghost use Rattle.graph_model.specs.Refused.{IsWithinLimits};
ghost use Rattle.txn_manager.specs.Manager.{open_start};
ghost use Rattle.leaf_rows.specs.Checks.{IsChecked, FitsKind};
ghost use Rattle.leaf_rows.specs.Readers.{Shows};

use crate::held::LeafFingers;
use crate::reader::Reader;
use crate::rows::LeafRows;
use graph_model::{Kind, Refusal, Write};

impl LeafRows {
    /// Whether a write of an open transaction may be made. Of several writers that stand against it the one is named
    /// that counts.
    pub fn check(
        &self,
        kind: Kind,
        reader: &Reader,
        write: Write,
        near: &LeafFingers,
    ) -> Result<(), Refusal>
        requires within { IsWithinLimits write }
        requires started { reader.now.start ≤ length reader.now.manager.now.journal }
        requires is_open { IsSome (open_start reader.now.manager.now reader.now.by) }
        ensures { (g : Graph) → Shows reader.now self.now g → FitsKind kind g
            → IsChecked reader.now self.now g write result }
    {
        reader.manager.is_managed();
        self.is_unstamped();
        let has_edges = |v: u64| -> bool
            requires within { v ≤ MAX_ID }
            requires started { reader.now.start ≤ length reader.now.manager.now.journal }
            ensures { (g : Graph) → Shows reader.entry.now self.entry.now g → FitsKind kind g → result ≡ has_edges g v }
        { self.has_edges(kind, reader, v) };
        row_writes::check(
            self,
            &reader.snapshot(),
            &mut reader.known(),
            write,
            near,
            has_edges,
        )
    }
}
