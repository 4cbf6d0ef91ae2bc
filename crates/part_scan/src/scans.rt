//! Engines that several readers scan at once.
//!
//! 1. What readers give together is one view, that of the open transaction, as one scan gives it; so whoever makes an
//!    image of it needs no word about threads.

ghost use Rattle.std.specs.Prelude.{◌≡◌, ◌<◌, ◌≤◌, ℕ, Some, IsSome, IfOk, length};
ghost use Rattle.graph_model.specs.AccountSteps.{view_of};
ghost use Rattle.graph_model.specs.Rows.{all_rows};
ghost use Rattle.part_scan.specs.Parts.{rows_in};

use crate::lists::RowLists;
use graph_model::{Engine, NoMemory};

/// An engine whose view is scanned by several readers at once.
pub trait PartScan: Engine {
    /// Scans the whole view of the open transaction in so many parts, each by a reader of its own. Out of memory
    /// it leaves the view as it was.
    fn scan_parts(&mut self, parts: u32) -> Result<RowLists, NoMemory>
        requires current { IsSome (Self.account self.old).start }
        requires parts { (0 < parts) × (parts ≤ 32) }
        ensures count { IfOk result (λ lists. length lists ≡ parts) }
        ensures rows { IfOk result (λ lists. (start : ℕ) → (Self.account self.old).start ≡ Some start
            → rows_in lists ≡ all_rows (view_of (Self.account self.old) start)) }
        ensures did { Self.did_read self.old self.new };
}
