//! The rows of a write are found once, for all that its check, its room and its writing ask of them.
//!
//! 1. The places that are found are guesses: a wrong one costs a search, and no contract reads it.

ghost use Rattle.std.specs.Prelude.{◌≡◌};
ghost use Rattle.graph_model.specs.Refused.{IsWithinLimits};
ghost use Rattle.row_writes.specs.Written.{rows_of};

use crate::held::{FoundInLeaves, LeafFingers};
use crate::rows::LeafRows;
use graph_model::{Kind, Write};
use leaf_store::Finger;
use row_writes::{EndKeys, WrittenRows};

impl LeafRows {
    /// Finds the rows of a write, and those of an edge's ends. Nothing that contracts see changes.
    pub fn find(&mut self, kind: Kind, write: Write) -> FoundInLeaves
        requires { IsWithinLimits write }
        ensures rows { result.rows ≡ rows_of kind write }
        ensures kept { self.new ≡ self.old }
    {
        let rows = WrittenRows::of(kind, write);
        let near = match rows.ends {
            Some(ends) => self.find_edge(&rows, ends),
            None => LeafFingers {
                row: self.store.find(rows.row),
                ..LeafFingers::alike(Finger::nowhere())
            },
        };
        FoundInLeaves { rows, near }
    }

    /// Finds the rows of an edge and of its ends side by side.
    fn find_edge(&mut self, rows: &WrittenRows, ends: EndKeys) -> LeafFingers
        ensures { self.new ≡ self.old }
    {
        let keys = [
            rows.row,
            // Four keys in any case, so that all of them are looked for side by side by one call without a branch.
            rows.back.unwrap_or(rows.row),
            ends.source,
            ends.target,
        ];
        let [row, back, source, target] = self.store.find_four(keys, rows.touches);
        LeafFingers {
            row,
            back,
            source,
            target,
        }
    }
}
