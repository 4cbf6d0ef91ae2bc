//! Rows that are written all at once, none of which has a record.
//!
//! 1. They come in the order of their keys, so none is searched for or shifted.

ghost use Rattle.std.specs.Prelude.{◌≡◌, ◌≤◌, false, [], length};
ghost use Rattle.graph_model.specs.Rows.{is_below};
ghost use Rattle.graph_model.specs.declared.limits.TheConstants.{SEGMENT_ROWS};
ghost use Rattle.gap_segment.specs.Fenced.{AreSorted, AreWithin};
ghost use Rattle.row_table.specs.Rows.{settled_rows};

use crate::segment::VersionSegment;
use graph_model::{Key, Row};
use row_table::below::Chains;
use std::alloc::Global;

impl VersionSegment {
    /// Gives a segment without rows these rows and fence keys. Takes no memory, and gives that of spare records back.
    pub fn settle(&mut self, alloc: Global, low: Key, high: Key, rows: &[Row])
        requires empty { self.old.rows ≡ [] }
        requires few { length rows.now ≤ SEGMENT_ROWS }
        requires fences { is_below high low ≡ false }
        requires sorted { AreSorted rows.now }
        requires within { AreWithin low high rows.now }
        ensures low { self.new.low ≡ low }
        ensures high { self.new.high ≡ high }
        ensures rows { self.new.rows ≡ settled_rows rows.now }
    {
        self.rows.settle(alloc, low, high, rows);
        self.chains = Chains::new(alloc);
    }
}
