//! Rows laid all at once, and taken away all at once.
//!
//! 1. They are copied as one block, with no search.

ghost use Rattle.std.specs.Prelude.{◌≡◌, ◌≤◌, false, [], length};
ghost use Rattle.graph_model.specs.Rows.{is_below};
ghost use Rattle.graph_model.specs.declared.limits.TheConstants.{SEGMENT_ROWS};
ghost use Rattle.gap_segment.specs.Fenced.{AreSorted, AreWithin};

use crate::segment::{Segment, copy_rows};
use graph_model::{Key, Row};

impl Segment {
    /// Gives a segment without rows these rows and fence keys. Takes no memory.
    pub fn fill(&mut self, low: Key, high: Key, rows: &[Row])
        requires empty { self.old.rows ≡ [] }
        requires few { length rows.now ≤ SEGMENT_ROWS }
        requires fences { is_below high low ≡ false }
        requires sorted { AreSorted rows.now }
        requires within { AreWithin low high rows.now }
        ensures { self.new ≡ record { low = low; high = high; rows = rows.now } }
    {
        copy_rows(&mut self.rows, rows);
        self.low = low;
        self.high = high;
    }

    /// Takes all rows away. Their memory stays.
    pub fn clear(&mut self)
        ensures { self.new ≡ record self.old { rows = [] } }
    {
        self.rows.clear();
    }
}
