//! Rows that move to a neighbouring segment, with their versions.
//!
//! 1. The fence key between both is always the key of the right one's first row, or its high fence key.
//! 2. No call takes memory: there is room for what comes.

ghost use Rattle.std.specs.Prelude.{◌≡◌, ◌+◌, ◌-◌, ◌≤◌, take, drop, length};
ghost use Rattle.graph_model.specs.declared.limits.TheConstants.{SEGMENT_ROWS};
ghost use Rattle.row_table.specs.Rows.{all_records, SharesRows};

use crate::segment::VersionSegment;

impl VersionSegment {
    /// Moves the last rows, with their versions, to the front of the next segment.
    pub fn move_right(&mut self, right: &mut VersionSegment, rows: usize)
        requires neighbours { self.old.high ≡ right.old.low }
        requires rows { rows ≤ length self.old.rows }
        requires room { length right.old.rows + rows ≤ SEGMENT_ROWS }
        requires spare { all_records (drop (length self.old.rows - rows) self.old.rows) ≤ right.old.spare }
        ensures moved { SharesRows self.old right.old self.new right.new (length self.old.rows - rows) }
        ensures spare { self.old.spare ≤ self.new.spare }
        ensures used { right.old.spare ≤ right.new.spare
            + all_records (drop (length self.old.rows - rows) self.old.rows) }
    {
        let count = self.rows.segment().len() - rows;
        self.rows.give(&mut self.chains, &mut right.rows, &mut right.chains, count);
    }

    /// Moves the first rows of the next segment, with their versions, to the end of this one.
    pub fn move_left(&mut self, right: &mut VersionSegment, rows: usize)
        requires neighbours { self.old.high ≡ right.old.low }
        requires rows { rows ≤ length right.old.rows }
        requires room { length self.old.rows + rows ≤ SEGMENT_ROWS }
        requires spare { all_records (take rows right.old.rows) ≤ self.old.spare }
        ensures moved { SharesRows self.old right.old self.new right.new (length self.old.rows + rows) }
        ensures spare { right.old.spare ≤ right.new.spare }
        ensures used { self.old.spare ≤ self.new.spare + all_records (take rows right.old.rows) }
    {
        self.rows
            .take(&mut self.chains, &mut right.rows, &mut right.chains, rows);
    }
}
