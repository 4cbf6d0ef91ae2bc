//! Reads what later calls will read.
//!
//! A call that looks for a row waits for memory again and again: for the rows that it looks at first, for the changed
//! rows and their records. Whoever has several segments to look at reads these in all of them first, so that the reads
//! wait together. It changes nothing, and no clause speaks of it.

use crate::segment::VersionSegment;
use graph_model::Key;

impl VersionSegment {
    /// The sum of what is read first. Whoever keeps it keeps a compiler from leaving out the reads.
    pub fn sum_ahead(&self) -> u64 {
        self.rows
            .segment()
            .sum_ahead()
            .wrapping_add(self.sum_records_ahead())
    }

    /// The sum of what a look-up of the key reads behind that, and where a row comes of the rows that would have to
    /// move.
    pub fn sum_near(&self, key: Key, row_comes: bool) -> u64 {
        self.rows.segment().sum_near(key, row_comes)
    }

    /// The sum of what is read ahead of the changed rows alone.
    pub fn sum_records_ahead(&self) -> u64 {
        (self.rows.sum_ahead() as u64).wrapping_add(self.chains.sum_ahead())
    }
}
