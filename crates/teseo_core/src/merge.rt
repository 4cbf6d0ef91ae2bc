//! Rows of leaves with few rows are brought together while transactions run.
//!
//! Each key keeps what it has, so no transaction sees anything of it.

ghost use Rattle.std.specs.Prelude.{◌≡◌, ◌<◌};
ghost use Rattle.leaf_rows.specs.LeafStoreDeclared.pair.TheConstants.{STAMPS_END};
ghost use Rattle.teseo_core.specs.Freeing.{Merges, retire_stamp};

use crate::store::Core;
use graph_model::NoMemory;
use leaf_rows::STAMPS_END;

impl Core {
    /// Spreads a window that has a segment with fewer than 4 rows and enough rows in all, or makes one leaf of two
    /// neighbours with at most 104 rows together. Answers whether there was either.
    pub fn merge_step(&mut self) -> Result<bool, NoMemory>
        ensures { Merges self.old self.new result }
    {
        let stamp = self.retire_stamp();
        self.rows.merge_step(stamp)
    }

    /// The stamp of a leaf that is retired now.
    pub(crate) fn retire_stamp(&self) -> u64
        ensures stamp { result ≡ retire_stamp self.now.core }
        ensures small { result < STAMPS_END }
    {
        self.manager.clock().min(STAMPS_END - 1)
    }
}
