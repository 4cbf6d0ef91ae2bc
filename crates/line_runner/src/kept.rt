//! The image of what a transaction sees, which is kept for its next kernels.
//!
//! 1. It is kept for as long as the transaction is open and writes nothing, so it is what a new scan would give.

ghost use Rattle.std.specs.Prelude.{◌≡◌, ◌+◌, ◌-◌, ◌/◌, ◌<◌, ◌^◌, min, length, nat_lt, true, IfOk};
ghost use Rattle.graph_model.specs.declared.limits.TheConstants.{SCAN_ROWS};
ghost use Rattle.graph_model.specs.declared.write.Kind.TheVariants.{Undirected};
ghost use Rattle.graph_model.specs.Graph.{Graph, IsBounded, IsSymmetric};
ghost use Rattle.graph_model.specs.Rows.{AreRowsOf};
ghost use Rattle.part_scan.specs.Parts.{rows_in};
ghost use Rattle.line_runner.specs.Kernels.{IsKeptImage};
ghost use Rattle.line_runner.specs.Scanning.{HasAllRows, too_many_turns};

use crate::scan::Scan;
use graph_image::{Image, PartBuilder};
use graph_model::{Kind, NoMemory, SCAN_ROWS};
use part_scan::{RowList, RowLists};
use std::alloc::Global;
use std::thread::Threads;

/// The image of a graph, and how many rows it was made of.
#[derive(Drop)]
pub struct KeptImage {
    pub image: Image,
    pub rows: u64,
}

impl KeptImage {
    /// The image of the graph whose rows the scan has kept, made by several threads. The rows go as it is made.
    pub fn of_scan<R: Threads + Sync>(rt: &R, kind: Kind, scan: Scan) -> Result<KeptImage, NoMemory>
        requires graph { (g : Graph) × HasAllRows g scan × (kind ≡ Undirected → IsSymmetric g) }
        ensures { IfOk result (λ kept. (g : Graph) → HasAllRows g scan → IsKeptImage g kept) }
    {
        // Taken down before the rows go: a later line on this image takes as many turns as their scan did.
        let rows = scan.rows;
        let image = scan.into_rows().finish(rt, kind)?;
        Ok(KeptImage { image, rows })
    }

    /// The image of the graph whose rows these lists have, one behind the other, made by several threads. The rows go
    /// as it is made.
    pub fn of_lists<R: Threads + Sync>(
        rt: &R,
        alloc: Global,
        kind: Kind,
        lists: RowLists,
    ) -> Result<KeptImage, NoMemory>
        requires graph { (g : Graph) × AreRowsOf (rows_in lists) g × IsBounded g × (kind ≡ Undirected → IsSymmetric g) }
        ensures { IfOk result (λ kept. (g : Graph) → AreRowsOf (rows_in lists) g → IsKeptImage g kept) }
    {
        let rows = count_rows(lists.as_slice());
        // A place of an image is a number of 32 bits.
        if rows > u32::MAX as u64 {
            return Err(NoMemory);
        }
        let image = PartBuilder::of_lists(alloc, lists).finish(rt, kind)?;
        Ok(KeptImage { image, rows })
    }

    /// Whether a line that has taken so many turns on it takes more than one yet. It takes as many as the scan of these
    /// rows took: what other scripts do meanwhile must not depend on whether an image was kept.
    pub(crate) fn has_turns_left(&self, turns: u64) -> bool
        ensures left { result ≡ nat_lt turns (self.now.rows / SCAN_ROWS) }
        ensures few { result ≡ true → turns + 1 < too_many_turns }
    {
        turns < self.rows / SCAN_ROWS as u64
    }
}

/// How many rows the lists have, up to the last number.
fn count_rows(lists: &[RowList]) -> u64
    ensures { result ≡ min (length (rows_in lists.now)) (2 ^ 64 - 1) }
{
    match lists {
        [] => 0,
        [list, rest @ ..] => (list.len() as u64).saturating_add(count_rows(rest)),
    }
}
