//! An engine that tells what its store holds.
//!
//! What is timed is a function over this trait, whose contracts are small. A proof that holds the store itself across
//! calls that may end early takes many times as long.

use graph_model::LoadEngine;
use teseo_core::Core;
use txn_manager::Totals;

/// An engine that tells what its store holds.
pub trait BenchEngine: LoadEngine {
    fn totals(&self) -> Totals;

    fn leaves_in_use(&self) -> u32;
}

impl BenchEngine for Core {
    fn totals(&self) -> Totals {
        Core::totals(self)
    }

    fn leaves_in_use(&self) -> u32 {
        Core::leaves_in_use(self)
    }
}
