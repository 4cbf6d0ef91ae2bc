//! Retired leaves that no open transaction needs any more.
//!
//! 1. The bound is a stamp that no open transaction began below: whoever began later can't have seen the leaf.

ghost use Rattle.std.specs.Prelude.{◌≡◌, true, false};
ghost use Rattle.graph_model.specs.Rows.{is_below, end_key};
ghost use Rattle.leaf_rows.specs.LeafStore.Merging.{FreesRetired};
ghost use Rattle.leaf_rows.specs.Laying.{KeepsContents};
ghost use Rattle.teseo_core.specs.Freeing.{free_bound};

use graph_model::Key;
use leaf_rows::{LeafRows, STAMPS_END};
use txn_manager::TxnManager;

/// Retired leaves with a stamp below this one can be freed: no open transaction began so early, or none is open.
pub(crate) fn free_bound(manager: &TxnManager) -> u64
    ensures { result ≡ free_bound manager.now }
{
    manager.least_pin().unwrap_or(STAMPS_END)
}

/// After the last leaf, which ends there, frees the retired ones that can be.
pub(crate) fn free_behind(rows: &mut LeafRows, manager: &TxnManager, high: Key)
    ensures contents { KeepsContents rows.old rows.new }
    ensures before { is_below high end_key ≡ true → rows.new ≡ rows.old }
    ensures behind { is_below high end_key ≡ false → FreesRetired (free_bound manager.now) rows.old rows.new }
{
    if !high.is_below(Key::end()) {
        rows.free_retired(free_bound(manager));
    }
}
