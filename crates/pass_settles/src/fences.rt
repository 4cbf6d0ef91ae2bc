//! Fence keys of cells, as the words of their blocks tell them.
//!
//! 1. Four loads tell whether a cell is the key's, where unpacking it would load all its words.

ghost use Rattle.std.specs.Prelude.{◌≡◌, ◌<◌, ◌+◌, false, slice_index};
ghost use Rattle.graph_model.specs.declared.row.Key.{Key};
ghost use Rattle.graph_model.specs.Rows.{is_between};
ghost use Rattle.pass_sweeps.specs.CellsModel.Cells.{CellState};
ghost use Rattle.pass_sweeps.specs.CellsModel.Words.{Spells, block_words};
ghost use Rattle.pass_sweeps.specs.RuleModel.Sight.{HasCell, cells_of};
ghost use Rattle.pass_sweeps.specs.StoreRule.Passes.{OnlyAccount};
ghost use Rattle.pass_settles.specs.Settled.{AreFencesOf};

use graph_model::Key;
use pass_sweeps::below::{Pass, Store};

/// The fence keys of a cell: a row may have the low one, and none has the high one.
#[derive(Clone, Copy, Debug, PartialEq, Eq)]
pub struct Fences {
    pub low: Key,
    pub high: Key,
}

impl Fences {
    /// Those between which no key stands.
    pub(crate) fn empty() -> Fences
        ensures { (q : Key) → is_between result.low result.high q ≡ false }
    {
        Fences {
            low: Key::END,
            high: Key::END,
        }
    }

    /// Whether a key stands between them.
    pub(crate) fn holds(&self, key: Key) -> bool
        ensures { result ≡ is_between self.now.low self.now.high key }
    {
        !key.is_below(self.low) && key.is_below(self.high)
    }
}

/// Loads the fence keys of a cell in hand. They are those of its contents where its block spells these.
pub(crate) fn load_fences(store: &Store, pass: &mut Pass, cell: u32) -> Fences
    requires table { pass.old.account.table_id ≡ store.now.accounts.table.shared.table_id }
    requires cell { cell < cells_of store.now.accounts.config }
    requires held { (c : CellState) × HasCell pass.old.account.me.0 cell c }
    ensures same { OnlyAccount pass.old pass.new pass.old.account.me.0 }
    ensures told { (c : CellState) → HasCell pass.old.account.me.0 cell c → Spells c.block c.segment
        → AreFencesOf c.segment result }
{
    let low = load_key(store, pass, cell, 2);
    let high = load_key(store, pass, cell, 4);
    Fences { low, high }
}

/// Loads a key, whose second word follows its first one.
fn load_key(store: &Store, pass: &mut Pass, cell: u32, word: u32) -> Key
    requires table { pass.old.account.table_id ≡ store.now.accounts.table.shared.table_id }
    requires cell { cell < cells_of store.now.accounts.config }
    requires word { word + 1 < block_words }
    requires held { (c : CellState) × HasCell pass.old.account.me.0 cell c }
    ensures same { OnlyAccount pass.old pass.new pass.old.account.me.0 }
    ensures told { (c : CellState) → HasCell pass.old.account.me.0 cell c
        → (result.src ≡ slice_index c.block word) × (result.second ≡ slice_index c.block (word + 1)) }
{
    let src = store.accounts.holder_load(&mut pass.account, cell, word);
    let second = store
        .accounts
        .holder_load(&mut pass.account, cell, word + 1);
    Key { src, second }
}
