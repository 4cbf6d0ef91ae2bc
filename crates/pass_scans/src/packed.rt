//! The words of a packed cell in hand.
//!
//! Its version word becomes odd first, and even again at the end, as it was. Only then it is known that the words are
//! those of its rows. Whoever reads it without its latch meanwhile tries again.

ghost use Rattle.std.specs.Prelude.{◌≡◌, ◌<◌};
ghost use Rattle.pass_sweeps.specs.CellsModel.Cells.{CellState};
ghost use Rattle.pass_sweeps.specs.CellsModel.Words.{Spells};
ghost use Rattle.pass_sweeps.specs.Pruning.{FindsWords};
ghost use Rattle.pass_sweeps.specs.RuleModel.Sight.{HasCell, cells_of};
ghost use Rattle.pass_sweeps.specs.StoreRule.Passes.{OnlyAccount};
ghost use Rattle.pass_sweeps.specs.StoreWords.Spelling.{CanSpell};
ghost use Rattle.pass_sweeps.specs.PassSteps.Passes.{pin_of, state_of};
ghost use Rattle.pass_scans.specs.Packed.{HasPacked};

use graph_model::Key;
use pass_cells::below::Rows32;
use pass_settles::{lower_cell, raise_cell};
use pass_sweeps::below::{Pass, Store};

/// Loads the rows of a packed cell in hand, each with its value word in place of a weight, and answers its fence keys.
pub(crate) fn load_packed(
    store: &Store,
    pass: &mut Pass,
    cell: u32,
    words: &mut Rows32,
) -> (Key, Key)
    requires { (c : CellState) × HasPacked store.now pass.old (state_of pass.old) (pin_of pass.old) cell c }
    ensures loaded { (c : CellState) → HasCell pass.old.account.me.0 cell c
        → (d : CellState) × HasPacked store.now pass.new (state_of pass.old) (pin_of pass.old) cell d
        × (d.segment ≡ c.segment) × CanSpell result.0 result.1 words.new d.segment }
    ensures found { FindsWords pass.old pass.new }
{
    let is_last = raise_cell(store, pass, cell);
    let fences = load_words(store, pass, cell, words);
    // No word was stored, so the old number comes back: a read that began before it was odd is still right.
    lower_cell(store, pass, cell, is_last);
    fences
}

/// Loads its words.
fn load_words(store: &Store, pass: &mut Pass, cell: u32, words: &mut Rows32) -> (Key, Key)
    requires table { pass.old.account.table_id ≡ store.now.accounts.table.shared.table_id }
    requires cell { cell < cells_of store.now.accounts.config }
    requires held { (c : CellState) × HasCell pass.old.account.me.0 cell c × Spells c.block c.segment }
    ensures same { OnlyAccount pass.old pass.new pass.old.account.me.0 }
    ensures loaded { (c : CellState) → HasCell pass.old.account.me.0 cell c
        → CanSpell result.0 result.1 words.new c.segment }
{
    store.accounts.load_rows(&mut pass.account, cell, words)
}
