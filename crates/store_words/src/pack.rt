//! Blocks that are made to spell a cell's contents again.
//!
//! 1. Words first and the even version last, so that whoever finds it finds them.

ghost use Rattle.std.specs.Prelude.{◌≡◌, ◌<◌, ◌≤◌, true, false, length};
ghost use Rattle.rule_model.specs.CellsModel.Cells.{CellState};
ghost use Rattle.rule_model.specs.CellsModel.Words.{block_words};
ghost use Rattle.rule_model.specs.Sight.{HasCell, cells_of};
ghost use Rattle.store_words.specs.Spelling.{CanSpell, IsPackedAgain, IsUntouched, Stays};

use crate::accounts::Accounts;
use crate::rule::Account;
use graph_model::{Key, Row};

impl Accounts {
    /// Packs a cell with these fence keys and rows. Where it isn't changed its block stays as it is.
    pub fn pack_words(
        &self,
        seat: &mut Account,
        cell: u32,
        low: Key,
        high: Key,
        rows: &[Row],
        changed: bool,
    )
        requires table { seat.old.table_id ≡ self.now.table.shared.table_id }
        requires cell { cell < cells_of self.now.config }
        requires rows { length rows.now ≤ 32 }
        requires held { (c : CellState) × HasCell seat.old.me.0 cell c × (c.unpacked ≡ true)
            × (length c.block ≡ block_words) }
        requires words { (c : CellState) → HasCell seat.old.me.0 cell c → CanSpell low high rows.now c.segment }
        requires untouched { changed ≡ false → (c : CellState) → HasCell seat.old.me.0 cell c → IsUntouched c }
        ensures stays { Stays seat.old seat.new }
        ensures packed { (c : CellState) → HasCell seat.old.me.0 cell c
            → IsPackedAgain cell seat.old.me.0 c seat.new.me.0 }
    {
        // A version word at its end stays there, whether or not a word was stored since it came there. So such a
        // block is stored in any case.
        let found = self.holder_load(seat, cell, 0);
        if changed || found == u64::MAX {
            self.spell(seat, cell, low, high, rows);
            self.lower(seat, cell, true);
        } else {
            self.lower(seat, cell, false);
        }
    }
}
