//! Cells that are unpacked, so that their contents may change, and packed again.
//!
//! 1. A packed cell's rows stand in the words of its block alone. To be unpacked it is lent room for them by the pass.
//! 2. Whoever packs a cell stores the words that differ. Records stand in no word, so contents may change and no word
//!    with them; then none is looked at.

ghost use Rattle.std.specs.Prelude.{◌≡◌, ◌<◌, ◌+◌, true, false, length};
ghost use Rattle.loaded_cells.specs.CellsModel.Cells.{CellState, unpacked};
ghost use Rattle.loaded_cells.specs.CellsModel.Words.{HasSmallWeights, block_words};
ghost use Rattle.loaded_cells.specs.RuleModel.Sight.{HasCell, cells_of, with_cell};
ghost use Rattle.store_rule.specs.Packing.{IsPackedCell, LendsBuffer};
ghost use Rattle.store_rule.specs.Slots.{RestsAs};
ghost use Rattle.store_rule.specs.declared.buffers.TheConstants.{MOST_UNPACKED};
ghost use Rattle.store_words.specs.Spelling.{IsUntouched};
ghost use Rattle.loaded_cells.specs.VersionSegment.Rows.{IsSameSegment};

use crate::store::{Pass, Store};
use latch_table::Held;
use loaded_cells::below::{Resting, VersionSegment};

impl Store {
    /// Unpacks a gathered cell. Its contents may change until it is packed, and nobody reads them without its latch.
    /// The pass lends room for its rows.
    pub fn unpack(&self, pass: &mut Pass, held: Held<Resting>) -> Held<VersionSegment>
        requires table { pass.old.account.table_id ≡ self.now.accounts.table.shared.table_id }
        requires cell { held.cell < cells_of self.now.accounts.config }
        requires packed { (c : CellState) × HasCell pass.old.account.me.0 held.cell c × (c.unpacked ≡ false)
            × RestsAs c.segment held.value }
        requires buffer { 0 < pass.old.buffers }
        ensures held { (result.cell ≡ held.cell) × (result.found ≡ held.found) × (result.changed ≡ held.changed) }
        ensures unpacked { (c : CellState) → HasCell pass.old.account.me.0 held.cell c
            → LendsBuffer pass.old pass.new (with_cell pass.old.account.me.0 held.cell (unpacked c)) }
        ensures untouched { (c : CellState) → HasCell pass.old.account.me.0 held.cell c
            → IsUntouched (unpacked c) }
        ensures segment { (c : CellState) → HasCell pass.old.account.me.0 held.cell c
            → IsSameSegment c.segment result.value }
        ensures buffers { pass.old.buffers ≡ pass.new.buffers + 1 }
    {
        let Held {
            cell,
            found,
            changed,
            value,
        } = held;
        let value = pass
            .buffers
            .wake(&self.accounts, &mut pass.account, cell, value);
        Held {
            cell,
            found,
            changed,
            value,
        }
    }

    /// Packs a cell: its block spells the contents that the pass knows. Where its words haven't changed the block
    /// spells them already, and is left as it is. The room for its rows is the pass's again.
    pub fn pack(
        &self,
        pass: &mut Pass,
        held: Held<VersionSegment>,
        words_changed: bool,
    ) -> Held<Resting>
        requires table { pass.old.account.table_id ≡ self.now.accounts.table.shared.table_id }
        requires cell { held.cell < cells_of self.now.accounts.config }
        requires unpacked { (c : CellState) × HasCell pass.old.account.me.0 held.cell c × (c.unpacked ≡ true)
            × (length c.block ≡ block_words) × IsSameSegment c.segment held.value }
        requires weights { HasSmallWeights held.value }
        requires untouched { words_changed ≡ false
            → (c : CellState) → HasCell pass.old.account.me.0 held.cell c → IsUntouched c }
        ensures held { (result.cell ≡ held.cell) × (result.found ≡ held.found) × (result.changed ≡ held.changed) }
        ensures packed { (c : CellState) → HasCell pass.old.account.me.0 held.cell c
            → IsPackedCell held.cell c pass.old pass.new result.value }
        ensures buffers { pass.old.buffers < MOST_UNPACKED → pass.new.buffers ≡ pass.old.buffers + 1 }
    {
        let Held {
            cell,
            found,
            changed,
            value,
        } = held;
        value.is_segment();
        // The rows go into the words, and the room that they had back to the pass. What no word says stays in the slot.
        let (value, words) = value.rest();
        let low = words.low();
        let high = words.high();
        let rows = words.rows();
        self.accounts
            .pack_words(&mut pass.account, cell, low, high, rows, words_changed);
        pass.buffers.take_back(words);
        Held {
            cell,
            found,
            changed,
            value,
        }
    }
}
