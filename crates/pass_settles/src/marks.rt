//! Words of a block whose rows are settled: the marks go, and the words stay that have none.
//!
//! 1. A mark tells reads without a latch that the row has records. A settled row has none, so what is left of its word
//!    is the value that each of them sees.
//! 2. The last row goes first: what is kept of a packed cell tells which changed row comes before another one.

ghost use Rattle.std.specs.Prelude.{◌≡◌, ◌<◌, ◌≤◌, ◌+◌, ℕ, true, length};
ghost use Rattle.pass_sweeps.specs.VersionSegment.Rows.{VersionedRows};
ghost use Rattle.pass_sweeps.specs.CellsModel.Cells.{CellState};
ghost use Rattle.pass_sweeps.specs.RuleModel.Sight.{HasCell, Sight, cells_of};
ghost use Rattle.pass_sweeps.specs.StoreWords.Spelling.{Stays};
ghost use Rattle.pass_sweeps.specs.StoreRule.Slots.{RestsAs};
ghost use Rattle.pass_settles.specs.Marks.{HasValues, IsClearing, IsHalfSettled};

use pass_sweeps::below::{Account, Accounts, Resting, value_in_word};

/// Takes the marks off the words of an unpacked cell's rows, which are what is left of these.
pub(crate) fn clear_marks(accounts: &Accounts, seat: &mut Account, cell: u32, resting: &Resting)
    requires table { seat.old.table_id ≡ accounts.now.table.shared.table_id }
    requires cell { cell < cells_of accounts.now.config }
    requires held { (c : CellState) × HasCell seat.old.me.0 cell c × (c.unpacked ≡ true) }
    ensures stays { Stays seat.old seat.new }
    ensures cleared { (c : CellState) (s : VersionedRows) → HasCell seat.old.me.0 cell c → c.unpacked ≡ true
        → HasValues s → RestsAs s resting.now → IsHalfSettled s (length s.rows) c.block
        → IsClearing cell s 0 seat.old.me.0 c seat.new.me.0 }
{
    resting.is_at_rest();
    let mut end = resting.len();
    // Also where no word has a mark: a version word rises by two only where a word was stored.
    store_count(accounts, seat, cell, end);
    'marks: while let Some(place) = resting.changed_before(end) {
        clear_mark(accounts, seat, cell, place as u32);
        end = place;
    }
}

/// Stores the number of rows once more, so that the version word tells of the change.
fn store_count(accounts: &Accounts, seat: &mut Account, cell: u32, count: usize)
    requires table { seat.old.table_id ≡ accounts.now.table.shared.table_id }
    requires cell { cell < cells_of accounts.now.config }
    requires held { (c : CellState) × HasCell seat.old.me.0 cell c × (c.unpacked ≡ true) }
    ensures stays { Stays seat.old seat.new }
    ensures held { (c : CellState) × HasCell seat.new.me.0 cell c × (c.unpacked ≡ true) }
    ensures counted { (c : CellState) (s : VersionedRows) (place : ℕ) → HasCell seat.old.me.0 cell c
        → c.unpacked ≡ true → count ≡ length s.rows → IsHalfSettled s place c.block
        → IsClearing cell s place seat.old.me.0 c seat.new.me.0 }
{
    accounts.store_word(seat, cell, 1, count as u64);
}

/// Takes the mark off the word of the row at a place, if it has one.
fn clear_mark(accounts: &Accounts, seat: &mut Account, cell: u32, place: u32)
    requires table { seat.old.table_id ≡ accounts.now.table.shared.table_id }
    requires cell { cell < cells_of accounts.now.config }
    requires place { place < 32 }
    requires held { (c : CellState) × HasCell seat.old.me.0 cell c × (c.unpacked ≡ true) }
    ensures stays { Stays seat.old seat.new }
    ensures held { (c : CellState) × HasCell seat.new.me.0 cell c × (c.unpacked ≡ true) }
    ensures cleared { (v : Sight) (c : CellState) (s : VersionedRows) → place < length s.rows → HasValues s
        → IsClearing cell s (place + 1) v c seat.old.me.0 → IsClearing cell s place v c seat.new.me.0 }
{
    let at = 8 + 3 * place;
    let word = accounts.holder_load(seat, cell, at);
    let plain = value_in_word(word).unwrap_or(word);
    // A word without a mark isn't stored anew, so its line stays in the caches of those who read it.
    if plain != word {
        accounts.store_word(seat, cell, at, plain);
    }
}
