//! A packed cell in hand is stamped or settled.
//!
//! 1. Its version word becomes odd first, and even again at the end, so that nobody reads words of it meanwhile.
//! 2. A load of the clock makes the pass's view know that its rows are stamped, and where it is settled one more that
//!    they are pruned. The rows themselves are not loaded: what is kept of them is stamped in its place, or tells that
//!    nothing but their newest values is left.
//! 3. A stamp changes no word, so the cell has its old version again. Of a settled cell only the words with a mark are
//!    stored.

ghost use Rattle.std.specs.Prelude.{◌≡◌, ◌∷◌, ◌<◌, ◌≤◌, ◌==◌, [], true, false, length};
ghost use Rattle.epoch_reclaim.specs.Pinned.{horizon_of};
ghost use Rattle.epoch_reclaim.specs.declared.sweep.Sweep.{Sweep};
ghost use Rattle.graph_model.specs.declared.row.Key.{Key};
ghost use Rattle.pass_sweeps.specs.VersionSegment.Rows.{VersionedRows};
ghost use Rattle.pass_sweeps.specs.CellsModel.Cells.{CellState, last_word, packed, unpacked, version_word};
ghost use Rattle.pass_sweeps.specs.CellsModel.Indexed.{covers};
ghost use Rattle.pass_sweeps.specs.CellsModel.Words.{Spells};
ghost use Rattle.pass_sweeps.specs.RuleModel.Sight.{HasCell, cells_of, with_cell, with_cells, with_rows};
ghost use Rattle.pass_sweeps.specs.StoreRule.Passes.{OnlyAccount};
ghost use Rattle.pass_sweeps.specs.StoreRule.Slots.{RestsAs};
ghost use Rattle.pass_sweeps.specs.PassSteps.Passes.{IsSamePass, pin_of, state_of};
ghost use Rattle.pass_sweeps.specs.Pruning.{HasCellOnly, cell_in, news_of};
ghost use Rattle.pass_sweeps.specs.SweepLaws.{CanPruneSeen};
ghost use Rattle.pass_settles.specs.Marks.{HasValues, IsHalfSettled};
ghost use Rattle.pass_sweeps.specs.VersionSegment.Resting.{CanSettle};
ghost use Rattle.pass_settles.specs.Settled.{ClearsMarks, IsPackedWith, IsSettling, IsStamping, MayStampCell, stamped_between, stamped_in};
ghost use Rattle.pass_sweeps.specs.VersionSegment.Settling.{settled_segment, stamped_segment};

use crate::marks::clear_marks;
use epoch_reclaim::Sweep;
use graph_model::TxnName;
use latch_table::Held;
use pass_sweeps::below::{Change, Pass, Resting, Store};

/// Settles a cell in hand, which has the key, and all of whose rows may settle. Takes no memory.
pub(crate) fn settle_cell(
    store: &Store,
    pass: &mut Pass,
    sweep: &Sweep,
    by: TxnName,
    stamp: u64,
    held: Held<Resting>,
) -> Held<Resting>
    requires taken { (c : CellState) × IsPackedWith store.now pass.old (state_of pass.old) (pin_of pass.old) held.cell
        held.value c × (Spells c.block c.segment → (q : Key) × (covers c.segment q ≡ true)) }
    requires settling { IsSettling store.now pass.old sweep.now by stamp }
    requires within { stamp ≤ horizon_of sweep.now }
    requires settles { CanSettle by (horizon_of sweep.now) held.value.rows }
    ensures held { result.cell ≡ held.cell }
    ensures settled { (c : CellState) → HasCell pass.old.account.me.0 held.cell c → Spells c.block c.segment
        × (d : CellState) × IsPackedWith store.now pass.new
        (stamped_between c.segment.low c.segment.high (state_of pass.old)) (pin_of pass.old) held.cell result.value d }
    ensures same { IsSamePass pass.old pass.new }
{
    let Held {
        cell,
        found,
        changed: _,
        value,
    } = held;
    raise_cell(store, pass, cell);
    know_stamped(store, pass, cell, by, stamp);
    // Only now: a row settles once its newest record has a stamp.
    know_settled(store, pass, cell);
    clear_cell(store, pass, cell, &value);
    // Two higher: a read that began before finds that words have changed.
    lower_cell(store, pass, cell, true);
    Held {
        cell,
        found,
        changed: true,
        value: value.settle(),
    }
}

/// Stamps a cell in hand, which has the key. Takes no memory.
pub(crate) fn stamp_cell(
    store: &Store,
    pass: &mut Pass,
    by: TxnName,
    stamp: u64,
    held: Held<Resting>,
) -> Held<Resting>
    requires taken { (c : CellState) × IsPackedWith store.now pass.old (state_of pass.old) (pin_of pass.old) held.cell
        held.value c × (Spells c.block c.segment → (q : Key) × (covers c.segment q ≡ true)) }
    requires stamping { IsStamping pass.old by stamp }
    ensures held { result.cell ≡ held.cell }
    ensures stamped { (c : CellState) → HasCell pass.old.account.me.0 held.cell c → Spells c.block c.segment
        × (d : CellState) × IsPackedWith store.now pass.new
        (stamped_between c.segment.low c.segment.high (state_of pass.old)) (pin_of pass.old) held.cell result.value d }
    ensures same { IsSamePass pass.old pass.new }
{
    let Held {
        cell,
        found,
        changed: _,
        value,
    } = held;
    let mut value = value;
    let is_last = raise_cell(store, pass, cell);
    know_stamped(store, pass, cell, by, stamp);
    // The old number: a stamp stands in what is kept of the rows, and in no word, so a read that began before is right.
    lower_cell(store, pass, cell, is_last);
    value.stamp(by, stamp);
    Held {
        cell,
        found,
        changed: true,
        value,
    }
}

/// Makes the version word odd, and answers whether it is the last one, which stays for good.
pub fn raise_cell(store: &Store, pass: &mut Pass, cell: u32) -> bool
    requires table { pass.old.account.table_id ≡ store.now.accounts.table.shared.table_id }
    requires cell { cell < cells_of store.now.accounts.config }
    requires held { (c : CellState) × HasCell pass.old.account.me.0 cell c × (c.unpacked ≡ false) }
    ensures raised { (c : CellState) → HasCell pass.old.account.me.0 cell c
        → OnlyAccount pass.old pass.new (with_cell pass.old.account.me.0 cell (unpacked c)) }
    ensures told { (c : CellState) → HasCell pass.old.account.me.0 cell c → Spells c.block c.segment }
    ensures last { (c : CellState) → HasCell pass.old.account.me.0 cell c → result ≡ (version_word c == last_word) }
{
    let found = store.accounts.holder_load(&mut pass.account, cell, 0);
    store.accounts.raise(&mut pass.account, cell);
    found == u64::MAX
}

/// And even again: two higher than it was, where a word was stored.
pub fn lower_cell(store: &Store, pass: &mut Pass, cell: u32, changed: bool)
    requires table { pass.old.account.table_id ≡ store.now.accounts.table.shared.table_id }
    requires cell { cell < cells_of store.now.accounts.config }
    requires held { (c : CellState) × HasCell pass.old.account.me.0 cell c × (c.unpacked ≡ true)
        × (c.changed ≡ changed) × Spells c.block c.segment }
    ensures { (c : CellState) → HasCell pass.old.account.me.0 cell c
        → OnlyAccount pass.old pass.new (with_cell pass.old.account.me.0 cell (packed c)) }
{
    store.accounts.lower(&mut pass.account, cell, changed);
}

/// Takes the marks off its words.
pub(crate) fn clear_cell(store: &Store, pass: &mut Pass, cell: u32, resting: &Resting)
    requires table { pass.old.account.table_id ≡ store.now.accounts.table.shared.table_id }
    requires cell { cell < cells_of store.now.accounts.config }
    requires held { (c : CellState) × HasCell pass.old.account.me.0 cell c × (c.unpacked ≡ true) }
    ensures { (c : CellState) (s : VersionedRows) → HasCell pass.old.account.me.0 cell c → c.unpacked ≡ true
        → HasValues s → RestsAs s resting.now → IsHalfSettled s (length s.rows) c.block
        → ClearsMarks cell s c pass.old pass.new }
{
    clear_marks(&store.accounts, &mut pass.account, cell, resting);
}

/// Makes the pass's view know that the rows of a cell in hand are stamped.
fn know_stamped(store: &Store, pass: &mut Pass, cell: u32, by: TxnName, stamp: u64)
    requires table { pass.old.account.table_id ≡ store.now.accounts.table.shared.table_id }
    requires may { MayStampCell store.now.accounts.config pass.old.account.me.0 pass.old.number cell by stamp }
    ensures { OnlyAccount pass.old pass.new (with_rows pass.old.account.me.0 pass.old.number
        (stamped_in pass.old.account.me.0 pass.old.number cell)
        (news_of pass.old.account.me.0 cell
        (stamped_segment by stamp (cell_in pass.old.account.me.0 cell).segment))) }
{
    let planned = KnowsStamped {
        pass: pass.number,
        cell,
        by,
        stamp,
    };
    store.change(pass, &planned);
}

/// And that they are settled.
pub(crate) fn know_settled(store: &Store, pass: &mut Pass, cell: u32)
    requires table { pass.old.account.table_id ≡ store.now.accounts.table.shared.table_id }
    requires may { (sweep : Sweep) × CanPruneSeen store.now.accounts.config pass.old.account.me.0 pass.old.number
        (state_of pass.old) (pin_of pass.old) sweep (news_of pass.old.account.me.0 cell
        (settled_segment (cell_in pass.old.account.me.0 cell).segment)) }
    ensures { OnlyAccount pass.old pass.new (with_cells pass.old.account.me.0 (news_of pass.old.account.me.0 cell
        (settled_segment (cell_in pass.old.account.me.0 cell).segment))) }
{
    let planned = KnowsSettled { cell };
    store.change(pass, &planned);
}

/// A load of the clock by which a pass knows the stamps of a cell's rows.
#[derive(Drop)]
struct KnowsStamped {
    pass: u32,
    cell: u32,
    by: TxnName,
    stamp: u64,
}

impl Change for KnowsStamped {
    ghost use Rattle.pass_sweeps.specs.RuleModel.Sight.{with_rows};
    ghost use Rattle.pass_sweeps.specs.RuleModel.Steps.{Nothing};
    ghost use Rattle.pass_sweeps.specs.Pruning.{cell_in, news_of};
    ghost use Rattle.pass_settles.specs.Settled.{stamped_in};
    ghost use Rattle.pass_sweeps.specs.VersionSegment.Settling.{stamped_segment};

    ghost next = { λ c _ v. with_rows v c.pass (stamped_in v c.pass c.cell)
        (news_of v c.cell (stamped_segment c.by c.stamp (cell_in v c.cell).segment)) };

    ghost told = { λ _ n _. Nothing n };
}

/// One by which it knows that they are settled.
#[derive(Drop)]
struct KnowsSettled {
    cell: u32,
}

impl Change for KnowsSettled {
    ghost use Rattle.pass_sweeps.specs.RuleModel.Sight.{with_cells};
    ghost use Rattle.pass_sweeps.specs.RuleModel.Steps.{Nothing};
    ghost use Rattle.pass_sweeps.specs.Pruning.{cell_in, news_of};
    ghost use Rattle.pass_sweeps.specs.VersionSegment.Settling.{settled_segment};

    ghost next = { λ c _ v. with_cells v (news_of v c.cell (settled_segment (cell_in v c.cell).segment)) };

    ghost told = { λ _ n _. Nothing n };
}
