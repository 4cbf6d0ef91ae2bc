//! One try to read a run of rows without a latch.
//!
//! 1. As for a key; the answer says where the run stopped, and why, by what the validated block spells.

ghost use Rattle.std.specs.Prelude.{◌≡◌, ◌<◌, ℕ, true};
ghost use Rattle.graph_model.specs.Rows.{is_below};
ghost use Rattle.pass_steps.specs.RuleModel.Sight.{HasPass, cells_of};
ghost use Rattle.pass_steps.specs.StoreRelation.Passes.{PassState};
ghost use Rattle.pass_steps.specs.StoreRelationDeclared.stage.Stage.TheVariants.{Open};
ghost use Rattle.pass_steps.specs.StoreWords.Reads.{HasOpenPass};
ghost use Rattle.pass_steps.specs.Passes.{state_of};
ghost use Rattle.optimistic_read.specs.Runs.{IsRun, IsTriedRun};
ghost use Rattle.optimistic_read.specs.Tried.{MayTry, OnlyReads, SeatReads, view_in};

use crate::block::BlockRead;
use crate::decode::decode_run;
use crate::run::load_run;
use crate::tried::{CellRoute, TriedRun};
use graph_model::{Key, Rows64};
use pass_steps::below::{Account, Accounts, Block, Pass, Store};

/// Tries to read the rows that the open transaction sees from one key on and before another, as far as the cell goes,
/// up to the first row that has undo records, and as many as the buffer has room for. They are put after those that
/// stand there. Where the answer is busy the buffer has anything after them, or instead of them. It makes loads alone,
/// takes no latch and no memory, and waits for nobody.
pub fn try_run(
    store: &Store,
    pass: &mut Pass,
    route: &CellRoute,
    from: Key,
    until: Key,
    rows: &mut Rows64,
) -> TriedRun
    requires may { MayTry store.now pass.old route.now.cell }
    requires ahead { is_below from until ≡ true }
    ensures reads { OnlyReads pass.old pass.new }
    ensures tried { IsTriedRun store.now.accounts.config pass.old.number (state_of pass.old)
        pass.old.account.me.0 pass.new.account.me.0 route.now.cell from until rows.old rows.new result }
    ensures run { IsRun result (view_in store.now pass.old) from until rows.old rows.new }
{
    try_block_run(
        &store.accounts,
        &mut pass.account,
        route.cell,
        from,
        until,
        rows,
    )
}

/// The same by the seat of a pass with an open transaction.
fn try_block_run(
    accounts: &Accounts,
    seat: &mut Account,
    cell: u32,
    from: Key,
    until: Key,
    rows: &mut Rows64,
) -> TriedRun
    requires table { seat.old.table_id ≡ accounts.now.table.shared.table_id }
    requires cell { cell < cells_of accounts.now.config }
    requires pass { HasOpenPass seat.old.me.0 }
    ensures reads { SeatReads seat.old seat.new }
    ensures tried { (p : ℕ) (st : PassState) → HasPass seat.old.me.0 p st → st.stage ≡ Open
        → IsTriedRun accounts.now.config p st seat.old.me.0 seat.new.me.0 cell from until rows.old
        rows.new result }
{
    let first = accounts.first_load(seat, cell);
    // As for a key.
    if first % 2 == 1 {
        return TriedRun::Busy {
            cell,
            first,
            second: first,
        };
    }
    let begin = accounts.block_begin(cell);
    let block = Block { cell, begin };
    let read = BlockRead { block, first };
    let loaded = load_run(accounts, seat, read, from, until, rows);
    let second = accounts.second_load(seat, cell);
    if second != first {
        return TriedRun::Busy {
            cell,
            first,
            second,
        };
    }
    decode_run(seat, cell, loaded, from, until)
}
