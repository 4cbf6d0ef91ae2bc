//! One try of a reader to read a run of rows without a latch.
//!
//! 1. The loads are those of a pass. Only what the second load of the version word tells is of another view: that of
//!    the transaction when its account was lent.

ghost use Rattle.std.specs.Prelude.{◌≡◌, ◌<◌, true, [], ◌∷◌};
ghost use Rattle.graph_model.specs.History.{view};
ghost use Rattle.graph_model.specs.Rows.{is_below};
ghost use Rattle.pass_steps.specs.RuleModel.Sight.{cells_of};
ghost use Rattle.pass_steps.specs.StoreRelation.Readers.{ReaderState};
ghost use Rattle.pass_steps.specs.StoreWords.Reads.{HasReader};
ghost use Rattle.optimistic_read.specs.Runs.{IsReaderRun, IsRun};
ghost use Rattle.optimistic_read.specs.Tried.{SeatReads};

use crate::block::BlockRead;
use crate::decode::decode_run;
use crate::run::load_run;
use crate::tried::{CellRoute, TriedRun};
use graph_model::{Key, Rows64};
use pass_steps::below::{Account, Accounts, Block, Store};

/// Tries to read a run as `try_run` does, by a seat that reads by the account of a pass: the rows are those that the
/// pass's transaction saw when the account was lent. It makes loads alone, takes no latch and no memory, and waits for
/// nobody.
pub fn try_reader_run(
    store: &Store,
    seat: &mut Account,
    route: &CellRoute,
    from: Key,
    until: Key,
    rows: &mut Rows64,
) -> TriedRun
    requires table { seat.old.table_id ≡ store.now.accounts.table.shared.table_id }
    requires cell { route.now.cell < cells_of store.now.accounts.config }
    requires reader { HasReader seat.old.me.0 }
    requires ahead { is_below from until ≡ true }
    ensures reads { SeatReads seat.old seat.new }
    ensures tried { (x : ReaderState) → seat.old.me.0.readers ≡ x ∷ []
        → IsReaderRun store.now.accounts.config x seat.old.me.0 seat.new.me.0 route.now.cell from until rows.old
        rows.new result }
    ensures run { (x : ReaderState) → seat.old.me.0.readers ≡ x ∷ []
        → IsRun result (view store.now.accounts.config.kind x.seen x.start x.own) from until rows.old rows.new }
{
    read_block_run(&store.accounts, seat, route.cell, from, until, rows)
}

/// The same by the number of the cell.
fn read_block_run(
    accounts: &Accounts,
    seat: &mut Account,
    cell: u32,
    from: Key,
    until: Key,
    rows: &mut Rows64,
) -> TriedRun
    requires table { seat.old.table_id ≡ accounts.now.table.shared.table_id }
    requires cell { cell < cells_of accounts.now.config }
    requires reader { HasReader seat.old.me.0 }
    ensures reads { SeatReads seat.old seat.new }
    ensures tried { (x : ReaderState) → seat.old.me.0.readers ≡ x ∷ []
        → IsReaderRun accounts.now.config x seat.old.me.0 seat.new.me.0 cell from until rows.old rows.new result }
{
    let first = accounts.first_load(seat, cell);
    if first % 2 == 1 {
        return TriedRun::Busy {
            cell,
            first,
            second: first,
        };
    }
    let begin = accounts.block_begin(cell);
    let block = Block { cell, begin };
    let read = BlockRead { block, first };
    let loaded = load_run(accounts, seat, read, from, until, rows);
    let second = accounts.reader_second_load(seat, cell);
    if second != first {
        return TriedRun::Busy {
            cell,
            first,
            second,
        };
    }
    decode_run(seat, cell, loaded, from, until)
}
