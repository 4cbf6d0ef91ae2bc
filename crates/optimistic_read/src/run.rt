//! The loads by which a run of rows is read in a block that nobody has to hold.
//!
//! 1. Rows go straight into the caller's buffer, and none is copied; where the read turns out to be torn the caller
//!    lets them go.
//! 2. It ends for sure, whatever is loaded: more than 32 rows are never taken.

ghost use Rattle.std.specs.Prelude.{◌≡◌, ◌≤◌, ◌<◌, ◌&&◌, not, true};
ghost use Rattle.graph_model.specs.Rows.{is_below, is_between};
ghost use Rattle.optimistic_read.specs.Reads.{CanLoad, IsHead, IsReadingOn, IsSearched, StillReads, begun_read};
ghost use Rattle.optimistic_read.specs.Runs.{IsRunLoaded};

use crate::block::{BlockRead, load_head, load_row, search};
use crate::decode::{Head, LoadedRun, Stop};
use graph_model::{Key, Row, Rows64};
use pass_steps::below::{Account, Accounts, is_marked};

/// Loads the head of a block, and where its fence keys hold the first key, the rows from this key on and before another
/// that have no marked word before them, after those of the buffer and as far as it has room: 5 words, two for each
/// row that the search looks at, and three for each row of the run and for the one after it.
pub fn load_run(
    accounts: &Accounts,
    seat: &mut Account,
    read: BlockRead,
    from: Key,
    until: Key,
    rows: &mut Rows64,
) -> LoadedRun
    requires load { CanLoad accounts.now.config accounts.now.table.shared.table_id seat.old read }
    requires begun { seat.old.me.0.reads.reading ≡ begun_read read.block.cell read.first }
    ensures still { StillReads seat.old seat.new }
    ensures known { IsReadingOn read.block.cell read.first seat.new.me.0
        (IsRunLoaded result from until rows.old rows.new) }
{
    let head = load_head(accounts, seat, read);
    if !head.holds(from) {
        // May be half of a change. Then the read is given up, as it would be with more loads.
        return LoadedRun {
            head,
            stop: Stop::Ended,
        };
    }
    let stop = load_rows(accounts, seat, read, head, from, until, rows);
    LoadedRun { head, stop }
}

/// Loads the rows, where the fence keys hold the first key.
fn load_rows(
    accounts: &Accounts,
    seat: &mut Account,
    read: BlockRead,
    head: Head,
    from: Key,
    until: Key,
    rows: &mut Rows64,
) -> Stop
    requires load { CanLoad accounts.now.config accounts.now.table.shared.table_id seat.old read }
    requires few { head.count ≤ 32 }
    requires holds { is_between head.low head.high from ≡ true }
    requires reading { IsReadingOn read.block.cell read.first seat.old.me.0 (IsHead head) }
    ensures still { StillReads seat.old seat.new }
    ensures known { IsReadingOn read.block.cell read.first seat.new.me.0
        (IsRunLoaded (record { head = head; stop = result }) from until rows.old rows.new) }
{
    let mut place = first_place(accounts, seat, read, head, from);
    let mut room = 64 - rows.len();
    let inside = is_not_behind(head.high, until);
    'rows: while place < head.count {
        // May be of a row that has moved on, or half of one. It ends the run too early then, or too late, and nobody
        // takes a row out of the buffer before the second load.
        let row = load_row(accounts, seat, read, place);
        if is_beyond(row.key, inside, until) {
            return Stop::Ended;
        }
        if room == 0 {
            return Stop::Full { key: row.key };
        }
        if is_marked(row.weight) {
            return Stop::Marked { key: row.key };
        }
        rows.push(row);
        room -= 1;
        place += 1;
    }
    Stop::Ended
}

/// How many rows are below a key that the fence keys hold. At the low one it is none, as whoever goes on from cell to
/// cell has it.
fn first_place(
    accounts: &Accounts,
    seat: &mut Account,
    read: BlockRead,
    head: Head,
    from: Key,
) -> u32
    requires load { CanLoad accounts.now.config accounts.now.table.shared.table_id seat.old read }
    requires few { head.count ≤ 32 }
    requires reading { IsReadingOn read.block.cell read.first seat.old.me.0 (IsHead head) }
    ensures still { StillReads seat.old seat.new }
    ensures within { result ≤ head.count }
    ensures searched { IsReadingOn read.block.cell read.first seat.new.me.0 (IsSearched head from result) }
{
    if head.low.is_below(from) {
        search(accounts, seat, read, head, from)
    } else {
        0
    }
}

/// Whether the cell ends where the range does, or before.
fn is_not_behind(high: Key, until: Key) -> bool
    ensures { result ≡ not (is_below until high) }
{
    !until.is_below(high)
}

/// Whether a row stands after the range, where it isn't known that all rows of the block stand before its end.
fn is_beyond(key: Key, inside: bool, until: Key) -> bool
    ensures { result ≡ (not inside && not (is_below key until)) }
{
    !inside && !key.is_below(until)
}
