//! Memory for the rows of unpacked cells.
//!
//! 1. A packed cell has no such memory: its rows stand in the words of its block.
//! 2. A pass has it for so many cells, and lends it to a cell that it unpacks. So no cell takes memory to be unpacked.

ghost use Rattle.std.specs.Prelude.{◌≡◌, ◌<◌, ◌≤◌, ◌+◌, [], false, length, vec_capacity, IfOk};
ghost use Rattle.loaded_cells.specs.CellsModel.Cells.{CellState, unpacked};
ghost use Rattle.loaded_cells.specs.RuleModel.Sight.{HasCell, cells_of, with_cell};
ghost use Rattle.store_rule.specs.Buffers.{AreVacant};
ghost use Rattle.store_rule.specs.Slots.{RestsAs};
ghost use Rattle.store_rule.specs.declared.buffers.TheConstants.{MOST_UNPACKED};
ghost use Rattle.store_words.specs.Spelling.{IsUntouched};
ghost use Rattle.store_words.specs.Steps.{Knows};
ghost use Rattle.loaded_cells.specs.VersionSegment.Rows.{IsSameSegment};

use gap_segment::Segment;
use graph_model::{Key, NoMemory};
use loaded_cells::below::{Resting, Rows32, VersionSegment};
use std::alloc::Global;
use std::marker::Model;
use store_words::{Account, Accounts};

/// A pass has at most so many cells unpacked: a merge moves the rows of two leaves.
pub const MOST_UNPACKED: usize = 16;

/// Room for the rows of cells that a pass has yet to unpack. Contracts see for how many.
#[derive(Drop)]
pub struct Buffers {
    /// Each for the rows of one cell.
    pub(crate) free: Vec<Segment>,
    /// Between a block and a segment.
    pub(crate) rows: Rows32,
}

impl Model for Buffers {
    ghost use Rattle.std.specs.Prelude.{ℕ, ◌≤◌, length};
    ghost use Rattle.std.specs.Vec.{vec_capacity};
    ghost use Rattle.store_rule.specs.Buffers.{AreVacant};

    ghost Value = { ℕ };

    ghost view = { λ b. length b.free.items };

    ghost invariant = { λ b. AreVacant b.free.items × (16 ≤ vec_capacity b.free) };
}

impl Buffers {
    pub(crate) fn new(alloc: Global) -> Result<Buffers, NoMemory>
        ensures { IfOk result (λ buffers. buffers ≡ MOST_UNPACKED) }
    {
        let mut free = Vec::with_capacity(alloc, MOST_UNPACKED)?;
        'rooms: for _room in 0..MOST_UNPACKED {
            // All room that a pass ever unpacks cells into is made here, so to unpack takes no memory.
            let room = Segment::new(alloc, Key::END, Key::END)?;
            free.push(room)?;
        }
        Ok(Buffers {
            free,
            rows: Rows32::new(),
        })
    }

    /// Unpacks a cell in room that is lent to it.
    pub(crate) fn wake(
        &mut self,
        accounts: &Accounts,
        account: &mut Account,
        cell: u32,
        resting: Resting,
    ) -> VersionSegment
        requires table { account.old.table_id ≡ accounts.now.table.shared.table_id }
        requires cell { cell < cells_of accounts.now.config }
        requires packed { (c : CellState) × HasCell account.old.me.0 cell c × (c.unpacked ≡ false)
            × RestsAs c.segment resting }
        requires buffer { 0 < self.old }
        ensures lent { self.old ≡ self.new + 1 }
        ensures unpacked { (c : CellState) → HasCell account.old.me.0 cell c
            → Knows account.old account.new (with_cell account.old.me.0 cell (unpacked c)) }
        ensures untouched { (c : CellState) → HasCell account.old.me.0 cell c → IsUntouched (unpacked c) }
        ensures segment { (c : CellState) → HasCell account.old.me.0 cell c
            → IsSameSegment c.segment result }
    {
        let room = pop_room(&mut self.free);
        wake_cell(accounts, account, cell, resting, &mut self.rows, room)
    }

    /// Takes the room of a cell that is packed again.
    pub(crate) fn take_back(&mut self, room: Segment)
        ensures { self.old < MOST_UNPACKED → self.new ≡ self.old + 1 }
    {
        let mut room = room;
        room.clear();
        push_room(&mut self.free, room);
    }
}

/// The last room of a list.
fn pop_room(free: &mut Vec<Segment>) -> Segment
    requires some { 0 < length free.old.items }
    requires vacant { AreVacant free.old.items }
    ensures room { result.rows ≡ [] }
    ensures vacant { AreVacant free.new.items }
    ensures count { length free.old.items ≡ length free.new.items + 1 }
    ensures capacity { vec_capacity free.new ≡ vec_capacity free.old }
{
    match free.pop() {
        Some(room) => room,
        None => unreachable!(),
    }
}

/// Puts a room at the end of a list that has its memory. One too many is let go.
fn push_room(free: &mut Vec<Segment>, room: Segment)
    requires room { room.rows ≡ [] }
    requires vacant { AreVacant free.old.items }
    requires capacity { MOST_UNPACKED ≤ vec_capacity free.old }
    ensures vacant { AreVacant free.new.items }
    ensures count { length free.old.items < MOST_UNPACKED → length free.new.items ≡ length free.old.items + 1 }
    ensures capacity { MOST_UNPACKED ≤ vec_capacity free.new }
{
    if free.len() >= MOST_UNPACKED {
        return;
    }
    match free.push(room) {
        Ok(()) => {}
        Err(_) => unreachable!(),
    }
}

/// Unpacks a cell: its version word becomes odd, and its segment wakes in this room with the rows of its block.
pub(crate) fn wake_cell(
    accounts: &Accounts,
    account: &mut Account,
    cell: u32,
    resting: Resting,
    rows: &mut Rows32,
    room: Segment,
) -> VersionSegment
    requires table { account.old.table_id ≡ accounts.now.table.shared.table_id }
    requires cell { cell < cells_of accounts.now.config }
    requires packed { (c : CellState) × HasCell account.old.me.0 cell c × (c.unpacked ≡ false)
        × RestsAs c.segment resting }
    requires room { room.rows ≡ [] }
    ensures unpacked { (c : CellState) → HasCell account.old.me.0 cell c
        → Knows account.old account.new (with_cell account.old.me.0 cell (unpacked c)) }
    ensures untouched { (c : CellState) → HasCell account.old.me.0 cell c → IsUntouched (unpacked c) }
    ensures segment { (c : CellState) → HasCell account.old.me.0 cell c → IsSameSegment c.segment result }
{
    accounts.raise(account, cell);
    let (low, high) = accounts.load_rows(account, cell, rows);
    VersionSegment::wake(resting, low, high, rows.as_slice(), room)
}
