//! The cells of a store that is closed.
//!
//! 1. Their rows stand in words, as they did. So the end of a store takes no memory, and rows may be read there.
//! 2. Each wakes as it is taken out, in room that is taken for it then.

ghost use Rattle.std.specs.Prelude.{◌≡◌, ◌<◌, ◌==◌, ◌∷◌, ◌++◌, [], length, slice_get, IfOk, OnErr, Some};
ghost use Rattle.loaded_cells.specs.RuleModel.Sight.{cells_of};
ghost use Rattle.store_rule.specs.Closed.{AreAtRest, AreSpelled, IsPopped, known_segments};
ghost use Rattle.store_words.specs.Spelling.{CanSpell};
ghost use Rattle.loaded_cells.specs.VersionSegment.Rows.{VersionedRows};

use crate::buffers::wake_cell;
use gap_segment::Segment;
use graph_model::{Key, NoMemory};
use loaded_cells::below::{Resting, Rows32, VersionSegment};
use std::alloc::Global;
use std::marker::Model;
use store_words::{Account, Accounts};

/// The cells of a closed store, in the order of their numbers.
#[derive(Drop)]
pub struct ClosedCells {
    /// The words of all cells.
    pub(crate) accounts: Accounts,
    /// A seat that knows all of them.
    pub(crate) account: Account,
    /// What no word says of each, the last one last.
    pub(crate) resting: Vec<Resting>,
    /// How many cells are left.
    pub(crate) left: u32,
}

impl Model for ClosedCells {
    ghost use Rattle.std.specs.Prelude.{◌≡◌, ◌≤◌, List, length};
    ghost use Rattle.loaded_cells.specs.RuleModel.Sight.{cells_of};
    ghost use Rattle.loaded_cells.specs.VersionSegment.Rows.{VersionedRows};
    ghost use Rattle.store_rule.specs.Closed.{AreAtRest, AreSpelled, known_segments};

    ghost Value = { List VersionedRows };

    ghost view = { λ c. known_segments c.account.me.0 c.left };

    ghost invariant = { λ c. (c.account.table_id ≡ c.accounts.table.shared.table_id)
        × (length c.resting.items ≡ c.left) × (c.left ≤ cells_of c.accounts.config)
        × AreAtRest c.account.me.0 c.resting.items × AreSpelled c.account.me.0 c.left };
}

impl ClosedCells {
    /// The cells of which this seat knows the contents.
    pub(crate) fn new(accounts: Accounts, account: Account, resting: Vec<Resting>) -> ClosedCells
        requires table { account.table_id ≡ accounts.table.shared.table_id }
        requires count { length resting.items ≡ cells_of accounts.config }
        requires resting { AreAtRest account.me.0 resting.items }
        requires spelled { AreSpelled account.me.0 (cells_of accounts.config) }
        ensures { result ≡ known_segments account.me.0 (cells_of accounts.config) }
    {
        let left = 8 * accounts.config.leaves;
        ClosedCells {
            accounts,
            account,
            resting,
            left,
        }
    }

    /// How many cells are left.
    pub fn len(&self) -> u32
        ensures { result ≡ length self.now }
    {
        self.left
    }

    pub fn is_empty(&self) -> bool
        ensures { result ≡ (length self.now == 0) }
    {
        self.left == 0
    }

    /// Loads the rows of a cell that is left, each with its value word in place of a weight, and answers its fence
    /// keys. The cell stays packed, so this takes no memory.
    pub fn load_rows(&mut self, cell: u32, rows: &mut Rows32) -> (Key, Key)
        requires { cell < length self.old }
        ensures kept { self.new ≡ self.old }
        ensures loaded { (s : VersionedRows) → slice_get self.old cell ≡ Some s
            → CanSpell result.0 result.1 rows.new s }
    {
        self.accounts.load_rows(&mut self.account, cell, rows)
    }

    /// Takes the last cell out. The memory of its rows is new.
    pub fn pop(&mut self, alloc: Global) -> Result<Option<VersionSegment>, NoMemory>
        ensures popped { IfOk result (λ segment. IsPopped self.old self.new segment) }
        ensures err { OnErr result (self.new ≡ self.old) }
    {
        let left = self.left;
        if left == 0 {
            return Ok(None);
        }
        // A closed store has room for one cell at a time: room for all of them would be as much memory as the store
        // had.
        let room = Segment::new(alloc, Key::END, Key::END)?;
        let resting = pop_resting(&mut self.resting);
        let cell = left - 1;
        self.left = cell;
        let mut rows = Rows32::new();
        let segment = wake_cell(
            &self.accounts,
            &mut self.account,
            cell,
            resting,
            &mut rows,
            room,
        );
        Ok(Some(segment))
    }
}

/// The last of a list.
pub(crate) fn pop_resting(list: &mut Vec<Resting>) -> Resting
    requires { 0 < length list.old.items }
    ensures { list.old.items ≡ list.new.items ++ result ∷ [] }
{
    match list.pop() {
        Some(resting) => resting,
        None => unreachable!(),
    }
}
