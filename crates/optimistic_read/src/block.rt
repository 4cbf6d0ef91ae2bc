//! The loads by which a key is looked up in a block that nobody has to hold.
//!
//! None of them tells anything of the cell: somebody may store words meanwhile. What they tell is of each block that
//! these words are of, and whether there is one the second load of the version word shows.

ghost use Rattle.std.specs.Prelude.{◌≡◌, ◌≤◌, ◌<◌, ◌+◌};
ghost use Rattle.pass_steps.specs.CellsModel.Words.{block_words};
ghost use Rattle.pass_steps.specs.StoreWords.Reads.{IsReadOf};
ghost use Rattle.pass_steps.specs.StoreWords.Steps.{Knows};
ghost use Rattle.optimistic_read.specs.Reads.{CanLoad, IsHead, IsLookedUp, IsReadingOn, IsSearched, StillReads, begun_read, key_read, row_read};

use crate::decode::{Head, LookedUp};
use graph_model::{Key, Row};
use pass_steps::below::{Account, Accounts, Block};

/// A read that is under way: of which block, and the even version word that it found first.
#[derive(Clone, Copy)]
pub struct BlockRead {
    /// That of the cell.
    pub block: Block,
    /// The read is valid where the second load finds this one.
    pub first: u64,
}

/// Loads what a look-up of the key needs: 5 words, two for each row that is looked at, and three of the last one.
pub fn look_up(accounts: &Accounts, seat: &mut Account, read: BlockRead, key: Key) -> LookedUp
    requires load { CanLoad accounts.now.config accounts.now.table.shared.table_id seat.old read }
    requires begun { seat.old.me.0.reads.reading ≡ begun_read read.block.cell read.first }
    ensures still { StillReads seat.old seat.new }
    ensures known { IsReadingOn read.block.cell read.first seat.new.me.0 (IsLookedUp result key) }
{
    let head = load_head(accounts, seat, read);
    let place = search(accounts, seat, read, head, key);
    if place < head.count {
        let row = load_row(accounts, seat, read, place);
        LookedUp {
            head,
            row: Some(row),
        }
    } else {
        LookedUp { head, row: None }
    }
}

/// Loads the number of rows and the fence keys.
pub(crate) fn load_head(accounts: &Accounts, seat: &mut Account, read: BlockRead) -> Head
    requires load { CanLoad accounts.now.config accounts.now.table.shared.table_id seat.old read }
    requires begun { seat.old.me.0.reads.reading ≡ begun_read read.block.cell read.first }
    ensures still { StillReads seat.old seat.new }
    ensures few { result.count ≤ 32 }
    ensures known { IsReadingOn read.block.cell read.first seat.new.me.0 (IsHead result) }
{
    // May be any number while the cell is changed. Cut off at the most rows that a block has, it bounds the search.
    let count = accounts.block_load(seat, read.block, 1);
    // May be of two different ranges, the low key and the high one. Nobody compares them before the second load.
    let low = load_key(accounts, seat, read, 2);
    let high = load_key(accounts, seat, read, 4);
    Head {
        count: count.min(32) as u32,
        low,
        high,
    }
}

/// How many rows are below the key, found by halves.
pub(crate) fn search(
    accounts: &Accounts,
    seat: &mut Account,
    read: BlockRead,
    head: Head,
    key: Key,
) -> u32
    requires load { CanLoad accounts.now.config accounts.now.table.shared.table_id seat.old read }
    requires few { head.count ≤ 32 }
    requires reading { IsReadingOn read.block.cell read.first seat.old.me.0 (IsHead head) }
    ensures still { StillReads seat.old seat.new }
    ensures within { result ≤ head.count }
    ensures searched { IsReadingOn read.block.cell read.first seat.new.me.0 (IsSearched head key result) }
{
    let mut place = 0;
    let mut rest = head.count;
    'halves: while rest > 0 {
        let half = rest / 2;
        // May be half of a key, or of a row that has moved on. The search goes another way then, and ends all the same.
        let middle = load_key(accounts, seat, read, 6 + 3 * (place + half));
        if middle.is_below(key) {
            place += half + 1;
            rest -= half + 1;
        } else {
            rest = half;
        }
    }
    place
}

/// Loads the row at a place.
pub(crate) fn load_row(accounts: &Accounts, seat: &mut Account, read: BlockRead, place: u32) -> Row
    requires load { CanLoad accounts.now.config accounts.now.table.shared.table_id seat.old read }
    requires place { place < 32 }
    requires reading { IsReadOf seat.old.me.0 read.block.cell }
    ensures loaded { Knows seat.old seat.new (row_read seat.old.me.0 place result) }
{
    let key = load_key(accounts, seat, read, 6 + 3 * place);
    // May be the value of another key than the one just loaded. Nobody compares or decodes before the second load.
    let weight = accounts.block_load(seat, read.block, 8 + 3 * place);
    Row { key, weight }
}

/// Loads a key, whose second word follows its first one.
fn load_key(accounts: &Accounts, seat: &mut Account, read: BlockRead, word: u32) -> Key
    requires load { CanLoad accounts.now.config accounts.now.table.shared.table_id seat.old read }
    requires word { (1 ≤ word) × (word + 1 < block_words) }
    requires reading { IsReadOf seat.old.me.0 read.block.cell }
    ensures loaded { Knows seat.old seat.new (key_read seat.old.me.0 word result) }
{
    // The two may be of different keys. Each load is an acquire: where it finds a word of a change, the second load of
    // the version word finds that change too, and the read is given up.
    let src = accounts.block_load(seat, read.block, word);
    let second = accounts.block_load(seat, read.block, word + 1);
    Key { src, second }
}
