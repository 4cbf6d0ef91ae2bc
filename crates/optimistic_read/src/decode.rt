//! What a validated read answers.
//!
//! 1. Nothing that was loaded is decoded before the second load has found the first word again: till then it may be
//!    half of a change, and a number in it may be anything.
//! 2. All knowledge of what a word means stands here, once for keys and once for runs.

ghost use Rattle.std.specs.Prelude.{◌≡◌, ℕ, List};
ghost use Rattle.graph_model.specs.declared.row.Row.{Row};
ghost use Rattle.graph_model.specs.Rows.{is_between};
ghost use Rattle.pass_steps.specs.VersionSegment.Rows.{VersionedRows};
ghost use Rattle.pass_steps.specs.CellsModel.Words.{Spells};
ghost use Rattle.optimistic_read.specs.Reads.{IsLookedUp, IsValid};
ghost use Rattle.optimistic_read.specs.Runs.{IsRunLoaded, decoded_run, lesser, room_behind};
ghost use Rattle.optimistic_read.specs.Tried.{decoded};

use crate::tried::{Tried, TriedRun};
use graph_model::{Key, Row};
use pass_steps::below::{Account, is_marked, value_in_word};

/// The first words of a block: how many rows it has, 32 at most, and its fence keys.
#[derive(Clone, Copy)]
pub struct Head {
    /// How many rows it has, at most 32.
    pub count: u32,
    /// Its low fence key.
    pub low: Key,
    /// Its high fence key.
    pub high: Key,
}

impl Head {
    /// Whether a key lies between the fence keys.
    pub(crate) fn holds(&self, key: Key) -> bool
        ensures { result ≡ is_between self.now.low self.now.high key }
    {
        !key.is_below(self.low) && key.is_below(self.high)
    }
}

/// The words that were loaded for a key: the head, and the first row that isn't below the key, with its value word in
/// place of a weight.
#[derive(Drop)]
pub struct LookedUp {
    /// What the first words say.
    pub head: Head,
    /// None where all rows are below the key.
    pub row: Option<Row>,
}

/// Decodes what was looked up, once the seat's view shows the block as validated. Nothing else in this crate says what
/// a word means.
pub fn decode(_seat: &Account, cell: u32, looked: LookedUp, key: Key) -> Tried
    requires valid { IsValid _seat.now.me.0 cell }
    ensures decoded { (block : List ℕ) (s : VersionedRows) → Spells block s → IsLookedUp looked key s
        → result ≡ decoded s cell key }
{
    let LookedUp { head, row } = looked;
    // The hint was of another cell; where it lies tells the caller whether to go left or right.
    if !head.holds(key) {
        return Tried::Moved {
            low: head.low,
            high: head.high,
        };
    }
    // All rows of the cell are below the key, and its fence keys hold the key: so nobody has such a row.
    let Some(row) = row else {
        return Tried::Value { weight: None };
    };
    if row.key != key {
        return Tried::Value { weight: None };
    }
    // There are older values, which no word has. In an unmarked word is what each open transaction sees.
    if is_marked(row.weight) {
        return Tried::Chained { cell, key };
    }
    Tried::Value {
        weight: value_in_word(row.weight),
    }
}

/// Where the loads of a run have stopped.
#[derive(Clone, Copy)]
pub enum Stop {
    /// After its last row in the block.
    Ended,
    /// Before a row for which there is no room.
    Full { key: Key },
    /// Before a row with a marked word.
    Marked { key: Key },
}

/// What was loaded of a run, beside its rows: the head, and where the loads have stopped.
#[derive(Clone, Copy)]
pub struct LoadedRun {
    /// What the first words say.
    pub head: Head,
    /// Why no more rows were loaded.
    pub stop: Stop,
}

/// Decodes a run that was loaded, under the same condition. Its rows are what the transaction sees, as they stand in
/// the buffer.
pub fn decode_run(_seat: &Account, _cell: u32, loaded: LoadedRun, from: Key, until: Key) -> TriedRun
    requires valid { IsValid _seat.now.me.0 _cell }
    ensures decoded { (block : List ℕ) (s : VersionedRows) (before after : List Row) → Spells block s
        → IsRunLoaded loaded from until before after s → result ≡ decoded_run s from until (room_behind before) }
{
    let LoadedRun { head, stop } = loaded;
    if !head.holds(from) {
        return TriedRun::Moved {
            low: head.low,
            high: head.high,
        };
    }
    let end = lesser(head.high, until);
    match stop {
        Stop::Ended => TriedRun::Rows { end },
        Stop::Full { key } => TriedRun::Rows { end: key },
        Stop::Marked { key } => TriedRun::Chained { key, end },
    }
}

/// Of two keys the one whose row stands first.
fn lesser(one: Key, other: Key) -> Key
    ensures { result ≡ lesser one other }
{
    if one.is_below(other) { one } else { other }
}
