//! One row of a table.
//!
//! 1. Each change of a row goes through `set_row`, `set_lists` or `insert_row`, so that its weight and its heads agree.

ghost use Rattle.std.specs.Prelude.{◌≡◌, ◌⊎◌, ◌<◌, ◌≤◌, ◌+◌, true, length, insert, cond, slice_get, IsSomeAnd};
ghost use Rattle.std.specs.Ordering.{eq_by_cmp};
ghost use Rattle.std.specs.declared.result.Result.TheVariants.{Ok};
ghost use Rattle.graph_model.specs.declared.row.Key.{Key};
ghost use Rattle.graph_model.specs.declared.limits.TheConstants.{SEGMENT_ROWS};
ghost use Rattle.graph_model.specs.Rows.{key_cmp, is_between};
ghost use Rattle.gap_segment.specs.Fenced.{IsFound, IsGapFor};
ghost use Rattle.head_map.specs.UndoChain.Chains.{IsHeadOf};
ghost use Rattle.head_map.specs.UndoChain.States.{Grows};
ghost use Rattle.row_table.specs.Checks.{AreNamedRows};
ghost use Rattle.head_map.specs.Heads.{heads_at, settled_heads};
ghost use Rattle.row_table.specs.Walks.{row_of, PrunesRow};
ghost use Rattle.row_table.specs.Parts.{AreParts, versioned, IsRow, IsRowFound, is_changed, heads_of, with_value, new_row, value_in};

use crate::rows::RowTable;
use graph_model::{Key, Row};
use head_map::below::{Chains, States};
use head_map::{Heads, PackedHeads};

/// Where a row stands, its newest value, and where its records and its touches begin.
#[derive(Clone, Copy)]
pub struct FoundRow {
    /// Its place among the rows of the segment.
    pub place: usize,
    /// None where the row was removed, and has records still.
    pub value: Option<u64>,
    /// The newest record of a value before.
    pub undos: Option<usize>,
    /// The newest record of a touch.
    pub touches: Option<usize>,
}

/// The key's row, or the place where it would stand. It is looked for near a place first, which may be any.
pub fn find_row(rows: &RowTable, key: Key, near: usize) -> Result<FoundRow, usize>
    ensures { IsRowFound rows.now.fenced.rows rows.now.heads.entries key result }
{
    match rows.segment().find_near(key, near) {
        Ok(place) => Ok(row_at(rows, key, place)),
        Err(place) => Err(place),
    }
}

/// The row at a place.
pub fn row_at(rows: &RowTable, key: Key, place: usize) -> FoundRow
    requires { IsFound rows.now.fenced.rows key (Ok place) }
    ensures row { IsRow rows.now.fenced.rows rows.now.heads.entries key result }
    ensures place { result.place ≡ place }
{
    let weight = rows.segment().rows()[place].weight;
    let heads = rows.heads_at(key, place);
    FoundRow {
        place,
        value: value_in(heads, weight),
        undos: heads.undos,
        touches: heads.touches,
    }
}

/// The newest value of a row with this weight.
pub fn value_in(heads: Heads, weight: u64) -> Option<u64>
    ensures { result ≡ value_in heads weight }
{
    if heads.has_value { Some(weight) } else { None }
}

/// Gives a row its newest value and its lists, or takes it away where nothing is left of it.
pub fn set_row(rows: &mut RowTable, chains: &Chains, key: Key, row: FoundRow)
    requires at { IsFound rows.old.fenced.rows key (Ok row.place) }
    requires room { (0 < rows.old.heads.spare)
        ⊎ (heads_at rows.old.heads.entries key ≡ settled_heads → heads_of row ≡ settled_heads) }
    requires undos { IsHeadOf chains.now row.undos }
    requires touches { IsHeadOf chains.now row.touches }
    ensures rows { rows.new.fenced
        ≡ record rows.old.fenced { rows = with_value rows.old.fenced.rows row.place row.value (is_changed row) } }
    ensures heads { (q : Key) → heads_at rows.new.heads.entries q
        ≡ cond (eq_by_cmp key_cmp q key) (heads_of row) (heads_at rows.old.heads.entries q) }
    ensures spare { rows.old.heads.spare ≤ rows.new.heads.spare + 1 }
    ensures kept { (heads_at rows.old.heads.entries key ≡ settled_heads → heads_of row ≡ settled_heads)
        → rows.old.heads.spare ≤ rows.new.heads.spare }
{
    let is_changed = row.undos.is_some() || row.touches.is_some();
    // Nobody reads anything of it any more.
    if row.value.is_none() && !is_changed {
        rows.remove(key, row.place);
        return;
    }
    rows.put(key, row.place, heads_of(chains, row));
    if let Some(weight) = row.value {
        rows.set_weight(row.place, weight);
    }
}

/// Gives a row whose value stays its lists, or takes it away where nothing is left of it. The value is neither read nor
/// written, so nobody waits for its memory.
fn set_lists(rows: &mut RowTable, chains: &Chains, key: Key, row: FoundRow)
    requires at { IsFound rows.old.fenced.rows key (Ok row.place) }
    requires value { IsSomeAnd (slice_get rows.old.fenced.rows row.place)
        (λ r. (r.key ≡ key) × (row.value ≡ value_in (heads_at rows.old.heads.entries key) r.weight)) }
    requires room { (0 < rows.old.heads.spare)
        ⊎ (heads_at rows.old.heads.entries key ≡ settled_heads → heads_of row ≡ settled_heads) }
    requires undos { IsHeadOf chains.now row.undos }
    requires touches { IsHeadOf chains.now row.touches }
    ensures rows { rows.new.fenced
        ≡ record rows.old.fenced { rows = with_value rows.old.fenced.rows row.place row.value (is_changed row) } }
    ensures heads { (q : Key) → heads_at rows.new.heads.entries q
        ≡ cond (eq_by_cmp key_cmp q key) (heads_of row) (heads_at rows.old.heads.entries q) }
    ensures kept { (heads_at rows.old.heads.entries key ≡ settled_heads → heads_of row ≡ settled_heads)
        → rows.old.heads.spare ≤ rows.new.heads.spare }
{
    if row.value.is_some() || is_changed(row) {
        rows.put(key, row.place, heads_of(chains, row));
    } else {
        rows.remove(key, row.place);
    }
}

/// Puts a new row at the place where it has to stand.
pub fn insert_row(rows: &mut RowTable, chains: &Chains, key: Key, row: FoundRow)
    requires rows { length rows.old.fenced.rows < SEGMENT_ROWS }
    requires within { is_between rows.old.fenced.low rows.old.fenced.high key ≡ true }
    requires gap { IsGapFor rows.old.fenced.rows key row.place }
    requires room { 0 < rows.old.heads.spare }
    requires undos { IsHeadOf chains.now row.undos }
    requires touches { IsHeadOf chains.now row.touches }
    ensures rows { rows.new.fenced
        ≡ record rows.old.fenced { rows = insert rows.old.fenced.rows row.place (new_row key row) } }
    ensures heads { (q : Key) → heads_at rows.new.heads.entries q
        ≡ cond (eq_by_cmp key_cmp q key) (heads_of row) (heads_at rows.old.heads.entries q) }
    ensures spare { rows.old.heads.spare ≤ rows.new.heads.spare + 1 }
{
    let weight = match row.value {
        Some(weight) => weight,
        None => 0,
    };
    rows.insert(row.place, Row { key, weight }, heads_of(chains, row));
}

/// Takes the records of a row away that nobody can see from the horizon on, and the row itself where nothing is
/// left of it.
pub fn prune_row<S: States>(
    rows: &mut RowTable,
    chains: &mut Chains,
    place: usize,
    horizon: u64,
    states: &mut S,
)
    requires parts { AreParts rows.old.fenced rows.old.heads.entries chains.old }
    requires place { place < length rows.old.fenced.rows }
    requires known { horizon ≤ (S.knowledge states.old).known }
    requires named { AreNamedRows (S.knowledge states.old).names
        (row_of (versioned chains.old rows.old.heads.entries rows.old.fenced.rows) place) }
    ensures pruned { PrunesRow (S.knowledge states.old).stamps horizon place rows.old.fenced rows.new.fenced
        rows.old.heads rows.new.heads chains.old chains.new }
    ensures grows { Grows (S.knowledge states.old) (S.knowledge states.new) }
{
    let key = rows.segment().rows()[place].key;
    let row = row_at(rows, key, place);
    // Most rows have none, and are passed over with one look.
    if row.undos.is_none() && row.touches.is_none() {
        return;
    }
    let undos = chains.prune(row.undos, horizon, states);
    let touches = chains.prune_touches(row.touches, horizon, states);
    let row = FoundRow {
        undos,
        touches,
        ..row
    };
    set_lists(rows, chains, key, row);
}

/// Whether a row has a record.
fn is_changed(row: FoundRow) -> bool
    ensures { result ≡ is_changed row }
{
    row.undos.is_some() || row.touches.is_some()
}

/// What the changed rows say of a row.
fn heads_of(chains: &Chains, row: FoundRow) -> PackedHeads
    requires undos { IsHeadOf chains.now row.undos }
    requires touches { IsHeadOf chains.now row.touches }
    ensures { result ≡ heads_of row }
{
    let is_changed = row.undos.is_some() || row.touches.is_some();
    PackedHeads::new(
        row.value.is_some() || !is_changed,
        chains.link(row.undos),
        chains.link(row.touches),
    )
}
