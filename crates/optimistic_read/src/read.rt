//! One try to read a key without a latch.
//!
//! 1. Between two loads of the version word lie the loads of the look-up. Only if both found one even number it is
//!    decoded.

ghost use Rattle.std.specs.Prelude.{◌≡◌, ◌≤◌, ◌<◌, ℕ};
ghost use Rattle.graph_model.specs.declared.limits.TheConstants.{MAX_ID};
ghost use Rattle.graph_model.specs.Graph.{weight_of};
ghost use Rattle.graph_model.specs.Rows.{arc_key, value_at, vertex_key};
ghost use Rattle.pass_steps.specs.RuleModel.Sight.{HasPass, cells_of};
ghost use Rattle.pass_steps.specs.StoreRelation.Passes.{PassState};
ghost use Rattle.pass_steps.specs.StoreRelationDeclared.stage.Stage.TheVariants.{Open};
ghost use Rattle.pass_steps.specs.StoreWords.Reads.{HasOpenPass};
ghost use Rattle.pass_steps.specs.Passes.{state_of};
ghost use Rattle.optimistic_read.specs.Tried.{IsTried, IsValueOf, MayTry, OnlyReads, SeatReads, vertex_value, view_in};

use crate::block::{BlockRead, look_up};
use crate::decode::decode;
use crate::tried::{CellRoute, Tried};
use graph_model::Key;
use pass_steps::below::{Account, Accounts, Block, Pass, Store};

/// Tries to read whether the open transaction sees a vertex, whose value is 0. It makes loads alone, takes no latch and
/// no memory, and waits for nobody.
pub fn try_has_vertex(store: &Store, pass: &mut Pass, route: &CellRoute, v: u64) -> Tried
    requires may { MayTry store.now pass.old route.now.cell }
    requires within { v ≤ MAX_ID }
    ensures reads { OnlyReads pass.old pass.new }
    ensures tried { IsTried store.now.accounts.config pass.old.number (state_of pass.old)
        pass.old.account.me.0 pass.new.account.me.0 route.now.cell (vertex_key v) result }
    ensures value { IsValueOf result (vertex_value (view_in store.now pass.old) v) }
{
    try_key(store, pass, route, Key::of_vertex(v))
}

/// Tries to read the weight of an arc that the open transaction sees. It makes loads alone, takes no latch and no
/// memory, and waits for nobody.
pub fn try_weight(store: &Store, pass: &mut Pass, route: &CellRoute, u: u64, v: u64) -> Tried
    requires may { MayTry store.now pass.old route.now.cell }
    requires source_within { u ≤ MAX_ID }
    requires target_within { v ≤ MAX_ID }
    ensures reads { OnlyReads pass.old pass.new }
    ensures tried { IsTried store.now.accounts.config pass.old.number (state_of pass.old)
        pass.old.account.me.0 pass.new.account.me.0 route.now.cell (arc_key u v) result }
    ensures value { IsValueOf result (weight_of (view_in store.now pass.old) u v) }
{
    try_key(store, pass, route, Key::of_arc(u, v))
}

/// Tries to read what the open transaction sees at a key: a weight of an arc, or 0 of a vertex. It makes loads alone,
/// takes no latch and no memory, and waits for nobody.
pub fn try_key(store: &Store, pass: &mut Pass, route: &CellRoute, key: Key) -> Tried
    requires may { MayTry store.now pass.old route.now.cell }
    ensures reads { OnlyReads pass.old pass.new }
    ensures tried { IsTried store.now.accounts.config pass.old.number (state_of pass.old)
        pass.old.account.me.0 pass.new.account.me.0 route.now.cell key result }
    ensures value { IsValueOf result (value_at (view_in store.now pass.old) key) }
{
    try_block(&store.accounts, &mut pass.account, route.cell, key)
}

/// The same by the seat of a pass with an open transaction.
fn try_block(accounts: &Accounts, seat: &mut Account, cell: u32, key: Key) -> Tried
    requires table { seat.old.table_id ≡ accounts.now.table.shared.table_id }
    requires cell { cell < cells_of accounts.now.config }
    requires pass { HasOpenPass seat.old.me.0 }
    ensures reads { SeatReads seat.old seat.new }
    ensures tried { (p : ℕ) (st : PassState) → HasPass seat.old.me.0 p st → st.stage ≡ Open
        → IsTried accounts.now.config p st seat.old.me.0 seat.new.me.0 cell key result }
{
    let first = accounts.first_load(seat, cell);
    // Somebody changes the cell now, so what is loaded would be of no use.
    if first % 2 == 1 {
        return Tried::Busy {
            cell,
            first,
            second: first,
        };
    }
    let begin = accounts.block_begin(cell);
    let block = Block { cell, begin };
    let looked = look_up(accounts, seat, BlockRead { block, first }, key);
    let second = accounts.second_load(seat, cell);
    // Somebody has changed it between both loads. No number comes twice, so an equal one means that nobody did.
    if second != first {
        return Tried::Busy {
            cell,
            first,
            second,
        };
    }
    decode(seat, cell, looked, key)
}
