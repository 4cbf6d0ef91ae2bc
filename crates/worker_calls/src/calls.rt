//! Calls on a pass that is ready, which leave it so.
//!
//! 1. A pass that is ready holds no latch: any call may come next, and nobody waits for it between two calls.

ghost use Rattle.std.specs.Prelude.{◌≡◌, ◌≤◌, ℕ, IsSome, None, Some, false};
ghost use Rattle.graph_model.specs.declared.limits.TheConstants.{MAX_ID};
ghost use Rattle.graph_model.specs.AccountSteps.{AbortsBy, BeginsBy, CommitsBy, ReadsBy, WritesBy, view_of};
ghost use Rattle.graph_model.specs.Graph.{has_vertex, weight_of};
ghost use Rattle.graph_model.specs.Refused.{IsWithinLimits};
ghost use Rattle.graph_model.specs.Scans.{ScansBy};
ghost use Rattle.reader_parts.specs.SharedStore.Passes.{account_of};
ghost use Rattle.worker_calls.specs.Ready.{HasSeenLegal, IsReady};

use crate::scan_place::{ScanPlace, settle_met};
use crate::writes::write_with_room;
use crate::{reads, scans};
use graph_model::{BeginRefusal, Begun, Cursor, Refusal, Rows64, Write};
use pass_room::PassRoom;
use reader_parts::below::{self, Pass, Store};
use std::sync::Wait;

/// Begins the next transaction of a pass that has none.
pub fn begin(rt: &impl Wait, store: &Store, pass: &mut Pass) -> Result<Begun, BeginRefusal>
    requires ready { ∥ IsReady store.now pass.old ∥₁ }
    requires none { (account_of store.now pass.old).start ≡ None }
    ensures ready { ∥ IsReady store.now pass.new ∥₁ }
    ensures legal { HasSeenLegal (account_of store.now pass.new) }
    ensures begins { BeginsBy (account_of store.now pass.old) result (account_of store.now pass.new) }
{
    below::begin(rt, store, pass)
}

/// Makes a write of the open transaction, or says why it isn't made. What it needs for rows that move is made where it
/// is missing.
pub fn write(
    rt: &impl Wait,
    store: &Store,
    pass: &mut Pass,
    room: &mut Option<PassRoom>,
    write: Write,
) -> Result<(), Refusal>
    requires ready { ∥ IsReady store.now pass.old ∥₁ }
    requires current { IsSome (account_of store.now pass.old).start }
    requires within { IsWithinLimits write }
    ensures ready { ∥ IsReady store.now pass.new ∥₁ }
    ensures legal { HasSeenLegal (account_of store.now pass.new) }
    ensures writes { WritesBy (account_of store.now pass.old) write result (account_of store.now pass.new) }
{
    write_with_room(rt, store, pass, room, write)
}

/// Whether the open transaction sees a vertex.
pub fn has_vertex(rt: &impl Wait, store: &Store, pass: &mut Pass, v: u64) -> bool
    requires ready { ∥ IsReady store.now pass.old ∥₁ }
    requires current { IsSome (account_of store.now pass.old).start }
    requires within { v ≤ MAX_ID }
    ensures ready { ∥ IsReady store.now pass.new ∥₁ }
    ensures legal { HasSeenLegal (account_of store.now pass.new) }
    ensures reads { ReadsBy (account_of store.now pass.old) (account_of store.now pass.new) }
    ensures answer { (start : ℕ) → (account_of store.now pass.old).start ≡ Some start
        → result ≡ has_vertex (view_of (account_of store.now pass.old) start) v }
{
    reads::has_vertex(rt, store, pass, v)
}

/// The weight of an arc that the open transaction sees.
pub fn weight(rt: &impl Wait, store: &Store, pass: &mut Pass, u: u64, v: u64) -> Option<u64>
    requires ready { ∥ IsReady store.now pass.old ∥₁ }
    requires current { IsSome (account_of store.now pass.old).start }
    requires source_within { u ≤ MAX_ID }
    requires target_within { v ≤ MAX_ID }
    ensures ready { ∥ IsReady store.now pass.new ∥₁ }
    ensures legal { HasSeenLegal (account_of store.now pass.new) }
    ensures reads { ReadsBy (account_of store.now pass.old) (account_of store.now pass.new) }
    ensures answer { (start : ℕ) → (account_of store.now pass.old).start ≡ Some start
        → result ≡ weight_of (view_of (account_of store.now pass.old) start) u v }
{
    reads::weight(rt, store, pass, u, v)
}

/// Takes one turn of a scan. Cells in which it has met records are settled after it, where nobody needs them any more.
pub fn scan_step(
    rt: &impl Wait,
    store: &Store,
    pass: &mut Pass,
    place: &mut ScanPlace,
    cursor: &mut Cursor,
    rows: &mut Rows64,
)
    requires ready { ∥ IsReady store.now pass.old ∥₁ }
    requires current { IsSome (account_of store.now pass.old).start }
    requires going { cursor.old.done ≡ false }
    ensures ready { ∥ IsReady store.now pass.new ∥₁ }
    ensures legal { HasSeenLegal (account_of store.now pass.new) }
    ensures reads { ReadsBy (account_of store.now pass.old) (account_of store.now pass.new) }
    ensures answer { (start : ℕ) → (account_of store.now pass.old).start ≡ Some start
        → ScansBy (view_of (account_of store.now pass.old) start) cursor.old cursor.new rows.new }
{
    scans::scan_step(rt, store, pass, place, cursor, rows);
    settle_met(rt, store, pass, place);
}

/// Commits the open transaction, and answers the stamp, or none where nothing was written.
pub fn commit(rt: &impl Wait, store: &Store, pass: &mut Pass) -> Option<u64>
    requires ready { ∥ IsReady store.now pass.old ∥₁ }
    requires current { IsSome (account_of store.now pass.old).start }
    ensures ready { ∥ IsReady store.now pass.new ∥₁ }
    ensures legal { HasSeenLegal (account_of store.now pass.new) }
    ensures commits { CommitsBy (account_of store.now pass.old) result (account_of store.now pass.new) }
{
    below::commit(rt, store, pass)
}

/// Ends the open transaction and takes its writes back.
pub fn abort(rt: &impl Wait, store: &Store, pass: &mut Pass)
    requires ready { ∥ IsReady store.now pass.old ∥₁ }
    requires current { IsSome (account_of store.now pass.old).start }
    ensures ready { ∥ IsReady store.now pass.new ∥₁ }
    ensures legal { HasSeenLegal (account_of store.now pass.new) }
    ensures aborts { AbortsBy (account_of store.now pass.old) (account_of store.now pass.new) }
{
    below::abort(rt, store, pass);
}
