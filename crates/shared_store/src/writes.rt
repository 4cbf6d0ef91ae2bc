//! Writes of the open transaction.
//!
//! 1. A write takes the cells of all its rows, in the order of their fence keys, before it changes the first. It puts
//!    all back before it gives up the first, so another pass meets it whole or not at all.
//! 2. A commit that stands against a write is met by its stamp, which may not be published yet. The call then waits for
//!    the journal, and the pass has seen the commit when it is named.

ghost use Rattle.std.specs.Prelude.{◌≡◌, Err, IfOk, OnOk};
ghost use Rattle.graph_model.specs.Refused.{IsWithinLimits};
ghost use Rattle.leaf_rows.specs.RowWrites.Checks.{TellsEdges};
ghost use Rattle.pass_writes.specs.PassSteps.Passes.{state_of};
ghost use Rattle.pass_writes.specs.Making.{Makes, NeedsRoom};
ghost use Rattle.shared_store.specs.Passes.{IsOpen, KeepsAll, KeepsOpen, account_of, view_in};
ghost use Rattle.shared_store.specs.Writes.{HasRoom, IsNoted, Keeps, SeesLater, WritesOver, later_of, own_after};

use crate::edges::has_edges;
use crate::pass::Pass;
use graph_model::{Cause, NoMemory, Refusal, Write};
use pass_writes::Written;
use pass_writes::below::{Store, see_later};
use std::sync::Wait;

/// Makes a write of the open transaction, or says why it isn't made. Takes all memory that it needs before anything
/// changes. May wait.
pub fn write(
    rt: &impl Wait,
    store: &Store,
    pass: &mut Pass,
    write: Write,
) -> Result<Written, Refusal>
    requires opened { IsOpen store.now pass.old }
    requires within { IsWithinLimits write }
    ensures opened { IsOpen store.now pass.new }
    ensures writes { WritesOver (account_of store.now pass.old) write result (account_of store.now pass.new) }
    ensures room { IfOk result (λ written. NeedsRoom store.now.accounts.config.kind write written) }
    ensures number { pass.new.seats.number ≡ pass.old.seats.number }
{
    // With no cell in hand, since it waits for others. An edge that comes after it is met at the vertex's row, as a
    // touch.
    let has_edges = removes_edges(rt, store, pass, write);
    // Room in the pass's lists, before a row changes.
    match reserve(pass) {
        Ok(()) => {}
        Err(NoMemory) => return Err(Refusal::NoMemory),
    }
    let written = make(rt, store, pass, write, has_edges);
    // A commit that is named has to be seen before the answer is given, and the journal is waited for with no cell in
    // hand.
    see_cause(rt, store, pass, write, &written);
    written
}

/// Whether the vertex that a write removes has edges. Of any other write it isn't asked.
fn removes_edges(rt: &impl Wait, store: &Store, pass: &mut Pass, write: Write) -> bool
    requires opened { IsOpen store.now pass.old }
    requires within { IsWithinLimits write }
    ensures kept { KeepsOpen store.now pass.old pass.new }
    ensures edges { TellsEdges (λ _ answer. answer ≡ result) (view_in store.now pass.old) write }
{
    match write {
        Write::DropVertex { v } => has_edges(rt, store, pass, v),
        _ => false,
    }
}

/// Makes room in the pass for one write more.
fn reserve(pass: &mut Pass) -> Result<(), NoMemory>
    ensures kept { KeepsAll pass.old pass.new }
    ensures ok { OnOk result (HasRoom pass.new) }
{
    pass.own.reserve(1)?;
    pass.changed.reserve(1)
}

/// The same where there is room for it in the pass, and its edges were looked for. A commit that stands against it is
/// noted, and still to be seen.
fn make(
    rt: &impl Wait,
    store: &Store,
    pass: &mut Pass,
    write: Write,
    has_edges: bool,
) -> Result<Written, Refusal>
    requires opened { IsOpen store.now pass.old }
    requires within { IsWithinLimits write }
    requires room { HasRoom pass.old }
    requires edges { TellsEdges (λ _ answer. answer ≡ has_edges) (view_in store.now pass.old) write }
    ensures opened { IsOpen store.now pass.new }
    ensures makes { Makes store.now.accounts.config pass.old.seats.number (state_of pass.old.seats) write result
        (state_of pass.new.seats) }
    ensures room { IfOk result (λ written. NeedsRoom store.now.accounts.config.kind write written) }
    ensures number { pass.new.seats.number ≡ pass.old.seats.number }
{
    let begun = pass.latest();
    let written = pass_writes::write(
        rt,
        store,
        &mut pass.seats,
        &mut pass.cells,
        begun,
        write,
        has_edges,
    );
    keep(pass, write, &written);
    written
}

/// Keeps a write that was made.
fn keep(pass: &mut Pass, write: Write, written: &Result<Written, Refusal>)
    requires { HasRoom pass.old }
    ensures { Keeps pass.old write written.now pass.new }
{
    match written {
        Ok(Written::Done) => {
            // Twice: one list goes into the journal with the commit, and by the other the rows are stamped after it.
            pass.own.push_within(write);
            pass.changed.push_within(write);
        }
        Ok(Written::NeedRoom(_)) => {}
        Err(_) => {}
    }
}

/// Has the pass see the commit that is named as a cause.
fn see_cause(
    rt: &impl Wait,
    store: &Store,
    pass: &mut Pass,
    write: Write,
    written: &Result<Written, Refusal>,
)
    requires opened { IsOpen store.now pass.old }
    requires noted { IsNoted write (later_of written.now) (state_of pass.old.seats) }
    ensures opened { IsOpen store.now pass.new }
    ensures seen { SeesLater store.now.accounts.config (state_of pass.old.seats) write (later_of written.now)
        (state_of pass.new.seats) }
    ensures number { pass.new.seats.number ≡ pass.old.seats.number }
{
    if let Some(stamp) = named_stamp(written) {
        see_later(rt, store, &mut pass.seats, write, stamp);
    }
}

/// The stamp of the commit that is named as a cause.
fn named_stamp(written: &Result<Written, Refusal>) -> Option<u64>
    ensures { result ≡ later_of written.now }
{
    match written {
        Err(
            Refusal::Conflict {
                cause: Cause::Later { stamp },
            },
        ) => Some(*stamp),
        _ => None,
    }
}
