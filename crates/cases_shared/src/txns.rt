//! Transactions of few writes, or of one read.

ghost use Rattle.std.specs.Prelude.{◌≡◌, ◌≤◌};
ghost use Rattle.graph_model.specs.declared.limits.TheConstants.{MAX_ID};
ghost use Rattle.graph_model.specs.Refused.{IsWithinLimits};
ghost use Rattle.shared_store.specs.Passes.{IsIdle, IsOpen};

use graph_model::Write;
use shared_store::{Pass, Store, Written, abort, begin, commit, has_vertex};
use std::sync::Wait;

/// Adds a vertex in a transaction of its own, and answers the stamp. There is none where it isn't added.
pub fn add_vertex(rt: &impl Wait, store: &Store, pass: &mut Pass, v: u64) -> Option<u64>
    requires idle { IsIdle store.now pass.old }
    requires within { v ≤ MAX_ID }
    ensures idle { IsIdle store.now pass.new }
    ensures number { pass.new.seats.number ≡ pass.old.seats.number }
{
    match begin(rt, store, pass) {
        Ok(_) => {}
        Err(_) => return None,
    }
    if !makes(rt, store, pass, Write::AddVertex { v }) {
        abort(rt, store, pass);
        return None;
    }
    commit(rt, store, pass)
}

/// Makes a write, and answers whether it is made.
pub fn makes(rt: &impl Wait, store: &Store, pass: &mut Pass, write: Write) -> bool
    requires opened { IsOpen store.now pass.old }
    requires within { IsWithinLimits write }
    ensures opened { IsOpen store.now pass.new }
    ensures number { pass.new.seats.number ≡ pass.old.seats.number }
{
    matches!(
        shared_store::write(rt, store, pass, write),
        Ok(Written::Done)
    )
}

/// The start of a transaction that begins now, and whether it sees a vertex. There is no answer where none can begin.
pub fn look_for(rt: &impl Wait, store: &Store, pass: &mut Pass, v: u64) -> Option<(u64, bool)>
    requires idle { IsIdle store.now pass.old }
    requires within { v ≤ MAX_ID }
    ensures idle { IsIdle store.now pass.new }
    ensures number { pass.new.seats.number ≡ pass.old.seats.number }
{
    let begun = match begin(rt, store, pass) {
        Ok(begun) => begun,
        Err(_) => return None,
    };
    let sees = has_vertex(rt, store, pass, v);
    abort(rt, store, pass);
    Some((begun.start, sees))
}
