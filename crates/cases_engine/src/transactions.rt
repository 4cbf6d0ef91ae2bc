//! Transactions of the passes of an engine.
//!
//! Each call speaks of the passes that have a transaction open, so that the next one may be made.

ghost use Rattle.std.specs.Prelude.{◌≡◌, ◌≤◌, None, Some, IsSome, OnOk, slice_get, true, false};
ghost use Rattle.graph_model.specs.declared.limits.TheConstants.{MAX_ID};
ghost use Rattle.cases_engine.specs.Open.{KeepsOpen, SetsOpen, open_of};

use graph_model::{BeginRefusal, Begun, StepEngine};
use std::test::Fail;

/// Selects the pass, and begins a transaction.
pub fn begin_in<E: StepEngine>(engine: &mut E, pass: u32) -> Result<Begun, BeginRefusal>
    requires { slice_get (open_of (E.core engine.old)) pass ≡ Some false }
    ensures sets { OnOk result (SetsOpen pass true (E.core engine.old) (E.core engine.new)) }
    ensures current { OnOk result (IsSome (E.account engine.new).start) }
{
    engine.select(pass);
    let begun = engine.begin()?;
    Ok(begun)
}

/// Selects the pass, and commits its transaction.
pub fn commit_in<E: StepEngine>(engine: &mut E, pass: u32) -> Option<u64>
    requires { slice_get (open_of (E.core engine.old)) pass ≡ Some true }
    ensures { SetsOpen pass false (E.core engine.old) (E.core engine.new) }
{
    engine.select(pass);
    engine.commit()
}

/// Adds the vertices from 1 on below the limit, in a transaction of their own.
pub fn commit_vertices<E: StepEngine>(engine: &mut E, limit: u64) -> Result<(), Fail>
    requires closed { (E.account engine.old).start ≡ None }
    requires within { limit ≤ MAX_ID }
    ensures open { OnOk result (KeepsOpen (E.core engine.old) (E.core engine.new)) }
    ensures closed { OnOk result ((E.account engine.new).start ≡ None) }
{
    engine.begin()?;
    add_vertices(engine, limit)?;
    engine.commit();
    Ok(())
}

/// Adds them in the open transaction.
fn add_vertices<E: StepEngine>(engine: &mut E, limit: u64) -> Result<(), Fail>
    requires current { IsSome (E.account engine.old).start }
    requires within { limit ≤ MAX_ID }
    ensures { OnOk result (KeepsOpen (E.core engine.old) (E.core engine.new)) }
{
    'vertices: for v in 1..limit {
        engine.add_vertex(v)?;
    }
    Ok(())
}
