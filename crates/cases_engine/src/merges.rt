//! Leaves with few rows that are brought together.

ghost use Rattle.std.specs.Prelude.{◌≡◌, ◌≤◌, None, IsSome, OnOk};
ghost use Rattle.graph_model.specs.declared.limits.TheConstants.{MAX_ID};

use crate::leaf_engine::LeafEngine;
use crate::transactions::commit_vertices;
use graph_model::{Kind, StepEngine};
use std::test::Fail;
use teseo_core::Core;
use txn_manager::{Config, Totals};

// Rows come in the order of their keys. A leaf is split where the last segment is full and no window has room: the
// first one with 219 rows, those after it with 216. So 110 rows stay in the first leaf, 108 in each of the next
// seven, and 134 are in the ninth. Of them 40 are left after the sweeps, no more than 2 in a segment, and 5 in a
// segment where they are divided among eight. No window has enough to be spread, which takes 12 rows in two
// segments, 32 in four or 80 in eight, and any two neighbours have few rows. So eight steps merge two leaves each.
#[test]
fn nine_leaves_with_forty_rows_become_one(rt: HostRuntime) -> Result<(), Fail> {
    let config = Config {
        kind: Kind::Directed,
        leaves: 16,
        passes: 1,
        txns_per_pass: 2,
    };
    let core = Core::new(rt.alloc(), config)?;
    let (did, left) = merge_nine_leaves(core)?;
    let few = Totals {
        vertices: 40,
        edges: 0,
        undo: 0,
        retired: 0,
    };
    assert_eq!(rt; did, (9, true, false), "whether there was something to do");
    assert_eq!(rt;
        left,
        ((1, Totals { retired: 8, ..few }), (1, few)),
        "what is left"
    );
    Ok(())
}

/// Leaves in use, and what they hold.
type LeavesWithTotals = (u32, Totals);

/// Adds 1,000 vertices and removes all but 40 of them, sweeps all leaves, makes nine steps of merging, and sweeps once
/// more. Answers how many leaves were in use before the sweeps, whether each of eight steps found something to do, and
/// whether the ninth did; and what is left before the last sweep and after it.
fn merge_nine_leaves<E: LeafEngine + Drop>(
    mut engine: E,
) -> Result<((u32, bool, bool), (LeavesWithTotals, LeavesWithTotals)), Fail>
    requires { (E.account engine).start ≡ None }
{
    commit_vertices(&mut engine, 1001)?;
    commit_removals(&mut engine, 1001)?;
    let before = engine.leaves_in_use();
    'sweeps: for _ in 0..9 {
        engine.sweep_step();
    }
    let mut each = true;
    'merges: for _ in 0..8 {
        each = engine.merge_step()? && each;
    }
    let more = engine.merge_step()?;
    let merged = (engine.leaves_in_use(), engine.totals());
    engine.sweep_step();
    let freed = (engine.leaves_in_use(), engine.totals());
    Ok(((before, each, more), (merged, freed)))
}

/// Removes those of the vertices below the limit that 25 doesn't divide, in a transaction of their own.
fn commit_removals<E: StepEngine>(engine: &mut E, limit: u64) -> Result<(), Fail>
    requires closed { (E.account engine.old).start ≡ None }
    requires within { limit ≤ MAX_ID }
    ensures { OnOk result ((E.account engine.new).start ≡ None) }
{
    engine.begin()?;
    drop_vertices(engine, limit)?;
    engine.commit();
    Ok(())
}

/// Removes them in the open transaction.
fn drop_vertices<E: StepEngine>(engine: &mut E, limit: u64) -> Result<(), Fail>
    requires current { IsSome (E.account engine.old).start }
    requires within { limit ≤ MAX_ID }
    ensures { OnOk result (IsSome (E.account engine.new).start) }
{
    'vertices: for v in 1..limit {
        if v % 25 > 0 {
            engine.drop_vertex(v)?;
        }
    }
    Ok(())
}
