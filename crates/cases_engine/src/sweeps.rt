//! Sweeps: what an open transaction keeps from them, and a leaf that is swept whole.

ghost use Rattle.std.specs.Prelude.{◌≡◌, Some, [], ◌∷◌, slice_get, true, false};
ghost use Rattle.teseo_core.specs.Keeping.{NoneOpen};
ghost use Rattle.cases_engine.specs.Open.{open_of};

use crate::leaf_engine::LeafEngine;
use crate::transactions::{begin_in, commit_vertices};
use graph_model::{Kind, StepEngine};
use std::test::Fail;
use teseo_core::Core;
use txn_manager::{Config, Totals};

#[test]
fn a_sweep_leaves_what_an_open_transaction_reads(rt: HostRuntime) -> Result<(), Fail> {
    let config = Config {
        kind: Kind::Directed,
        leaves: 2,
        passes: 2,
        txns_per_pass: 3,
    };
    let core = Core::new(rt.alloc(), config)?;
    let went = sweep_beside_a_reader(core)?;
    assert_eq!(rt; went, (false, false, true), "whether a record went");
    Ok(())
}

/// The first pass adds 40 vertices while the second one has a transaction open. Answers whether a sweep takes a record
/// away then, whether that transaction sees a vertex, and whether a sweep takes one away when it has ended.
fn sweep_beside_a_reader<E: LeafEngine + Drop>(mut engine: E) -> Result<(bool, bool, bool), Fail>
    requires { open_of (E.core engine) ≡ false ∷ false ∷ [] }
{
    begin_in(&mut engine, 1)?;
    engine.select(0);
    commit_vertices(&mut engine, 41)?;
    let early = engine.sweep_step();
    let seen = look_and_commit(&mut engine, 1);
    let late = engine.sweep_step();
    Ok((early, seen, late))
}

/// Selects the pass, looks for vertex 7 in its transaction, and commits that.
fn look_and_commit<E: StepEngine>(engine: &mut E, pass: u32) -> bool
    requires { slice_get (open_of (E.core engine.old)) pass ≡ Some true }
{
    engine.select(pass);
    let seen = engine.has_vertex(7);
    engine.commit();
    seen
}

#[test]
fn a_leaf_is_swept_whole(rt: HostRuntime) -> Result<(), Fail> {
    let config = Config {
        kind: Kind::Undirected,
        leaves: 4,
        passes: 3,
        txns_per_pass: 2,
    };
    let core = Core::new(rt.alloc(), config)?;
    let (merged, swept, totals) = sweep_a_leaf(core)?;
    let only_vertices = Totals {
        vertices: 33,
        edges: 0,
        undo: 0,
        retired: 0,
    };
    assert_eq!(rt;
        (merged, swept),
        ((true, false), (true, false)),
        "whether there was something to do"
    );
    assert_eq!(rt; totals, (only_vertices, only_vertices), "what is left");
    Ok(())
}

/// Adds 33 vertices, makes two steps of merging and two sweeps, and settles the store. Answers whether each step and
/// each sweep found something to do, and what is left before the store is settled and after it.
fn sweep_a_leaf<E: LeafEngine + Drop>(
    mut engine: E,
) -> Result<((bool, bool), (bool, bool), (Totals, Totals)), Fail>
    requires { NoneOpen (E.core engine) }
{
    commit_vertices(&mut engine, 34)?;
    let merged = (engine.merge_step()?, engine.merge_step()?);
    let swept = (engine.sweep_step(), engine.sweep_step());
    let totals = engine.totals();
    engine.settle();
    Ok((merged, swept, (totals, engine.totals())))
}
