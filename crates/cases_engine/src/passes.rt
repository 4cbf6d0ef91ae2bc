//! Passes: how many transactions one begins, and two that write the same vertex.

ghost use Rattle.std.specs.Prelude.{◌≡◌, Some, [], ◌∷◌, OnOk, slice_get, true, false};
ghost use Rattle.cases_engine.specs.Open.{SetsOpen, open_of};

use crate::transactions::{begin_in, commit_in};
use graph_model::{BeginRefusal, Begun, Cause, Kind, Refusal, StepEngine, TxnName};
use std::test::Fail;
use teseo_core::Core;
use txn_manager::Config;

#[test]
fn a_pass_begins_as_many_transactions_as_it_may(rt: HostRuntime) -> Result<(), Fail> {
    let config = Config {
        kind: Kind::Undirected,
        leaves: 4,
        passes: 3,
        txns_per_pass: 2,
    };
    let core = Core::new(rt.alloc(), config)?;
    let answers = begin_three_times(core)?;
    let first = Begun {
        by: TxnName { job: 1, number: 1 },
        start: 0,
    };
    let second = Begun {
        by: TxnName { job: 1, number: 2 },
        start: 0,
    };
    assert_eq!(rt; answers, (first, None, second, Err(BeginRefusal::TxnsUsed)));
    Ok(())
}

/// The second pass begins a transaction and commits it, begins one and takes it back, and begins a third one. Answers
/// what each begin and the commit were answered.
fn begin_three_times<E: StepEngine + Drop>(
    mut engine: E,
) -> Result<(Begun, Option<u64>, Begun, Result<Begun, BeginRefusal>), BeginRefusal>
    requires { slice_get (open_of (E.core engine)) 1 ≡ Some false }
{
    let first = begin_in(&mut engine, 1)?;
    let stamp = engine.commit();
    let second = engine.begin()?;
    engine.abort();
    Ok((first, stamp, second, engine.begin()))
}

#[test]
fn the_first_writer_of_a_vertex_wins(rt: HostRuntime) -> Result<(), Fail> {
    let config = Config {
        kind: Kind::Undirected,
        leaves: 4,
        passes: 3,
        txns_per_pass: 2,
    };
    let core = Core::new(rt.alloc(), config)?;
    let (winner, answers, stamp, seen) = add_by_two(core)?;
    let held = Cause::Holder { by: winner };
    let later = Cause::Later { stamp: 1 };
    assert_eq!(rt;
        (answers, stamp, seen),
        (
            (
                Ok(()),
                Err(Refusal::Conflict { cause: held }),
                Err(Refusal::Conflict { cause: later })
            ),
            Some(1),
            false
        )
    );
    Ok(())
}

/// What adding a vertex is answered.
type AddResult = Result<(), Refusal>;

/// Two passes add vertex 5, and the later one does again when the earlier one has committed. Answers the name of the
/// earlier one's transaction, what each adding was answered, the stamp, and whether the later one sees the vertex then.
fn add_by_two<E: StepEngine + Drop>(
    mut engine: E,
) -> Result<
    (
        TxnName,
        (AddResult, AddResult, AddResult),
        Option<u64>,
        bool,
    ),
    BeginRefusal,
>
    requires { open_of (E.core engine) ≡ false ∷ false ∷ false ∷ [] }
{
    let (winner, first) = begin_and_add(&mut engine, 1)?;
    let (_, second) = begin_and_add(&mut engine, 2)?;
    let stamp = commit_in(&mut engine, 1);
    let (third, seen) = add_and_look(&mut engine, 2);
    Ok((winner, (first, second, third), stamp, seen))
}

/// Selects the pass, begins a transaction, and adds vertex 5.
fn begin_and_add<E: StepEngine>(
    engine: &mut E,
    pass: u32,
) -> Result<(TxnName, AddResult), BeginRefusal>
    requires { slice_get (open_of (E.core engine.old)) pass ≡ Some false }
    ensures { OnOk result (SetsOpen pass true (E.core engine.old) (E.core engine.new)) }
{
    let begun = begin_in(engine, pass)?;
    Ok((begun.by, engine.add_vertex(5)))
}

/// Selects the pass, adds vertex 5 in its transaction, and looks whether it is there.
fn add_and_look<E: StepEngine>(engine: &mut E, pass: u32) -> (AddResult, bool)
    requires { slice_get (open_of (E.core engine.old)) pass ≡ Some true }
{
    engine.select(pass);
    (engine.add_vertex(5), engine.has_vertex(5))
}
