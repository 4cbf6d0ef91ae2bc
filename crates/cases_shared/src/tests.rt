//! What transactions of two passes see of each other.

use crate::begins::EndTwice;
use crate::case::run_case;
use crate::clashes::AddTheSame;
use crate::rows::{CommitThenLook, FillCell, ReadAroundSets};
use crate::two::{Added, CommitByTwo};
use graph_model::{BeginRefusal, Begun, Cause, Key, Kind, Refusal, TxnName};
use shared_store::below::Store;
use shared_store::{close, new};
use std::alloc::Global;
use std::test::Fail;
use txn_manager::{Config, StoreRefusal, Totals};

/// Two passes on four leaves.
const CONFIG: Config = Config {
    kind: Kind::Undirected,
    leaves: 4,
    passes: 2,
    txns_per_pass: 4294967295,
};

#[test]
fn a_write_tells_when_its_cell_is_full(rt: HostRuntime) -> Result<(), Fail> {
    let mut filled = FillCell {
        added: 0,
        needs: None,
    };
    run_case(&rt, rt.alloc(), CONFIG, &mut filled)?;
    let want = FillCell {
        added: 32,
        needs: Some((Key::of_vertex(33), 1)),
    };
    assert_eq!(rt; filled, want);
    Ok(())
}

#[test]
fn a_transaction_sees_what_another_pass_has_committed(rt: HostRuntime) -> Result<(), Fail> {
    let mut looked = CommitThenLook {
        stamp: None,
        seen: None,
    };
    run_case(&rt, rt.alloc(), CONFIG, &mut looked)?;
    let want = CommitThenLook {
        stamp: Some(1),
        seen: Some((1, true)),
    };
    assert_eq!(rt; looked, want);
    Ok(())
}

#[test]
fn a_snapshot_stays_while_another_pass_commits_often(rt: HostRuntime) -> Result<(), Fail> {
    let mut read = ReadAroundSets {
        times: 100_000,
        number: 0,
        weight: None,
    };
    run_case(&rt, rt.alloc(), CONFIG, &mut read)?;
    let want = ReadAroundSets {
        times: 100_000,
        number: 100_000,
        weight: Some(7),
    };
    assert_eq!(rt; read, want);
    Ok(())
}

#[test]
fn a_pass_begins_no_more_transactions_than_it_may(rt: HostRuntime) -> Result<(), Fail> {
    let mut ended = EndTwice {
        committed: None,
        aborted: None,
        refused: None,
    };
    let config = Config {
        txns_per_pass: 2,
        ..CONFIG
    };
    run_case(&rt, rt.alloc(), config, &mut ended)?;
    let want = EndTwice {
        committed: Some((by_second_pass(1), None)),
        aborted: Some(by_second_pass(2)),
        refused: Some(BeginRefusal::TxnsUsed),
    };
    assert_eq!(rt; ended, want);
    Ok(())
}

/// A transaction of the second pass, which begins before all commits.
fn by_second_pass(number: u32) -> Begun {
    Begun {
        by: TxnName { job: 1, number },
        start: 0,
    }
}

#[test]
fn a_refused_write_names_who_stands_against_it(rt: HostRuntime) -> Result<(), Fail> {
    let mut added = AddTheSame {
        added: false,
        stamp: None,
        before: None,
        afterwards: None,
        sees: true,
    };
    run_case(&rt, rt.alloc(), CONFIG, &mut added)?;
    let by = TxnName { job: 1, number: 1 };
    let want = AddTheSame {
        added: true,
        stamp: Some(1),
        before: Some(Refusal::Conflict {
            cause: Cause::Holder { by },
        }),
        afterwards: Some(Refusal::Conflict {
            cause: Cause::Later { stamp: 1 },
        }),
        sees: false,
    };
    assert_eq!(rt; added, want);
    Ok(())
}

#[test]
fn two_threads_commit_on_one_store(rt: HostRuntime) -> Result<(), Fail> {
    let mut added = CommitByTwo {
        one: Added::nothing(),
        two: Added::nothing(),
    };
    let closed = run_case(&rt, rt.alloc(), CONFIG, &mut added)?;
    let (first, second) = if added.one.stamp == Some(1) {
        (1, 2)
    } else {
        (2, 1)
    };
    let want = CommitByTwo {
        one: Added {
            has_met: true,
            stamp: Some(first),
        },
        two: Added {
            has_met: true,
            stamp: Some(second),
        },
    };
    let totals = Totals {
        vertices: 2,
        edges: 0,
        undo: 0,
        retired: 0,
    };
    assert_eq!(rt;
        (added, closed.journal.len(), closed.totals),
        (want, 2, totals)
    );
    Ok(())
}

#[test]
fn a_store_beyond_its_limits_is_refused(rt: HostRuntime) -> Result<(), Fail> {
    let refused = Some(StoreRefusal::TooLarge);
    for (leaves, passes, txns_per_pass, want) in [
        (0, 1, 1, refused),
        (131073, 3, 2, refused),
        (1, 0, 1, refused),
        (4, 65, 2, refused),
        (4, 3, 0, refused),
        (1, 64, 1, None),
        (100, 1, 4294967295, None),
    ] {
        let config = Config {
            leaves,
            passes,
            txns_per_pass,
            ..CONFIG
        };
        let made = Store::make(rt.alloc(), config).err();
        assert_eq!(rt;
            (made, refusal_of_new(rt.alloc(), config)),
            (want, want),
            "{leaves} leaves, {passes} passes, {txns_per_pass}"
        );
    }
    Ok(())
}

/// Why `new` refuses a configuration, if it does.
fn refusal_of_new(alloc: Global, config: Config) -> Option<StoreRefusal> {
    match new(alloc, config) {
        Ok((store, passes)) => {
            close(store, passes);
            None
        }
        Err(refused) => Some(refused),
    }
}
