//! What a worker is answered.

use crate::case::run_case;
use crate::rows::{AddEachSecond, AddVertices, BeginOften, CutBack, ScanOften, ServeOften};
use crate::three::run_together;
use graph_model::{BeginRefusal, Begun, Kind, Refusal, TxnName};
use std::test::Fail;
use txn_manager::Config;

/// One pass on four leaves.
const CONFIG: Config = Config {
    kind: Kind::Directed,
    leaves: 4,
    passes: 1,
    txns_per_pass: 4,
};

/// Nothing was done yet.
fn add_vertices(count: u32) -> AddVertices {
    AddVertices {
        count,
        added: 0,
        refused: None,
        stamp: None,
        seen: 0,
    }
}

/// The second of three passes, while the others do nothing.
#[test]
fn a_pass_begins_as_often_as_it_may(rt: HostRuntime) -> Result<(), Fail> {
    let config = Config {
        kind: Kind::Undirected,
        leaves: 4,
        passes: 3,
        txns_per_pass: 2,
    };
    let mut often = BeginOften {
        committed: None,
        aborted: None,
        refused: None,
    };
    let mut first = ServeOften {
        turns: 0,
        changed: 0,
        still: 0,
    };
    let mut third = first;
    run_together(&rt, rt.alloc(), config, &mut first, &mut often, &mut third)?;
    let want = BeginOften {
        committed: Some((by_second_pass(1), None)),
        aborted: Some(by_second_pass(2)),
        refused: Some(BeginRefusal::TxnsUsed),
    };
    assert_eq!(rt; often, want);
    Ok(())
}

/// A transaction of the second pass, which begins before all commits.
fn by_second_pass(number: u32) -> Begun {
    Begun {
        by: TxnName { job: 1, number },
        start: 0,
    }
}

#[test]
fn writes_make_the_room_that_they_need(rt: HostRuntime) -> Result<(), Fail> {
    let mut rows = add_vertices(500);
    let closed = run_case(&rt, rt.alloc(), CONFIG, &mut rows)?;
    let want = AddVertices {
        count: 500,
        added: 500,
        refused: None,
        stamp: Some(1),
        seen: 500,
    };
    assert_eq!(rt; rows, want);
    assert_eq!(rt; closed.totals.vertices, 500);
    Ok(())
}

#[test]
fn a_store_without_a_free_leaf_is_full(rt: HostRuntime) -> Result<(), Fail> {
    let config = Config {
        leaves: 1,
        ..CONFIG
    };
    let mut rows = add_vertices(500);
    run_case(&rt, rt.alloc(), config, &mut rows)?;
    assert_eq!(rt; rows.refused, Some(Refusal::Full { leaves: 1 }));
    assert!(rt; rows.added >= 103);
    assert_eq!(rt; rows.seen, rows.added);
    Ok(())
}

#[test]
fn turns_of_the_service_come_to_an_end(rt: HostRuntime) -> Result<(), Fail> {
    let mut cut = CutBack {
        vertices: add_vertices(500),
        service: ServeOften {
            turns: 60,
            changed: 0,
            still: 0,
        },
    };
    let closed = run_case(&rt, rt.alloc(), CONFIG, &mut cut)?;
    assert!(rt; cut.service.changed > 0);
    assert!(rt; cut.service.still > 20);
    assert_eq!(rt; closed.totals.vertices, 50);
    Ok(())
}

/// Each thread adds 150 vertices, so 300 rows come into a leaf that has 256 places. A scan sees none of a transaction's
/// rows, or all.
#[test]
fn two_threads_split_a_leaf_while_a_third_scans(rt: HostRuntime) -> Result<(), Fail> {
    let config = Config {
        passes: 3,
        txns_per_pass: 100,
        ..CONFIG
    };
    let mut odd = AddEachSecond {
        first: 1,
        count: 150,
        added: 0,
        is_committed: false,
    };
    let mut even = AddEachSecond { first: 2, ..odd };
    let mut scans = ScanOften {
        rounds: 50,
        multiple: 150,
        scans: 0,
        odd: None,
    };
    let closed = run_together(&rt, rt.alloc(), config, &mut odd, &mut even, &mut scans)?;
    assert_eq!(rt; (odd.added, odd.is_committed), (150, true));
    assert_eq!(rt; (even.added, even.is_committed), (150, true));
    assert_eq!(rt; (scans.scans, scans.odd), (50, None));
    assert_eq!(rt; closed.totals.vertices, 300);
    Ok(())
}
