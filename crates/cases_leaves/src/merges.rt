//! Leaves that lose rows: windows that are spread, and neighbours of which one leaf is made.

use crate::vertex_store::VertexStore;
use graph_model::NoMemory;
use leaf_store::LeafStore;
use std::process::Abort;
use std::test::Fail;

/// Rows that are put, of which those in two ranges are taken back; and what is left then: how many steps there were to
/// do, how many leaves are live and retired, a vertex, and the counts from its segment on.
#[derive(Clone, Copy)]
struct MergeCase {
    rows: u32,
    gone: [(u32, u32); 2],
    steps: u32,
    leaves: (u32, u32),
    first: u32,
    counts: [usize; 8],
}

// Of 220 rows 110 are in each of two leaves. The last five segments of the left one keep 6, 14, 14, 13 and 13, and the
// last four of the right one 4 or 5 and 13, 13 and 14. No window has enough to be spread, and 104 rows are few enough
// for one leaf, which divides them evenly.
//
// Of 600 rows 110 are in the first of five leaves, 108 in each of the next three, and 166 in the fifth. Without the
// first 16 the first leaf has a segment with none and one with 12, which is enough to spread both. Where the last 11
// alone are left they stand in one segment, which is too few to spread. So four leaves become one with the next one.
// Where the last 50 are left they stand in two segments, which are spread over four before any leaves become one.
#[test]
fn leaves_that_lose_rows_are_spread_and_become_one(rt: HostRuntime) -> Result<(), Fail> {
    for case in [
        MergeCase {
            rows: 220,
            gone: [(0, 50), (110, 176)],
            steps: 1,
            leaves: (1, 1),
            first: 50,
            counts: [13, 13, 13, 13, 13, 13, 13, 13],
        },
        MergeCase {
            rows: 220,
            gone: [(0, 50), (110, 175)],
            steps: 0,
            leaves: (2, 0),
            first: 50,
            counts: [6, 14, 14, 13, 13, 0, 0, 0],
        },
        MergeCase {
            rows: 600,
            gone: [(0, 16), (0, 0)],
            steps: 1,
            leaves: (5, 0),
            first: 16,
            counts: [6, 6, 14, 14, 14, 14, 13, 13],
        },
        MergeCase {
            rows: 600,
            gone: [(0, 550), (0, 0)],
            steps: 5,
            leaves: (1, 4),
            first: 550,
            counts: [7, 7, 6, 6, 6, 6, 6, 6],
        },
        MergeCase {
            rows: 600,
            gone: [(0, 589), (0, 0)],
            steps: 4,
            leaves: (1, 4),
            first: 589,
            counts: [2, 2, 2, 1, 1, 1, 1, 1],
        },
    ] {
        let store = LeafStore::new(rt.alloc(), 8)?;
        check(&rt, store, case)?;
    }
    Ok(())
}

/// Asserts what the case says of the store, which has no rows.
fn check<S: VertexStore + Drop>(
    rt: &impl Abort,
    mut store: S,
    case: MergeCase,
) -> Result<(), Fail> {
    'more: for id in 0..case.rows {
        store.put(id)?;
    }
    'ranges: for (from, until) in case.gone {
        'fewer: for id in from..until {
            store.take_back(id);
        }
    }
    let steps = merge_all(&mut store)?;
    let got = (steps, store.leaves(), store.counts(case.first));
    let want = (case.steps, case.leaves, case.counts);
    assert_eq!(rt; got, want, "{rows} rows", rows = case.rows);
    Ok(())
}

/// Merges until nothing is left to do, or a hundred times, and answers in how many steps.
fn merge_all<S: VertexStore>(store: &mut S) -> Result<u32, NoMemory> {
    'steps: for step in 0..100 {
        if !store.merge_step()? {
            return Ok(step);
        }
    }
    Ok(100)
}

// Of the vertices 1 to 600 the second leaf has those from 111 on, and the fifth those from 435 on. Free leaves are
// taken from the last one on, so the second leaf's number is greater than the fifth's. The first two segments of both
// have 14 rows each. Where the first ones lose 13, both have a window of 15 rows to be spread, 8 and 7.
#[test]
fn the_first_window_in_key_order_is_spread_first(rt: HostRuntime) -> Result<(), Fail> {
    let store = LeafStore::new(rt.alloc(), 8)?;
    check_order(&rt, store)
}

/// Asserts in which order two windows are spread, in a store that has no rows.
fn check_order<S: VertexStore + Drop>(rt: &impl Abort, mut store: S) -> Result<(), Fail> {
    'more: for id in 1..601 {
        store.put(id)?;
    }
    'ranges: for (from, until) in [(435, 448), (111, 124)] {
        'fewer: for id in from..until {
            store.take_back(id);
        }
    }
    for (step, want) in [(0, (1, 1)), (1, (8, 1)), (2, (8, 8))] {
        if step > 0 {
            assert_eq!(rt; store.merge_step()?, true, "step {step}");
        }
        let got = (store.counts(124)[0], store.counts(448)[0]);
        assert_eq!(rt; got, want, "behind {step} steps");
    }
    Ok(())
}
