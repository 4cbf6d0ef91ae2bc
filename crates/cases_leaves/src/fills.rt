//! Rows that come in the order of their keys, until windows are spread, a leaf is split, and all leaves are full.

use crate::vertex_store::VertexStore;
use leaf_store::LeafStore;
use std::process::Abort;
use std::test::Fail;
use txn_manager::RoomRefusal;

#[test]
fn a_leaf_fills_up_and_is_split(rt: HostRuntime) -> Result<(), Fail> {
    let store = LeafStore::new(rt.alloc(), 2)?;
    fill_and_split(&rt, store)
}

/// Puts rows into the first of two leaves until it is split.
fn fill_and_split<S: VertexStore + Drop>(rt: &impl Abort, mut store: S) -> Result<(), Fail> {
    let mut last = 0;
    for (rows, want) in [
        (33, [16, 17, 0, 0, 0, 0, 0, 0]),
        (49, [24, 25, 0, 0, 0, 0, 0, 0]),
        (57, [28, 29, 0, 0, 0, 0, 0, 0]),
        (61, [15, 15, 15, 16, 0, 0, 0, 0]),
        (204, [26, 26, 26, 25, 25, 25, 25, 26]),
        (211, [26, 26, 26, 25, 25, 25, 29, 29]),
        (215, [26, 26, 26, 25, 28, 28, 28, 28]),
        (219, [26, 26, 26, 25, 28, 28, 28, 32]),
        (220, [14, 14, 14, 14, 14, 14, 13, 13]),
    ] {
        'more: for id in last..rows {
            store.put(id)?;
        }
        last = rows;
        assert_eq!(rt; store.counts(0), want, "with {rows} rows");
    }
    let right = [14, 14, 14, 14, 14, 13, 13, 14];
    assert_eq!(rt;
        (store.counts(110), store.leaves()),
        (right, (2, 0)),
        "the right leaf"
    );
    Ok(())
}

#[test]
fn one_leaf_is_full_with_219_rows(rt: HostRuntime) -> Result<(), Fail> {
    let store = LeafStore::new(rt.alloc(), 1)?;
    let (rows, refusal) = fill(store);
    let full = RoomRefusal::Full { leaves: 1 };
    assert_eq!(rt; (rows, refusal), (219, Some(full)));
    Ok(())
}

/// Puts rows until one is refused, or 300 are there. Answers how many are, and the refusal.
fn fill<S: VertexStore + Drop>(mut store: S) -> (u32, Option<RoomRefusal>) {
    'more: for id in 0..300 {
        if let Err(refusal) = store.put(id) {
            return (id, Some(refusal));
        }
    }
    (300, None)
}
