//! What two threads leave of one store.

use crate::visits::{Visited, visit_by_two};
use std::test::Fail;

#[test]
fn two_threads_change_each_cell_as_often_as_they_visit_it(rt: HostRuntime) -> Result<(), Fail> {
    let want = Visited {
        changed: 16,
        cells: 16,
        filled: 0,
    };
    assert_eq!(rt; visit_by_two(&rt, rt.alloc(), 1000)?, want);
    Ok(())
}
