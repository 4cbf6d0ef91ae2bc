//! Windows of segments, by rows of counts.

use density_tree::{Window, window_for_insert, window_for_sparse};
use std::test::Fail;

#[test]
fn the_smallest_window_is_taken(rt: HostRuntime) -> Result<(), Fail> {
    for (counts, seg, need, want) in [
        ([32, 27, 0, 0, 0, 0, 0, 0], 0, 1, Some((0, 2))),
        ([32, 27, 0, 0, 0, 0, 0, 0], 0, 2, Some((0, 4))),
        ([28, 28, 28, 32, 26, 26, 26, 25], 3, 1, None),
    ] {
        let got = window_for_insert(counts, seg, need);
        assert_eq!(rt; ends(got), want, "for {need} at {seg}");
    }
    for (counts, want) in [
        ([2, 9, 8, 8, 0, 0, 0, 0], None),
        ([2, 10, 0, 0, 0, 0, 0, 0], Some((0, 2))),
    ] {
        let got = window_for_sparse(counts, 0);
        assert_eq!(rt; ends(got), want, "round a sparse segment");
    }
    Ok(())
}

/// Where the window begins, and how many segments it has.
fn ends(window: Option<Window>) -> Option<(usize, usize)> {
    match window {
        Some(window) => Some((window.first, window.len)),
        None => None,
    }
}
