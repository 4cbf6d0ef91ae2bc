//! Shortest paths by buckets, of the graph's width and of three others.

use crate::graphs::{INFINITE, assert_table, ring, triangle};
use graph_image::Image;
use std::alloc::Global;
use std::process::Abort;
use std::test::Fail;
use std::thread::Threads;

/// Asserts the least weights from a root, by either kernel.
fn assert_weights<R: Threads + Sync + Abort>(
    rt: &R,
    alloc: Global,
    image: &Image,
    root: u64,
    want: &[(u64, u64)],
) -> Result<(), Fail> {
    let table = kernel_sssp::run(rt, alloc, image, root)?;
    assert_table(rt, alloc, &table, want, "sssp")?;
    let table = kernel_sssp::run_by_width(rt, alloc, image, root, 1)?;
    assert_table(rt, alloc, &table, want, "fastsssp, narrow")?;
    let table = kernel_sssp::run_by_width(rt, alloc, image, root, 4)?;
    assert_table(rt, alloc, &table, want, "fastsssp")?;
    let table = kernel_sssp::run_by_width(rt, alloc, image, root, 4294967295)?;
    assert_table(rt, alloc, &table, want, "fastsssp, wide")
}

#[test]
fn each_vertex_has_its_least_weight(rt: HostRuntime) -> Result<(), Fail> {
    let alloc = rt.alloc();
    let triangle = triangle(alloc)?;
    let weights = [(1, 0), (2, 5), (3, 6), (4, INFINITE)];
    assert_weights(&rt, alloc, &triangle, 1, &weights)?;
    let ring = ring(alloc)?;
    assert_weights(&rt, alloc, &ring, 2, &[(1, 2), (2, 0), (3, 1)])
}
