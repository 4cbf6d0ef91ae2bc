//! Breadth-first search.

use crate::graphs::{assert_table, path, ring};
use graph_image::{Image, KernelRefusal};
use graph_model::NO_WALK;
use std::alloc::Global;
use std::process::Abort;
use std::test::Fail;
use std::thread::Threads;

/// Asserts the distances from a root.
fn assert_distances<R: Threads + Sync + Abort>(
    rt: &R,
    alloc: Global,
    image: &Image,
    root: u64,
    want: &[(u64, u64)],
) -> Result<(), Fail> {
    let table = kernel_bfs::run(rt, alloc, image, root)?;
    assert_table(rt, alloc, &table, want, "bfs")
}

#[test]
fn each_vertex_has_its_least_number_of_arcs(rt: HostRuntime) -> Result<(), Fail> {
    let alloc = rt.alloc();
    let path = path(alloc)?;
    let distances = [(1, 0), (2, 1), (3, 2), (4, NO_WALK)];
    assert_distances(&rt, alloc, &path, 1, &distances)?;
    let ring = ring(alloc)?;
    assert_distances(&rt, alloc, &ring, 2, &[(1, 2), (2, 0), (3, 1)])
}

#[test]
fn no_search_begins_where_no_vertex_is(rt: HostRuntime) -> Result<(), Fail> {
    let alloc = rt.alloc();
    let path = path(alloc)?;
    let no_root = kernel_bfs::run(&rt, alloc, &path, 9).err();
    assert_eq!(&rt; no_root, Some(KernelRefusal::NoRoot), "bfs from 9");
    let no_root = kernel_sssp::run(&rt, alloc, &path, 9).err();
    assert_eq!(&rt; no_root, Some(KernelRefusal::NoRoot), "sssp from 9");
    let no_root = kernel_sssp::run_by_width(&rt, alloc, &path, 9, 1).err();
    assert_eq!(&rt; no_root, Some(KernelRefusal::NoRoot), "fastsssp from 9");
    Ok(())
}
