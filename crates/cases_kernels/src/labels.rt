//! Components, and the labels of communities.

use crate::graphs::{arrows, assert_table, chain, path};
use std::test::Fail;

#[test]
fn each_vertex_has_the_least_of_its_component(rt: HostRuntime) -> Result<(), Fail> {
    let alloc = rt.alloc();
    let chain = chain(alloc)?;
    let table = kernel_wcc::run(&rt, alloc, &chain)?;
    let components = [(1, 1), (3, 1), (7, 7), (9, 1)];
    assert_table(&rt, alloc, &table, &components, "arcs that lead down")?;
    let path = path(alloc)?;
    let table = kernel_wcc::run(&rt, alloc, &path)?;
    let components = [(1, 1), (2, 1), (3, 1), (4, 4)];
    assert_table(&rt, alloc, &table, &components, "one alone")
}

#[test]
fn each_vertex_takes_the_label_that_it_meets_most_often(rt: HostRuntime) -> Result<(), Fail> {
    let alloc = rt.alloc();
    let arrows = arrows(alloc)?;
    let table = kernel_cdlp::run(&rt, alloc, &arrows, 0)?;
    assert_table(&rt, alloc, &table, &[(1, 1), (2, 2), (3, 3)], "no round")?;
    let table = kernel_cdlp::run(&rt, alloc, &arrows, 1)?;
    assert_table(&rt, alloc, &table, &[(1, 3), (2, 1), (3, 1)], "either way")?;
    let path = path(alloc)?;
    let table = kernel_cdlp::run(&rt, alloc, &path, 1)?;
    let labels = [(1, 2), (2, 1), (3, 2), (4, 4)];
    assert_table(&rt, alloc, &table, &labels, "one round")?;
    let table = kernel_cdlp::run(&rt, alloc, &path, 2)?;
    let labels = [(1, 1), (2, 2), (3, 1), (4, 4)];
    assert_table(&rt, alloc, &table, &labels, "two rounds")
}
