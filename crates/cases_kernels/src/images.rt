//! Images of rows in parts.

ghost use Rattle.graph_image.specs.Building.{AreStorable, AreEnded};

use crate::graphs::{image_of, rows_of};
use graph_image::Image;
use graph_model::{Kind, Row};
use part_scan::cut_rows;
use std::alloc::Global;
use std::process::Abort;
use std::test::Fail;
use std::thread::Threads;

/// Edges from 1 to 2 and from 2 to 3 that have no direction, and a vertex 4 alone.
#[test]
fn parts_give_the_image_of_edges(rt: HostRuntime) -> Result<(), Fail> {
    let alloc = rt.alloc();
    let rows = rows_of(
        alloc,
        &[
            (1, 0, 0),
            (1, 3, 1),
            (2, 0, 0),
            (2, 2, 1),
            (2, 4, 1),
            (3, 0, 0),
            (3, 3, 1),
            (4, 0, 0),
        ],
    )?;
    let kinds = [Kind::Undirected, Kind::Directed];
    assert_same_in_parts(&rt, alloc, &kinds, rows.as_slice())
}

/// Arcs from 1 to 3, from 3 to 1 and from 2 to 1.
#[test]
fn parts_give_the_image_of_arcs(rt: HostRuntime) -> Result<(), Fail> {
    let alloc = rt.alloc();
    let rows = rows_of(
        alloc,
        &[
            (1, 0, 0),
            (1, 4, 1),
            (2, 0, 0),
            (2, 2, 1),
            (3, 0, 0),
            (3, 2, 1),
        ],
    )?;
    assert_same_in_parts(&rt, alloc, &[Kind::Directed], rows.as_slice())
}

/// Asserts that the image of the rows in 1, 2 and 7 parts, of a graph of each of these kinds, is that of a builder.
pub fn assert_same_in_parts<R: Threads + Sync + Abort>(
    rt: &R,
    alloc: Global,
    kinds: &[Kind],
    rows: &[Row],
) -> Result<(), Fail>
    requires storable { AreStorable rows.now }
    requires ended { AreEnded rows.now }
{
    let whole = image_of(alloc, rows)?;
    for parts in [1, 2, 7] {
        let lists = cut_rows(alloc, rows, parts)?;
        for kind in kinds {
            let image = Image::from_parts(rt, alloc, *kind, &lists)?;
            assert_same(rt, &image, &whole, parts)?;
        }
    }
    Ok(())
}

/// Asserts that both images show the same.
fn assert_same<R: Abort>(rt: &R, image: &Image, whole: &Image, parts: u32) -> Result<(), Fail> {
    assert_eq!(rt; image.vertices(), whole.vertices(), "{parts} parts");
    for place in 0..image.len().min(whole.len()) {
        assert_eq!(rt;
            image.out(place),
            whole.out(place),
            "{parts} parts, out of {place}"
        );
        assert_eq!(rt;
            image.into(place),
            whole.into(place),
            "{parts} parts, into {place}"
        );
    }
    Ok(())
}
