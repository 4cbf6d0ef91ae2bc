//! What tries to read without a latch find.

use crate::busy::ReadHeldCell;
use crate::routes::{OldRoute, run_with_route};
use crate::rows::{ReadOwnWrite, ReadRuns, ReadSettled};
use crate::settled::AddAndServe;
use crate::txns::FoundRun;
use cases_shared::run_case;
use cases_workers::below::{Tried, TriedRun};
use cases_workers::{AddVertices, CutBack, ServeOften};
use graph_model::{Key, Kind};
use std::test::Fail;
use txn_manager::Config;

/// Three passes on four leaves.
const CONFIG: Config = Config {
    kind: Kind::Undirected,
    leaves: 4,
    passes: 3,
    txns_per_pass: 2,
};

fn found(tried: TriedRun, loaded: usize) -> Option<FoundRun> {
    Some(FoundRun { tried, loaded })
}

#[test]
fn a_cell_that_another_pass_holds_is_busy(rt: HostRuntime) -> Result<(), Fail> {
    let mut read = ReadHeldCell {
        held: None,
        held_run: None,
        free: None,
        free_run: None,
    };
    run_case(&rt, rt.alloc(), CONFIG, &mut read)?;
    let want = ReadHeldCell {
        held: Some(Tried::Busy {
            cell: 0,
            first: 1,
            second: 1,
        }),
        held_run: found(
            TriedRun::Busy {
                cell: 0,
                first: 1,
                second: 1,
            },
            0,
        ),
        free: Some(Tried::Value { weight: None }),
        free_run: found(
            TriedRun::Rows {
                end: Key::of_vertex(9),
            },
            0,
        ),
    };
    assert_eq!(rt; read, want);
    Ok(())
}

#[test]
fn a_row_with_an_open_write_is_chained(rt: HostRuntime) -> Result<(), Fail> {
    let mut read = ReadOwnWrite { tried: None };
    run_case(&rt, rt.alloc(), CONFIG, &mut read)?;
    let want = ReadOwnWrite {
        tried: Some(Tried::Chained {
            cell: 0,
            key: Key::of_vertex(5),
        }),
    };
    assert_eq!(rt; read, want);
    Ok(())
}

#[test]
fn a_settled_row_is_read_in_its_cell_alone(rt: HostRuntime) -> Result<(), Fail> {
    let mut read = ReadSettled {
        there: None,
        missing: None,
        elsewhere: None,
    };
    run_case(&rt, rt.alloc(), CONFIG, &mut read)?;
    let want = ReadSettled {
        there: Some(Tried::Value { weight: Some(0) }),
        missing: Some(Tried::Value { weight: None }),
        elsewhere: Some(Tried::Moved {
            low: Key::END,
            high: Key::END,
        }),
    };
    assert_eq!(rt; read, want);
    Ok(())
}

/// Of 30 settled rows three are from vertex 7 to 9, and 24 from 7 on. A row of one's own write is chained: a run stops
/// before it.
#[test]
fn a_run_ends_with_its_range_or_its_cell(rt: HostRuntime) -> Result<(), Fail> {
    let mut read = ReadRuns {
        few: None,
        all: None,
        elsewhere: None,
        few_again: None,
        all_again: None,
    };
    run_case(&rt, rt.alloc(), CONFIG, &mut read)?;
    let few = TriedRun::Rows {
        end: Key::of_vertex(10),
    };
    let moved = TriedRun::Moved {
        low: Key::END,
        high: Key::END,
    };
    let chained = TriedRun::Chained {
        key: Key::of_vertex(31),
        end: Key::END,
    };
    let want = ReadRuns {
        few: found(few, 3),
        all: found(TriedRun::Rows { end: Key::END }, 24),
        elsewhere: found(moved, 0),
        few_again: found(few, 3),
        all_again: found(chained, 24),
    };
    assert_eq!(rt; read, want);
    Ok(())
}

/// Nothing was done yet.
fn add_vertices(count: u32) -> AddVertices {
    AddVertices {
        count,
        added: 0,
        refused: None,
        stamp: None,
        seen: 0,
    }
}

fn serve_often(turns: u32) -> ServeOften {
    ServeOften {
        turns,
        changed: 0,
        still: 0,
    }
}

/// The 33rd vertex spreads the rows of the first cell over two, 16 in each.
#[test]
fn a_cell_whose_rows_were_spread_has_other_keys(rt: HostRuntime) -> Result<(), Fail> {
    let mut before = serve_often(0);
    let mut rows = add_vertices(33);
    let found = run_with_route(&rt, rt.alloc(), CONFIG, 40, &mut before, &mut rows)?;
    let missing = Tried::Value { weight: None };
    let want = OldRoute {
        first: missing,
        later: Tried::Moved {
            low: Key::of_vertex(0),
            high: Key::of_vertex(17),
        },
        again: missing,
    };
    assert_eq!(rt; found, Some(want));
    assert_eq!(rt; rows.added, 33);
    Ok(())
}

/// 40 vertices take two cells. Once turns of the service have swept them, none of which changes a cell any more, the
/// first of them are read without a latch.
#[test]
fn a_vertex_that_the_service_has_swept_is_read_in_its_cell(rt: HostRuntime) -> Result<(), Fail> {
    let mut before = AddAndServe {
        vertices: add_vertices(40),
        service: serve_often(60),
    };
    let mut nothing = serve_often(0);
    let found = run_with_route(&rt, rt.alloc(), CONFIG, 7, &mut before, &mut nothing)?;
    let there = Tried::Value { weight: Some(0) };
    let want = OldRoute {
        first: there,
        later: there,
        again: there,
    };
    assert_eq!(rt; found, Some(want));
    assert_eq!(rt; before.vertices.added, 40);
    assert!(rt; before.service.still > 20);
    Ok(())
}

/// Of 500 vertices each tenth is left, and turns of the service make one leaf of all. The transaction began before
/// these turns, so the leaf of its route isn't given out again.
#[test]
fn the_cells_of_a_merged_leaf_have_no_keys(rt: HostRuntime) -> Result<(), Fail> {
    let config = Config {
        txns_per_pass: 4,
        ..CONFIG
    };
    let mut cut = CutBack {
        vertices: add_vertices(500),
        service: serve_often(0),
    };
    let mut service = serve_often(60);
    let found = run_with_route(&rt, rt.alloc(), config, 491, &mut cut, &mut service)?;
    let Some(found) = found else {
        return Err(Fail::new("no transaction began"));
    };
    assert_eq!(rt; found.first, Tried::Value { weight: Some(0) });
    let want = Tried::Moved {
        low: Key::END,
        high: Key::END,
    };
    assert_eq!(rt; found.later, want);
    assert_eq!(rt; found.again, Tried::Value { weight: Some(0) });
    Ok(())
}
