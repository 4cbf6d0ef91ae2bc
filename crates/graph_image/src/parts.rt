//! The arrays of an image, laid by parts side by side.
//!
//! 1. Vertices and arcs are counted first, so each part knows where in the arrays it writes, and no list is
//!    made in between.
//! 2. The parts are cut in two, over and over, until each thread has one.

ghost use Rattle.std.specs.Prelude.{◌≡◌, ◌<◌, ◌^◌, List, length, slice_get, Some, IfOk};
ghost use Rattle.graph_model.specs.declared.row.Row.{Row};
ghost use Rattle.std.specs.List.{All, AllZip};
ghost use Rattle.std.specs.Thread.{IsSync};
ghost use Rattle.part_scan.specs.Parts.{rows_in};
ghost use Rattle.graph_image.specs.Images.{IdsRise};
ghost use Rattle.graph_image.specs.Parts.{arcs_in, ids_of, starts_from, arc_rows, IsArcOf, IsPlaceable, IsShareOf, FitVertices, FitArcs};

use crate::edge::Arc;
use crate::part::{Share, lay_arcs_of, lay_vertices_of, share_of};
use graph_model::NoMemory;
use part_scan::RowList;
use std::alloc::Global;
use std::thread::{Threads, join_mut, map_indices};

/// The share of each list, counted side by side.
pub fn shares_of<R: Threads + Sync>(
    rt: &R,
    alloc: Global,
    lists: &[RowList],
) -> Result<Vec<Share>, NoMemory>
    ensures { IfOk result (λ shares. AllZip IsShareOf lists.now shares.items) }
{
    let shares = map_indices(
        rt,
        alloc,
        lists.len(),
        &|i: usize| -> Share
            requires { i < length lists.now }
            ensures { (rows : List Row) → slice_get lists.entry.now i ≡ Some rows → IsShareOf rows result }
        { share_of(lists[i].as_slice()) },
    )?;
    Ok(shares)
}

/// The share of all lists, whose own shares were counted by all threads before: it adds up a few numbers, and looks at
/// no row.
pub fn total_of(lists: &[RowList], shares: &[Share]) -> Share
    requires shares { AllZip IsShareOf lists.now shares.now }
    requires few { length (rows_in lists.now) < 2 ^ 32 }
    ensures { IsShareOf (rows_in lists.now) result }
{
    let mut total = Share {
        vertices: 0,
        arcs: 0,
    };
    'shares: for i in 0..shares.len() {
        total.vertices += shares[i].vertices;
        total.arcs += shares[i].arcs;
    }
    total
}

/// Writes the vertices of all lists, and where the arcs of each begin, with so many before all of them.
#[cycle(vertices)]
pub fn lay_vertices<R: Threads + Sync>(
    rt: &R,
    lists: &[RowList],
    shares: &[Share],
    before: usize,
    vertices: &mut [u64],
    starts: &mut [u32],
)
    requires fit { FitVertices lists.now shares.now before vertices.old starts.old }
    ensures vertices { vertices.new ≡ ids_of (rows_in lists.now) }
    ensures starts { starts.new ≡ starts_from before (rows_in lists.now) }
{
    let count = lists.len();
    if count == 0 {
        return;
    }
    if count == 1 {
        lay_vertices_of(lists[0].as_slice(), before, vertices, starts);
        return;
    }
    let (front, back) = lists.split_at(count / 2);
    let (front_shares, back_shares) = shares.split_at(count / 2);
    let share = total_of(front, front_shares);
    let (front_vertices, back_vertices) = vertices.split_at_mut(share.vertices);
    let (front_starts, back_starts) = starts.split_at_mut(share.vertices);
    let behind = before + share.arcs;
    both_vertices(
        rt,
        front,
        front_shares,
        before,
        front_vertices,
        front_starts,
        back,
        back_shares,
        behind,
        back_vertices,
        back_starts,
    );
}

/// Writes what the first lists and the others lay, side by side.
#[cycle(vertices)]
fn both_vertices<R: Threads + Sync>(
    rt: &R,
    front: &[RowList],
    front_shares: &[Share],
    before: usize,
    front_ids: &mut [u64],
    front_starts: &mut [u32],
    back: &[RowList],
    back_shares: &[Share],
    behind: usize,
    back_ids: &mut [u64],
    back_starts: &mut [u32],
)
    requires some_front { 0 < length front.now }
    requires some_back { 0 < length back.now }
    requires front { FitVertices front.now front_shares.now before front_ids.old front_starts.old }
    requires back { FitVertices back.now back_shares.now behind back_ids.old back_starts.old }
    ensures front { (front_ids.new ≡ ids_of (rows_in front.now))
        × (front_starts.new ≡ starts_from before (rows_in front.now)) }
    ensures back { (back_ids.new ≡ ids_of (rows_in back.now))
        × (back_starts.new ≡ starts_from behind (rows_in back.now)) }
{
    let mut left = ||
        requires { IsSync R.row × FitVertices front.now front_shares.now before front_ids.now front_starts.now }
        ensures { (front_ids.exit.now ≡ ids_of (rows_in front.entry.now))
            × (front_starts.exit.now ≡ starts_from before (rows_in front.entry.now)) }
    { lay_vertices(rt, front, front_shares, before, front_ids, front_starts) };
    let mut right = ||
        requires { IsSync R.row × FitVertices back.now back_shares.now behind back_ids.now back_starts.now }
        ensures { (back_ids.exit.now ≡ ids_of (rows_in back.entry.now))
            × (back_starts.exit.now ≡ starts_from behind (rows_in back.entry.now)) }
    { lay_vertices(rt, back, back_shares, behind, back_ids, back_starts) };
    join_mut(rt, &mut left, &mut right);
}

/// Writes the arcs of all lists, in the order of their rows.
#[cycle(arcs)]
pub fn lay_arcs<R: Threads + Sync>(
    rt: &R,
    lists: &[RowList],
    shares: &[Share],
    vertices: &[u64],
    arcs: &mut [Arc],
)
    requires shares { AllZip IsShareOf lists.now shares.now }
    requires short { length (rows_in lists.now) < 2 ^ 32 }
    requires rise { IdsRise vertices.now }
    requires few { length vertices.now < 2 ^ 32 }
    requires placeable { All (IsPlaceable vertices.now) (rows_in lists.now) }
    requires arcs { length arcs.old ≡ arcs_in (rows_in lists.now) }
    ensures { AllZip (IsArcOf vertices.now) (arc_rows (rows_in lists.now)) arcs.new }
{
    let count = lists.len();
    if count == 0 {
        return;
    }
    if count == 1 {
        lay_arcs_of(lists[0].as_slice(), vertices, arcs);
        return;
    }
    let (front, back) = lists.split_at(count / 2);
    let (front_shares, back_shares) = shares.split_at(count / 2);
    let share = total_of(front, front_shares);
    let (front_arcs, back_arcs) = arcs.split_at_mut(share.arcs);
    both_arcs(
        rt,
        vertices,
        front,
        front_shares,
        front_arcs,
        back,
        back_shares,
        back_arcs,
    );
}

/// Writes the arcs of the first lists and those of the others, side by side.
#[cycle(arcs)]
fn both_arcs<R: Threads + Sync>(
    rt: &R,
    vertices: &[u64],
    front: &[RowList],
    front_shares: &[Share],
    front_arcs: &mut [Arc],
    back: &[RowList],
    back_shares: &[Share],
    back_arcs: &mut [Arc],
)
    requires rise { IdsRise vertices.now }
    requires few { length vertices.now < 2 ^ 32 }
    requires some_front { 0 < length front.now }
    requires some_back { 0 < length back.now }
    requires front { FitArcs vertices.now front.now front_shares.now front_arcs.old }
    requires back { FitArcs vertices.now back.now back_shares.now back_arcs.old }
    ensures front_arcs { AllZip (IsArcOf vertices.now) (arc_rows (rows_in front.now)) front_arcs.new }
    ensures back_arcs { AllZip (IsArcOf vertices.now) (arc_rows (rows_in back.now)) back_arcs.new }
{
    let mut left = ||
        requires { IsSync R.row × IdsRise vertices.now × (length vertices.now < 2 ^ 32)
            × FitArcs vertices.now front.now front_shares.now front_arcs.now }
        ensures { AllZip (IsArcOf vertices.entry.now) (arc_rows (rows_in front.entry.now)) front_arcs.exit.now }
    { lay_arcs(rt, front, front_shares, vertices, front_arcs) };
    let mut right = ||
        requires { IsSync R.row × IdsRise vertices.now × (length vertices.now < 2 ^ 32)
            × FitArcs vertices.now back.now back_shares.now back_arcs.now }
        ensures { AllZip (IsArcOf vertices.entry.now) (arc_rows (rows_in back.entry.now)) back_arcs.exit.now }
    { lay_arcs(rt, back, back_shares, vertices, back_arcs) };
    join_mut(rt, &mut left, &mut right);
}
