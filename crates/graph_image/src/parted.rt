//! An image of rows in lists, made by several threads.
//!
//! 1. The rows of each list are counted first, so each thread writes into slices of its own and none waits.
//! 2. An array has its length before a thread writes into it, so no thread takes memory.

ghost use Rattle.std.specs.Prelude.{◌≡◌, List, ◌+◌, ◌<◌, ◌^◌, [], ◌∷◌, ◌++◌, length, IfOk};
ghost use Rattle.std.specs.List.{AllZip};
ghost use Rattle.graph_model.specs.declared.row.Row.{Row};
ghost use Rattle.graph_model.specs.declared.write.Kind.TheVariants.{Undirected};
ghost use Rattle.graph_model.specs.Graph.{Graph, IsSymmetric};
ghost use Rattle.graph_model.specs.Rows.{AreRowsOf};
ghost use Rattle.part_scan.specs.Parts.{rows_in};
ghost use Rattle.graph_image.specs.Images.{IsImageOf};
ghost use Rattle.graph_image.specs.Building.{AreStorable, AreEnded};
ghost use Rattle.graph_image.specs.Parts.{vertices_in, arcs_in, ids_of, starts_from, AreLaidOut, IsShareOf};

use crate::adjacency::Adjacency;
use crate::edge::Arc;
use crate::image::{Image, image_of};
use crate::part::Share;
use crate::parts::{lay_arcs, lay_vertices, shares_of, total_of};
use graph_model::{Kind, NoMemory};
use part_scan::{RowList, RowLists};
use std::alloc::Global;
use std::thread::Threads;

impl Image {
    /// The image of the graph whose rows these lists are, one behind the other, by a thread for each list. Who says
    /// that it is undirected says that each arc has one that leads back, with the same weight: nobody looks.
    pub fn from_parts<R: Threads + Sync>(
        rt: &R,
        alloc: Global,
        kind: Kind,
        parts: &RowLists,
    ) -> Result<Image, NoMemory>
        requires storable { AreStorable (rows_in parts.now) }
        requires ended { AreEnded (rows_in parts.now) }
        ensures { IfOk result (λ image. (g : Graph) → AreRowsOf (rows_in parts.now) g
            → (kind ≡ Undirected → IsSymmetric g) → IsImageOf image g) }
    {
        let (vertices, out) = out_of(rt, alloc, parts.as_slice())?;
        with_arcs_in(alloc, kind, vertices, out)
    }
}

/// The image of rows whose arcs out are laid. The arcs in are made where those out don't serve, which of an undirected
/// graph is known and of another is looked at.
pub fn with_arcs_in(
    alloc: Global,
    kind: Kind,
    vertices: Vec<u64>,
    out: Adjacency,
) -> Result<Image, NoMemory>
    requires laid { (rows : List Row) × AreStorable rows × AreEnded rows × AreLaidOut rows vertices.items out }
    ensures { IfOk result (λ image. (rows : List Row) (g : Graph) → AreStorable rows → AreEnded rows
        → AreLaidOut rows vertices.items out → AreRowsOf rows g → (kind ≡ Undirected → IsSymmetric g)
        → IsImageOf image g) }
{
    let count = vertices.len();
    if kind == Kind::Undirected || out.is_mirrored(alloc, count)? {
        return Ok(image_of(vertices, out, None));
    }
    let into = out.turned(alloc, count)?;
    Ok(image_of(vertices, out, Some(into)))
}

/// The vertices of the rows, and the arcs out of each.
pub fn out_of<R: Threads + Sync>(
    rt: &R,
    alloc: Global,
    lists: &[RowList],
) -> Result<(Vec<u64>, Adjacency), NoMemory>
    requires storable { AreStorable (rows_in lists.now) }
    requires ended { AreEnded (rows_in lists.now) }
    ensures { IfOk result (λ made. AreLaidOut (rows_in lists.now) made.0.items made.1) }
{
    let shares = shares_of(rt, alloc, lists)?;
    let total = total_of(lists, shares.as_slice());
    // All arrays have their length before a thread writes: each gets a slice of its own, and none waits for another.
    let mut vertices = vec![in alloc; 0u64; total.vertices]?;
    let mut starts = vec![in alloc; 0u32; total.vertices + 1]?;
    lay_starts(
        rt,
        lists,
        shares.as_slice(),
        total,
        vertices.as_mut_slice(),
        starts.as_mut_slice(),
    );
    let blank = Arc {
        other: 0,
        weight: 0,
    };
    let mut arcs = vec![in alloc; blank; total.arcs]?;
    lay_arcs(
        rt,
        lists,
        shares.as_slice(),
        vertices.as_slice(),
        arcs.as_mut_slice(),
    );
    Ok((vertices, Adjacency::of_arrays(starts, arcs)))
}

/// Writes the vertices of the rows, where the arcs of each begin, and behind these how many there are.
fn lay_starts<R: Threads + Sync>(
    rt: &R,
    lists: &[RowList],
    shares: &[Share],
    total: Share,
    vertices: &mut [u64],
    starts: &mut [u32],
)
    requires shares { AllZip IsShareOf lists.now shares.now }
    requires total { IsShareOf (rows_in lists.now) total }
    requires few { length (rows_in lists.now) < 2 ^ 32 }
    requires vertices { length vertices.old ≡ vertices_in (rows_in lists.now) }
    requires starts { length starts.old ≡ vertices_in (rows_in lists.now) + 1 }
    ensures vertices { vertices.new ≡ ids_of (rows_in lists.now) }
    ensures starts { starts.new ≡ starts_from 0 (rows_in lists.now) ++ arcs_in (rows_in lists.now) ∷ [] }
{
    // The last number is no vertex's start but where all arcs end, so no part writes it.
    let (each, end) = starts.split_at_mut(total.vertices);
    end[0] = total.arcs as u32;
    lay_vertices(rt, lists, shares, 0, vertices, each);
}
