//! What a part of the rows lays of an image.
//!
//! 1. A vertex's row stands before those of its arcs, so its arcs begin where those of the rows before it end.
//! 2. Each part writes in slices of its own.

ghost use Rattle.std.specs.Prelude.{◌≡◌, ◌+◌, ◌<◌, ◌^◌, length};
ghost use Rattle.std.specs.List.{All, AllZip};
ghost use Rattle.graph_image.specs.Images.{IdsRise};
ghost use Rattle.graph_image.specs.Parts.{vertices_in, arcs_in, ids_of, starts_from, arc_rows, IsArcOf, IsPlaceable, IsShareOf};

use crate::edge::Arc;
use crate::place::place_of;
use graph_model::Row;

/// How many rows of a part are of vertices, and how many of arcs.
#[derive(Clone, Copy, Debug, PartialEq, Eq)]
pub struct Share {
    pub vertices: usize,
    pub arcs: usize,
}

/// The share of some rows.
pub fn share_of(rows: &[Row]) -> Share
    ensures { IsShareOf rows.now result }
{
    let mut share = Share {
        vertices: 0,
        arcs: 0,
    };
    'rows: for i in 0..rows.len() {
        // A key of a vertex's own row has 0 where an arc's has its target.
        if rows[i].key.second == 0 {
            share.vertices += 1;
        } else {
            share.arcs += 1;
        }
    }
    share
}

/// Writes the vertices of the rows, and where the arcs of each begin, with so many before all of them.
pub fn lay_vertices_of(rows: &[Row], before: usize, vertices: &mut [u64], starts: &mut [u32])
    requires few { before + arcs_in rows.now < 2 ^ 32 }
    requires vertices { length vertices.old ≡ vertices_in rows.now }
    requires starts { length starts.old ≡ vertices_in rows.now }
    ensures vertices { vertices.new ≡ ids_of rows.now }
    ensures starts { starts.new ≡ starts_from before rows.now }
{
    let mut place = 0;
    let mut arcs = before;
    'rows: for i in 0..rows.len() {
        let key = rows[i].key;
        if key.second == 0 {
            vertices[place] = key.src;
            starts[place] = arcs as u32;
            place += 1;
        } else {
            arcs += 1;
        }
    }
}

/// Writes the arcs of the rows, in their order.
pub fn lay_arcs_of(rows: &[Row], vertices: &[u64], arcs: &mut [Arc])
    requires rise { IdsRise vertices.now }
    requires few { length vertices.now < 2 ^ 32 }
    requires placeable { All (IsPlaceable vertices.now) rows.now }
    requires arcs { length arcs.old ≡ arcs_in rows.now }
    ensures { AllZip (IsArcOf vertices.now) (arc_rows rows.now) arcs.new }
{
    let mut at = 0;
    'rows: for i in 0..rows.len() {
        let row = rows[i];
        if row.key.second != 0 {
            let Some(other) = place_of(vertices, row.key.second - 1) else {
                unreachable!()
            };
            arcs[at] = Arc {
                other: other as u32,
                weight: row.weight as u32,
            };
            at += 1;
        }
    }
}
