//! Rows in, an image out.
//!
//! 1. The keys of the rows rise, so the sources do, and each new source is the last.
//! 2. A row keeps the place of its source among the sources.

ghost use Rattle.std.specs.Prelude.{◌≡◌, ◌+◌, ◌<◌, ◌≤◌, ◌^◌, [], ◌∷◌, ◌++◌, length, map, IfOk, IfSome, IfNone, OnOk, OnErr};
ghost use Rattle.graph_model.specs.Graph.{Graph};
ghost use Rattle.graph_model.specs.Rows.{AreRowsOf};
ghost use Rattle.graph_image.specs.Images.{IdsRise, IsImageOf};
ghost use Rattle.graph_image.specs.Edges.{AreEdges, IsListed, IsMirrored};
ghost use Rattle.graph_image.specs.Building.{AreStorable, AreEnded, shown, IsBuilt, Appends, HavePlaces, AreEdgesOf, HaveArcsOf};
ghost use Rattle.graph_image.specs.declared.edge.Side.TheVariants.{Into};

use crate::adjacency::Adjacency;
use crate::edge::{PlacedArc, Side};
use crate::image::{Image, image_of};
use crate::placed_row::{PlacedRow, edge_of};
use graph_model::{NoMemory, Row};
use items::RoomyItems;
use std::alloc::Global;
use std::marker::Model;

/// The rows that were pushed so far.
#[derive(Drop)]
pub struct Builder {
    alloc: Global,
    /// The sources of the rows, each once.
    sources: RoomyItems<u64>,
    /// All rows, each with the place of its source.
    rows: RoomyItems<PlacedRow>,
}

impl Model for Builder {
    ghost use Rattle.std.specs.Prelude.{List, map};
    ghost use Rattle.graph_model.specs.declared.row.Row.{Row};
    ghost use Rattle.graph_image.specs.Building.{shown, IsBuilt};

    ghost Value = { List Row };

    ghost view = { λ b. map (shown b.sources.items) b.rows.items };

    ghost invariant = { λ b. IsBuilt b.sources.items b.rows.items };
}

impl Builder {
    /// No rows. Takes no memory.
    pub fn new(alloc: Global) -> Builder
        ensures { result ≡ [] }
    {
        Builder {
            alloc,
            sources: RoomyItems::new(alloc),
            rows: RoomyItems::new(alloc),
        }
    }

    /// Appends rows.
    pub fn push(&mut self, rows: &[Row]) -> Result<(), NoMemory>
        requires { AreStorable (self.old ++ rows.now) }
        ensures ok { OnOk result (self.new ≡ self.old ++ rows.now) }
        ensures err { OnErr result (self.new ≡ self.old) }
    {
        // Each row may have a source of its own, and room for all is asked for once.
        self.sources.reserve(rows.len())?;
        self.rows.reserve(rows.len())?;
        'rows: for i in 0..rows.len() {
            append(&mut self.sources, &mut self.rows, rows[i]);
        }
        Ok(())
    }

    /// The image of the graph whose rows these are.
    pub fn finish(self) -> Result<Image, NoMemory>
        requires { AreEnded self }
        ensures { IfOk result (λ image. (g : Graph) → AreRowsOf self g → IsImageOf image g) }
    {
        let alloc = self.alloc;
        let vertices = self.sources.into_items().into_vec();
        let rows = self.rows.as_slice();
        let out = Adjacency::of_rows(alloc, vertices.as_slice(), rows)?;
        let into = into_of(alloc, vertices.as_slice(), rows, &out)?;
        Ok(image_of(vertices, out, into))
    }
}

/// Appends a row, with its source if that is new. There has to be room for both.
fn append(sources: &mut RoomyItems<u64>, rows: &mut RoomyItems<PlacedRow>, row: Row)
    requires built { IsBuilt sources.old.items rows.old.items }
    requires storable { AreStorable (map (shown sources.old.items) rows.old.items ++ row ∷ []) }
    requires room { (0 < sources.old.spare) × (0 < rows.old.spare) }
    ensures appended { Appends sources.old.items rows.old.items row sources.new.items rows.new.items }
    ensures room { (sources.old.spare ≤ sources.new.spare + 1) × (rows.old.spare ≤ rows.new.spare + 1) }
{
    let count = sources.len();
    // Sources rise, so a row has the last one or a new one: no set is asked.
    if count == 0 || sources.as_slice()[count - 1] != row.key.src {
        sources.push_within(row.key.src);
    }
    rows.push_within(PlacedRow {
        second: row.key.second,
        source: (sources.len() - 1) as u32,
        weight: row.weight as u32,
    });
}

/// The arcs into each place. None where the arcs out of it serve, since each goes the other way as well.
fn into_of(
    alloc: Global,
    sources: &[u64],
    rows: &[PlacedRow],
    out: &Adjacency,
) -> Result<Option<Adjacency>, NoMemory>
    requires built { IsBuilt sources.now rows.now }
    requires targets { HavePlaces sources.now rows.now }
    requires listed { IsListed (length sources.now) out.now }
    requires few { length out.now.arcs < 2 ^ 32 }
    ensures arcs { IfOk result (λ into. IfSome into (HaveArcsOf Into sources.now rows.now)) }
    ensures listed { IfOk result (λ into. IfSome into (IsListed (length sources.now))) }
    ensures mirrored { IfOk result (λ into. IfNone into (IsMirrored (length sources.now) out.now)) }
{
    let count = sources.len();
    // A look at each arc is cheaper than the arrays that it may save, and half of the image's memory is theirs.
    if out.is_mirrored(alloc, count)? {
        return Ok(None);
    }
    let edges = edges_of(alloc, sources, rows)?;
    let into = Adjacency::of(alloc, Side::Into, count, edges.as_slice())?;
    Ok(Some(into))
}

/// The edges of the rows, in their order.
fn edges_of(alloc: Global, sources: &[u64], rows: &[PlacedRow]) -> Result<Vec<PlacedArc>, NoMemory>
    requires built { IsBuilt sources.now rows.now }
    requires targets { HavePlaces sources.now rows.now }
    ensures edges { IfOk result (λ edges. AreEdgesOf sources.now rows.now (length rows.now) edges.items) }
    ensures within { IfOk result (λ edges. AreEdges (length sources.now) edges.items) }
{
    let mut edges = Vec::with_capacity(alloc, rows.len())?;
    'rows: for i in 0..rows.len() {
        if let Some(edge) = edge_of(sources, rows[i]) {
            edges.push(edge)?;
        }
    }
    Ok(edges)
}
