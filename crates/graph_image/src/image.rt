//! The image: the vertices of a graph by their places, and the arcs out of and into each.
//!
//! 1. Ids rise from place to place, and the arcs at a place rise by the place of their other end.
//! 2. Where the arcs into each vertex are those out of it, as in an undirected graph, one list serves for both.

ghost use Rattle.std.specs.Prelude.{◌≡◌, ℕ, ◌<◌, ◌^◌, ◌==◌, length, slice_get, unwrap_or, Some, IfSome, IfNone, IsTrue};
ghost use Rattle.graph_image.specs.Images.{IdsRise, AreWithin, arcs_at, Listed};
ghost use Rattle.graph_image.specs.Edges.{IsListed};
ghost use Rattle.graph_image.specs.Fields.{IsImage};

use crate::adjacency::Adjacency;
use crate::edge::Arc;
use crate::place::place_of;
use std::marker::Model;

/// The vertices of a graph by their places, and the arcs out of and into each. That it is a graph's
/// image is `IsImageOf`.
#[derive(Drop)]
pub struct Image {
    vertices: Vec<u64>,
    out: Adjacency,
    /// None where the arcs out serve.
    into: Option<Adjacency>,
}

impl Model for Image {
    ghost use Rattle.graph_image.specs.Images.{Places};

    ghost Value = { Places };

    ghost use Rattle.graph_image.specs.Fields.{places_of, IsImage};

    ghost view = { places_of };

    ghost invariant = { λ image. IsImage (places_of image) };
}

impl Image {
    /// How many vertices there are. Of each image holds what `IsImage` says.
    pub fn len(&self) -> usize
        ensures image { IsImage self.now }
        ensures len { result ≡ length self.now.vertices }
        ensures few { result < 2 ^ 32 }
    {
        self.vertices.len()
    }

    pub fn is_empty(&self) -> bool
        ensures { result ≡ (length self.now.vertices == 0) }
    {
        self.vertices.is_empty()
    }

    /// Lends the ids in rising order.
    pub fn vertices(&self) -> &[u64]
        ensures ids { result.now ≡ self.now.vertices }
        ensures few { length result.now < 2 ^ 32 }
    {
        self.vertices.as_slice()
    }

    /// The place of a vertex: by its distance from the first where the ids are consecutive, else by a
    /// binary search.
    pub fn position(&self, v: u64) -> Option<usize>
        ensures found { IfSome result (λ place. slice_get self.now.vertices place ≡ Some v) }
        ensures absent { IfNone result ((place : ℕ) → slice_get self.now.vertices place ≡ Some v → ⊥) }
    {
        place_of(self.vertices.as_slice(), v)
    }

    /// Lends the arcs that lead from the vertex at a place, in rising order of the place they lead to.
    pub fn out(&self, place: usize) -> &[Arc]
        requires { place < length self.now.vertices }
        ensures arcs { result.now ≡ arcs_at self.now.out place }
        ensures within { AreWithin (length self.now.vertices) result.now }
    {
        self.out.at(place)
    }

    /// Lends the arcs that lead to the vertex at a place, in rising order of the place they come from.
    pub fn into(&self, place: usize) -> &[Arc]
        requires { place < length self.now.vertices }
        ensures arcs { result.now ≡ arcs_at self.now.into place }
        ensures within { AreWithin (length self.now.vertices) result.now }
    {
        match &self.into {
            Some(into) => into.at(place),
            None => self.out.at(place),
        }
    }

    /// Whether the arcs that lead to each vertex are known to be those that lead from it, so whoever wants both may
    /// read one of them.
    pub fn into_is_out(&self) -> bool
        ensures { IsTrue result → self.now.into ≡ self.now.out }
    {
        self.into.is_none()
    }
}

/// An image of these lists. The arcs out serve where there are none of their own for the arcs in.
pub fn image_of(vertices: Vec<u64>, out: Adjacency, into: Option<Adjacency>) -> Image
    requires ids { IdsRise vertices.items }
    requires few { length vertices.items < 2 ^ 32 }
    requires out { IsListed (length vertices.items) out }
    requires into { IfSome into (IsListed (length vertices.items)) }
    ensures { result ≡ record { vertices = vertices.items; out = out; into = unwrap_or into out } }
{
    Image {
        vertices,
        out,
        into,
    }
}
