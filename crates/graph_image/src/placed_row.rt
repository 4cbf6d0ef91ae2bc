//! A row whose source is known by its place.
//!
//! 1. Rows come in the order of their sources, so only the place of the target is searched for.

ghost use Rattle.std.specs.Prelude.{◌≡◌, ℕ, ◌-◌, ◌<◌, ◌^◌, length, slice_get, Some, IfSome, IfNone};
ghost use Rattle.graph_image.specs.Images.{IdsRise};
ghost use Rattle.graph_image.specs.Building.{IsEdge};

use crate::edge::PlacedArc;
use crate::place::place_of;

/// A row, with the place of its source in place of the source.
#[derive(Clone, Copy, Debug, PartialEq, Eq)]
pub struct PlacedRow {
    pub second: u64,
    pub source: u32,
    pub weight: u32,
}

/// The edge of an arc's row; none of a vertex's own row.
pub fn edge_of(sources: &[u64], row: PlacedRow) -> Option<PlacedArc>
    requires rise { IdsRise sources.now }
    requires few { length sources.now < 2 ^ 32 }
    requires target { 0 < row.second → (q : ℕ) × (slice_get sources.now q ≡ Some (row.second - 1)) }
    ensures edge { IfSome result (IsEdge sources.now row) }
    ensures vertex { IfNone result (row.second ≡ 0) }
{
    if row.second == 0 {
        return None;
    }
    let to = place_of(sources, row.second - 1)?;
    Some(PlacedArc {
        from: row.source,
        to: to as u32,
        weight: row.weight,
    })
}
