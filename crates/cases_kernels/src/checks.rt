//! Whether rows are those of a graph.

ghost use Rattle.std.specs.Prelude.{◌≡◌, ℕ, slice_get, Some, IsTrue, IfOk};
ghost use Rattle.graph_model.specs.Rows.{is_below};
ghost use Rattle.graph_image.specs.Building.{AreStorable, AreEnded, HasVertexRow};

use graph_model::{Key, MAX_WEIGHT, NoMemory, Row};
use std::alloc::Global;

/// Whether keys are told to rise, with weights within their limit.
pub fn are_storable(rows: &[Row]) -> bool
    ensures { IsTrue result → AreStorable rows.now }
{
    if rows.len() >= 4294967296 {
        return false;
    }
    'rows: for i in 0..rows.len() {
        if rows[i].weight > MAX_WEIGHT {
            return false;
        }
        if i > 0 && !is_less(rows[i - 1].key, rows[i].key) {
            return false;
        }
    }
    true
}

/// Whether the first key is below the second.
fn is_less(low: Key, high: Key) -> bool
    ensures { result ≡ is_below low high }
{
    low < high
}

/// Whether the vertices are told to be consecutive from 1 on, and the ends of all arcs to be among them.
pub fn are_ended(alloc: Global, rows: &[Row]) -> Result<bool, NoMemory>
    ensures { IfOk result (λ told. IsTrue told → AreEnded rows.now) }
{
    let vertices = vertices_of(alloc, rows)?;
    'rows: for i in 0..rows.len() {
        let key = rows[i].key;
        if !is_vertex(vertices.as_slice(), key.src) {
            return Ok(false);
        }
        if key.second > 0 && !is_vertex(vertices.as_slice(), key.second - 1) {
            return Ok(false);
        }
    }
    Ok(true)
}

/// The ids that have a row of their own.
fn vertices_of(alloc: Global, rows: &[Row]) -> Result<Vec<u64>, NoMemory>
    ensures { IfOk result (λ vertices. (i v : ℕ) → slice_get vertices.items i ≡ Some v → HasVertexRow rows.now v) }
{
    let mut vertices = Vec::new(alloc);
    'rows: for i in 0..rows.len() {
        let key = rows[i].key;
        if key.second == 0 {
            vertices.push(key.src)?;
        }
    }
    Ok(vertices)
}

/// Whether an id is told to be one of these, which it is where it stands at its own number.
fn is_vertex(vertices: &[u64], id: u64) -> bool
    ensures { IsTrue result → (i : ℕ) × (slice_get vertices.now i ≡ Some id) }
{
    if id == 0 {
        return false;
    }
    let place = id as usize - 1;
    place < vertices.len() && vertices[place] == id
}
