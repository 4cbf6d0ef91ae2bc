//! A round along the arcs out of the frontier, on one thread.
//!
//! 1. A small frontier has few arcs, which threads wouldn't share out in less time than one follows them.

ghost use Rattle.std.specs.Prelude.{◌≡◌, ℕ, ◌+◌, ◌<◌, [], length, slice_get, Some, OnOk};
ghost use Rattle.graph_image.specs.Images.{AreWithin, arcs_at};
ghost use Rattle.kernel_bfs.specs.Levels.{Spreads, IsFrontier, FromListed, AtEnd};
ghost use Rattle.kernel_bfs.specs.declared.levels.TheConstants.{UNREACHED};

use crate::levels::UNREACHED;
use graph_image::{Arc, Image, NoMemory};

/// Reaches each place that an arc leads to from the frontier.
pub fn top_down(
    image: &Image,
    level: u32,
    frontier: &Vec<u32>,
    distances: &mut Vec<u32>,
    next: &mut Vec<u32>,
) -> Result<(), NoMemory>
    requires level { level + 1 < UNREACHED }
    requires count { length distances.old.items ≡ length image.now.vertices }
    requires within { (k p : ℕ) → slice_get frontier.now.items k ≡ Some p → p < length distances.old.items }
    ensures { OnOk result (Spreads (FromListed image.now frontier.now.items (length frontier.now.items)) (level + 1)
        distances.old.items next.old.items distances.new.items next.new.items) }
{
    'frontier: for i in 0..frontier.len() {
        let arcs = image.out(frontier[i] as usize);
        follow(arcs, level + 1, distances, next)?;
    }
    Ok(())
}

/// Reaches the place at the other end of each arc.
fn follow(
    arcs: &[Arc],
    distance: u32,
    distances: &mut Vec<u32>,
    next: &mut Vec<u32>,
) -> Result<(), NoMemory>
    requires distance { distance < UNREACHED }
    requires within { AreWithin (length distances.old.items) arcs.now }
    ensures { OnOk result (Spreads (AtEnd arcs.now (length arcs.now)) distance
        distances.old.items next.old.items distances.new.items next.new.items) }
{
    'arcs: for i in 0..arcs.len() {
        let other = arcs[i].other;
        if distances[other as usize] == UNREACHED {
            distances[other as usize] = distance;
            next.push(other)?;
        }
    }
    Ok(())
}
