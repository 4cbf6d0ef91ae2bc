//! Where an id stands among rising ids.
//!
//! 1. Consecutive ids need no search. It is asked for each arc of an image, so this is worth a case of its own.

ghost use Rattle.std.specs.Prelude.{◌≡◌, ℕ, slice_get, IfSome, IfNone};
ghost use Rattle.graph_image.specs.Images.{IdsRise};

/// The place of an id: by its distance from the first where the ids are consecutive, else by a binary search.
pub fn place_of(ids: &[u64], id: u64) -> Option<usize>
    requires { IdsRise ids.now }
    ensures found { IfSome result (λ place. slice_get ids.now place ≡ Some id) }
    ensures absent { IfNone result ((place : ℕ) → slice_get ids.now place ≡ Some id → ⊥) }
{
    let count = ids.len();
    if count == 0 {
        return None;
    }
    let first = ids[0];
    let last = ids[count - 1];
    if id < first || last < id {
        return None;
    }
    if last - first == count as u64 - 1 {
        return Some((id - first) as usize);
    }
    ids.binary_search(&id).ok()
}
