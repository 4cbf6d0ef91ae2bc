//! Rings: ways by which money comes back to who paid it.
//!
//! 1. A search tells how many hops each account is away. Going back by the fewest hops gives a shortest ring.
//! 2. The way back takes no more steps than there are accounts.

ghost use Rattle.std.specs.Prelude.{◌≡◌, ◌<◌, Some, IfOk, IfSome, length, slice_get};
ghost use Rattle.graph_model.specs.Graph.{Graph};
ghost use Rattle.graph_image.specs.Images.{IsImageOf};
ghost use Rattle.desk.specs.Rings.{IsEndOf, IsRing};

use crate::refusal::LookRefusal;
use graph_image::{Arc, Entry, Image, NoMemory, Value};
use std::alloc::Global;
use std::thread::Threads;

/// A shortest way by which money that an account pays comes back to it, if there is one: the account, then who paid it,
/// then who paid that one, and so on, and the last was paid by the account.
pub fn ring_of<R: Threads + Sync>(
    rt: &R,
    alloc: Global,
    image: &Image,
    account: u64,
) -> Result<Option<Vec<u64>>, LookRefusal>
    ensures { IfOk result (λ found. IfSome found (λ ring. (g : Graph) → IsImageOf image.now g → IsRing g ring.items)) }
{
    let Some(place) = image.position(account) else {
        return Ok(None);
    };
    let hops = kernel_bfs::run(rt, alloc, image, account)?;
    Ok(way_back(alloc, image, hops.as_slice(), place)?)
}

/// Goes from a place to who is nearest to it among those who paid it, in hops from that place, until it is there again.
fn way_back(
    alloc: Global,
    image: &Image,
    hops: &[Entry],
    root: usize,
) -> Result<Option<Vec<u64>>, NoMemory>
    requires { root < length image.now.vertices }
    ensures { IfOk result (λ found. IfSome found (λ ring. (g : Graph) → IsImageOf image.now g → IsRing g ring.items)) }
{
    let ids = image.vertices();
    let mut ring = Vec::new(alloc);
    ring.push(ids[root])?;
    let mut place = root;
    'payers: for _payer in 0..ids.len() {
        let Some(payer) = nearest(image.into(place), hops) else {
            return Ok(None);
        };
        if payer == root {
            return Ok(Some(ring));
        }
        ring.push(ids[payer])?;
        place = payer;
    }
    Ok(None)
}

/// The other end of an arc that has the fewest hops, if one can be reached at all.
fn nearest(arcs: &[Arc], hops: &[Entry]) -> Option<usize>
    ensures { IfSome result (IsEndOf arcs.now) }
{
    let mut best = None;
    let mut fewest = hops.len() as u64;
    'arcs: for arc in arcs {
        let place = arc.other as usize;
        if let Some(Value::Number { n }) = hops.get(place).map(|entry| entry.value) {
            if n < fewest {
                fewest = n;
                best = Some(place);
            }
        }
    }
    best
}
