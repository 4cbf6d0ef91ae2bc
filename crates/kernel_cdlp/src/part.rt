//! Parts of the places.
//!
//! 1. Parts have about as many arcs each, and not as many places: a few places have most of the arcs.
//! 2. A part has room for the labels that its places meet, taken once, so a round takes no memory.
//! 3. A place none of whose neighbours has changed keeps its label, without a look at it.

ghost use Rattle.std.specs.Prelude.{◌≡◌, ◌+◌, ◌<◌, ◌≤◌, length, IfOk, IsTrue};
ghost use Rattle.graph_image.specs.Images.{arcs_at, AreWithin};
ghost use Rattle.kernel_cdlp.specs.Rounds.{AreBelow, IsNextLabel, HaveNotChanged, IsQuiet, IsKept, IsRoused};
ghost use Rattle.kernel_cdlp.specs.Parts.{IsPart, IsRelabelled, AreParts};

use crate::frequency::{meet, most_frequent};
use graph_image::{Arc, Image, NoMemory};
use std::alloc::Global;

/// A part has about so many arcs: enough to be worth a thread, and few enough to share out evenly.
const PART_ARCS: usize = 65536;

/// Places one after the other, with what a round needs for them.
#[derive(Drop)]
pub struct Part {
    /// The first of the places.
    pub first: usize,
    /// The label of each after the round.
    pub labels: Vec<u32>,
    /// Room for the labels that one of them meets.
    pub met: Vec<u32>,
}

impl Part {
    /// Gives each place of the part its label after a round.
    pub fn relabel(&mut self, image: &Image, labels: &[u32], changed: &[bool], awake: &[bool])
        requires part { IsPart image.now self.old }
        requires labels { AreBelow (length image.now.vertices) labels.now }
        requires kept { IsKept image.now labels.now changed.now }
        requires roused { IsRoused image.now changed.now awake.now }
        ensures { IsRelabelled image.now labels.now self.old self.new }
    {
        'places: for k in 0..self.labels.len() {
            let place = self.first + k;
            let label = next_label(
                image,
                labels,
                changed,
                awake,
                place,
                self.met.as_mut_slice(),
            );
            self.labels[k] = label;
        }
    }
}

/// The parts of all places.
pub fn parts_of(alloc: Global, image: &Image) -> Result<Vec<Part>, NoMemory>
    ensures { IfOk result (λ parts. AreParts image.now (length image.now.vertices) parts.items) }
{
    let mut parts = Vec::new(alloc);
    let mut first = 0;
    'parts: while first < image.len() {
        let part = part_from(alloc, image, first)?;
        let next = first + part.labels.len();
        parts.push(part)?;
        first = next;
    }
    Ok(parts)
}

/// The part that begins with a place.
fn part_from(alloc: Global, image: &Image, first: usize) -> Result<Part, NoMemory>
    requires { first < length image.now.vertices }
    ensures first { IfOk result (λ part. part.first ≡ first) }
    ensures some { IfOk result (λ part. 0 < length part.labels.items) }
    ensures part { IfOk result (IsPart image.now) }
{
    let places = image.len();
    let mut count = 0usize;
    let mut arcs = 0usize;
    let mut room = 0usize;
    // By arcs, with one for each place, so that places without arcs fill a part too.
    'places: while first + count < places && arcs < PART_ARCS {
        let here = image.out(first + count).len() + image.into(first + count).len();
        arcs = arcs.saturating_add(here + 1);
        room = room.max(here);
        count += 1;
    }
    let labels = vec![in alloc; 0u32; count]?;
    let met = vec![in alloc; 0u32; room]?;
    Ok(Part { first, labels, met })
}

/// Whether none of the labels that a place meets has changed.
fn is_quiet(image: &Image, changed: &[bool], place: usize) -> bool
    requires place { place < length image.now.vertices }
    requires count { length changed.now ≡ length image.now.vertices }
    ensures { IsTrue result → IsQuiet image.now changed.now place }
{
    have_not_changed(image.out(place), changed)
        && (image.into_is_out() || have_not_changed(image.into(place), changed))
}

/// Whether none of the labels at the other ends of the arcs has changed.
fn have_not_changed(arcs: &[Arc], changed: &[bool]) -> bool
    requires { AreWithin (length changed.now) arcs.now }
    ensures { IsTrue result → HaveNotChanged changed.now arcs.now }
{
    'arcs: for i in 0..arcs.len() {
        if changed[arcs[i].other as usize] {
            return false;
        }
    }
    true
}

/// The label of a place after a round. Where its arcs in are those out, it reads these alone: each label
/// would stand twice as often.
fn next_label(
    image: &Image,
    labels: &[u32],
    changed: &[bool],
    awake: &[bool],
    place: usize,
    met: &mut [u32],
) -> u32
    requires place { place < length image.now.vertices }
    requires labels { AreBelow (length image.now.vertices) labels.now }
    requires kept { IsKept image.now labels.now changed.now }
    requires roused { IsRoused image.now changed.now awake.now }
    requires room { length (arcs_at image.now.out place) + length (arcs_at image.now.into place) ≤ length met.old }
    ensures { IsNextLabel image.now labels.now place result }
{
    if !awake[place] {
        return labels[place];
    }
    if is_quiet(image, changed, place) {
        return labels[place];
    }
    let out = image.out(place);
    meet(out, labels, met, 0);
    // As in an undirected graph: each label would be met twice, which changes none.
    if image.into_is_out() {
        return most_frequent(&mut met[..out.len()], labels[place]);
    }
    let into = image.into(place);
    meet(into, labels, met, out.len());
    most_frequent(&mut met[..out.len() + into.len()], labels[place])
}
