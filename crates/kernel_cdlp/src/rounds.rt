//! Rounds over all places.
//!
//! 1. All places take their labels from those before the round, so parts may go side by side in any order, and each
//!    reads one list and writes another.
//! 2. Which labels have changed is marked after each round, so that the next one passes over places where nothing can
//!    change.

ghost use Rattle.std.specs.Prelude.{◌≡◌, ◌<◌, ◌^◌, length, IfOk, OnOk};
ghost use Rattle.std.specs.List.{range_with_len};
ghost use Rattle.graph_model.specs.Graph.{Graph};
ghost use Rattle.graph_image.specs.Images.{IsImageOf};
ghost use Rattle.kernel_cdlp.specs.Rounds.{AreBelow, AreLabels, IsRound, IsKept, IsRoused, AreMarked};
ghost use Rattle.kernel_cdlp.specs.Parts.{IsPart, IsRelabelled, AreParts, AreRelabelled};

use crate::awake::wake;
use crate::part::{Part, parts_of};
use graph_image::{Image, NoMemory};
use rayon::prelude::*;
use std::alloc::Global;
use std::mem;
use std::thread::Threads;

/// The label of each place after so many rounds, as a place.
pub fn labels_after<R: Threads + Sync>(
    rt: &R,
    alloc: Global,
    image: &Image,
    rounds: u32,
) -> Result<Vec<u32>, NoMemory>
    ensures below { IfOk result (λ labels. AreBelow (length image.now.vertices) labels.items) }
    ensures labels { IfOk result (λ labels. (g : Graph) → IsImageOf image.now g
        → AreLabels g image.now.vertices rounds labels.items) }
{
    let count = image.len();
    let mut labels = first_labels(alloc, count)?;
    let mut before = Vec::with_capacity(alloc, count)?;
    let mut changed = vec![in alloc; true; count]?;
    let mut awake = vec![in alloc; true; count]?;
    let mut parts = parts_of(alloc, image)?;
    'rounds: for _round in 0..rounds {
        // All parts read one list and the labels go into the other, so a round sees none of its own labels.
        mem::swap(&mut before, &mut labels);
        round(
            rt,
            image,
            before.as_slice(),
            changed.as_slice(),
            awake.as_slice(),
            &mut parts,
            &mut labels,
        )?;
        mark(before.as_slice(), labels.as_slice(), &mut changed);
        wake(image, changed.as_slice(), &mut awake);
    }
    Ok(labels)
}

/// Each place as its own label.
fn first_labels(alloc: Global, count: usize) -> Result<Vec<u32>, NoMemory>
    requires { count < 2 ^ 32 }
    ensures { IfOk result (λ labels. labels.items ≡ range_with_len 0 count) }
{
    let mut labels = Vec::with_capacity(alloc, count)?;
    'places: for place in 0..count {
        labels.push(place as u32)?;
    }
    Ok(labels)
}

/// Marks the places whose labels differ.
fn mark(before: &[u32], after: &[u32], changed: &mut Vec<bool>)
    requires before { length before.now ≡ length after.now }
    requires count { length changed.old.items ≡ length after.now }
    ensures { AreMarked before.now after.now changed.new.items }
{
    'places: for place in 0..after.len() {
        changed[place] = after[place] != before[place];
    }
}

/// A round: the parts side by side, and then their labels one after the other.
fn round<R: Threads + Sync>(
    rt: &R,
    image: &Image,
    before: &[u32],
    changed: &[bool],
    awake: &[bool],
    parts: &mut Vec<Part>,
    labels: &mut Vec<u32>,
) -> Result<(), NoMemory>
    requires parts { AreParts image.now (length image.now.vertices) parts.old.items }
    requires labels { AreBelow (length image.now.vertices) before.now }
    requires kept { IsKept image.now before.now changed.now }
    requires roused { IsRoused image.now changed.now awake.now }
    ensures parts { AreParts image.now (length image.now.vertices) parts.new.items }
    ensures ok { OnOk result (IsRound image.now before.now labels.new.items) }
{
    relabel_each(rt, image, before, changed, awake, parts.as_mut_slice());
    labels.clear();
    'parts: for i in 0..parts.len() {
        labels.extend_from_slice(parts[i].labels.as_slice())?;
    }
    Ok(())
}

/// Gives the places of each part their labels.
fn relabel_each<R: Threads + Sync>(
    rt: &R,
    image: &Image,
    labels: &[u32],
    changed: &[bool],
    awake: &[bool],
    parts: &mut [Part],
)
    requires parts { AreParts image.now (length image.now.vertices) parts.old }
    requires labels { AreBelow (length image.now.vertices) labels.now }
    requires kept { IsKept image.now labels.now changed.now }
    requires roused { IsRoused image.now changed.now awake.now }
    ensures parts { AreParts image.now (length image.now.vertices) parts.new }
    ensures labels { AreRelabelled image.now labels.now parts.new }
{
    par_for_each_mut(
        rt,
        parts,
        |_place: usize, part: &mut Part|
            requires { IsPart image.now part.old × AreBelow (length image.now.vertices) labels.now
                × IsKept image.now labels.now changed.now × IsRoused image.now changed.now awake.now }
            ensures { IsRelabelled image.entry.now labels.entry.now part.old part.new }
        { part.relabel(image, labels, changed, awake) },
    );
}
