//! Labels that sink until each names the least place of its component.
//!
//! 1. Each place begins with its lowest neighbour as its label, by which most of the largest component is joined at
//!    once. No such label depends on another, so several threads find them.
//! 2. Places that have that component's label already are passed over from then on, so few arcs are looked at.

ghost use Rattle.std.specs.Prelude.{◌≡◌, ℕ, ◌+◌, ◌<◌, ◌^◌, length, IfOk};
ghost use Rattle.graph_model.specs.Graph.{Graph};
ghost use Rattle.graph_image.specs.Images.{IsImageOf, Leads, AreWithin, arcs_at};
ghost use Rattle.kernel_wcc.specs.Labels.{AreLow, IsFirstLabel, AreFirstLabels, IsJoined, AreJoined, AreSound, AreMerged, IsSettled, AreComponents};

use graph_image::{Arc, Image, NoMemory};
use rayon::current_num_threads;
use std::alloc::Global;
use std::thread::{Threads, for_each_mut};

/// An image of fewer places isn't worth a thread.
const SMALL: usize = 16384;

/// More threads than these share the places no better.
const MOST_THREADS: usize = 32;

/// Among about so many places the heaviest is looked for.
const LOOKED_AT: usize = 4096;

/// The label of each place: the least place of its component.
pub fn components<R: Threads + Sync>(
    rt: &R,
    alloc: Global,
    image: &Image,
) -> Result<Vec<u32>, NoMemory>
    ensures count { IfOk result (λ labels. length labels.items ≡ length image.now.vertices) }
    ensures low { IfOk result (λ labels. AreLow labels.items) }
    ensures components { IfOk result (λ labels. (g : Graph) → IsImageOf image.now g
        → AreComponents (Leads g image.now.vertices) labels.items) }
{
    let mut labels = first_labels(rt, alloc, image)?;
    join_roots(image, &mut labels);
    settle(&mut labels);
    // A place with many arcs is likely in the largest component, so most places have its label now and are passed over
    // from here on.
    let large = label_of(&labels, heaviest(image));
    'places: for place in 0..image.len() {
        merge(image, place, large, &mut labels);
    }
    settle(&mut labels);
    Ok(labels)
}

/// The first labels of all places, settled.
fn first_labels<R: Threads + Sync>(
    rt: &R,
    alloc: Global,
    image: &Image,
) -> Result<Vec<u32>, NoMemory>
    ensures { IfOk result (λ labels. AreSound image.now (length image.now.vertices) labels.items) }
{
    let mut labels = vec![in alloc; 0u32; image.len()]?;
    label_each(rt, image, &mut labels);
    settle(&mut labels);
    Ok(labels)
}

/// Gives each place its first label.
fn label_each<R: Threads + Sync>(rt: &R, image: &Image, labels: &mut Vec<u32>)
    requires { length labels.old.items ≡ length image.now.vertices }
    ensures { AreFirstLabels image.now labels.new.items }
{
    let threads = threads_for(rt, image.len());
    for_each_mut(
        rt,
        labels.as_mut_slice(),
        threads,
        &|place: usize, label: &mut u32|
            requires { (place < length image.now.vertices) × (length image.now.vertices < 2 ^ 32) }
            ensures { IsFirstLabel (arcs_at image.entry.now.out place) place label.new }
        { *label = first_label(image.out(place), place) },
    );
}

/// How many threads are worth it for so many places.
fn threads_for<R: Threads + Sync>(rt: &R, places: usize) -> usize
    ensures { 0 < result }
{
    if places < SMALL {
        1
    } else {
        current_num_threads(rt).min(MOST_THREADS)
    }
}

/// The lowest place that an arc leads to, where that is lower, else the place itself.
fn first_label(arcs: &[Arc], place: usize) -> u32
    requires { place < 2 ^ 32 }
    ensures { IsFirstLabel arcs.now place result }
{
    match arcs.first() {
        Some(arc) if (arc.other as usize) < place => arc.other,
        _ => place as u32,
    }
}

/// Joins each place that is its own label with the other ends of the arcs out of it.
fn join_roots(image: &Image, labels: &mut Vec<u32>)
    requires { AreSound image.now (length image.now.vertices) labels.old.items }
    ensures { AreSound image.now (length image.now.vertices) labels.new.items }
{
    'places: for place in 0..image.len() {
        join_root(image, place, labels);
    }
}

/// Joins a place with the other ends of the arcs out of it, if it is its own label.
fn join_root(image: &Image, place: usize, labels: &mut Vec<u32>)
    requires place { (place < length image.now.vertices) × (place < 2 ^ 32) }
    requires labels { AreSound image.now (length image.now.vertices) labels.old.items }
    ensures { AreSound image.now (length image.now.vertices) labels.new.items }
{
    if labels[place] as usize != place {
        return;
    }
    join_ends(place as u32, image.out(place), labels);
}

/// Of some of the places, one with the most arcs out of it.
fn heaviest(image: &Image) -> usize {
    let stride = image.len() / LOOKED_AT + 1;
    let mut heavy = 0;
    let mut most = 0;
    'places: for number in 0..LOOKED_AT {
        let place = number.saturating_mul(stride);
        if place < image.len() {
            let count = image.out(place).len();
            if most < count {
                most = count;
                heavy = place;
            }
        }
    }
    heavy
}

/// The label of a place; 0 where there is no such place.
fn label_of(labels: &Vec<u32>, place: usize) -> u32 {
    match labels.as_slice().get(place) {
        Some(label) => *label,
        None => 0,
    }
}

/// Joins a place with the other ends of the arcs out of it and into it, unless its label is the large one.
fn merge(image: &Image, place: usize, large: u32, labels: &mut Vec<u32>)
    requires place { (place < length image.now.vertices) × (place < 2 ^ 32) }
    requires merged { AreMerged image.now large place labels.old.items }
    ensures { AreMerged image.now large (place + 1) labels.new.items }
{
    if labels[place] == large {
        return;
    }
    join_ends(place as u32, image.out(place), labels);
    join_ends(place as u32, image.into(place), labels);
}

/// Joins a place with the other end of each arc.
fn join_ends(place: u32, arcs: &[Arc], labels: &mut Vec<u32>)
    requires low { AreLow labels.old.items }
    requires place { place < length labels.old.items }
    requires within { AreWithin (length labels.old.items) arcs.now }
    ensures { AreJoined labels.old.items place arcs.now (length arcs.now) labels.new.items }
{
    'arcs: for i in 0..arcs.len() {
        join(place, arcs[i].other, labels);
    }
}

/// Lets the labels of two places lead to one place. Of the two labels the higher is replaced by the lower,
/// and the place that it named is joined next, unless the place was its own label.
fn join(a: u32, b: u32, labels: &mut Vec<u32>)
    requires low { AreLow labels.old.items }
    requires within { (a < length labels.old.items) × (b < length labels.old.items) }
    ensures { IsJoined labels.old.items a b labels.new.items }
{
    let mut left = a;
    let mut right = b;
    'steps: loop {
        let of_left = labels[left as usize];
        let of_right = labels[right as usize];
        if of_left == of_right {
            return;
        }
        // The lesser one stays, so labels only sink, and lead to the least place at the end.
        if of_left < of_right {
            labels[right as usize] = of_left;
            if right == of_right {
                return;
            }
            right = of_right;
        } else {
            labels[left as usize] = of_right;
            if left == of_left {
                return;
            }
            left = of_left;
        }
    }
}

/// Gives each place the label where its labels lead to: that of its label, which is settled before it.
fn settle(labels: &mut Vec<u32>)
    requires { AreLow labels.old.items }
    ensures { IsSettled labels.old.items labels.new.items }
{
    'places: for place in 0..labels.len() {
        let label = labels[place];
        labels[place] = labels[label as usize];
    }
}
