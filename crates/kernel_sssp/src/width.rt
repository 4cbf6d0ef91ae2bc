//! The width of buckets that suits a graph.
//!
//! 1. The more arcs a place has, the sooner a light one of them leads on, and the narrower are buckets in which hardly a
//!    place is visited twice: the mean weight divided by the mean number of arcs. Meyer and Sanders divide the greatest
//!    weight by the greatest number, which a few heavy places would make far too narrow.
//! 2. With two arcs or fewer at a place, as on a path or in a tree, few ways lead to a place, and buckets so narrow would
//!    hold one or none. They are as wide as some mean weights.
//! 3. The mean weight is that of some places alone, since to read all arcs takes a tenth of a search.

ghost use Rattle.std.specs.Prelude.{◌<◌};

use graph_image::{Arc, Image};

/// Of about so many places the weights are read.
const READ: usize = 4096;

/// How many mean weights a bucket is wide where places have few arcs.
const WIDE: u64 = 64;

/// With a greater mean weight, distances are likely to be greater than 32 bits hold.
const HEAVY: u64 = 16777216;

/// What some places tell of all.
#[derive(Clone, Copy)]
struct Sample {
    /// How many they are.
    places: u64,
    /// How many arcs lead out of them.
    arcs: u64,
    /// The weight of these arcs.
    weight: u64,
}

/// A width for the search of a graph.
pub fn width_for(image: &Image) -> u32
    ensures { 0 < result }
{
    let places = image.len() as u64;
    let arcs = arcs_of(image).max(1);
    let mean = sample_of(image).mean_weight();
    if arcs <= places.saturating_mul(2) {
        narrowed(mean.saturating_mul(WIDE))
    } else {
        narrowed(mean.saturating_mul(places) / arcs)
    }
}

/// Whether several workers may find more at a time than one: where places have two arcs or fewer, few ways lead to a
/// place, and a round has few visits.
pub fn suits_workers(image: &Image) -> bool {
    let sample = sample_of(image);
    sample.arcs.saturating_mul(2) > sample.places.saturating_mul(5) && sample.mean_weight() <= HEAVY
}

/// How many arcs lead out of all places.
fn arcs_of(image: &Image) -> u64 {
    let mut arcs = 0u64;
    'places: for place in 0..image.len() {
        arcs = arcs.saturating_add(image.out(place).len() as u64);
    }
    arcs
}

impl Sample {
    /// The mean weight of the arcs.
    fn mean_weight(self) -> u64 {
        self.weight / self.arcs.max(1)
    }
}

/// What places that stand equally far apart tell.
fn sample_of(image: &Image) -> Sample {
    let stride = image.len() / READ + 1;
    let mut sample = Sample {
        places: 0,
        arcs: 0,
        weight: 0,
    };
    'places: for number in 0..READ {
        let place = number.saturating_mul(stride);
        if place < image.len() {
            let out = image.out(place);
            sample.places = sample.places.saturating_add(1);
            sample.arcs = sample.arcs.saturating_add(out.len() as u64);
            sample.weight = sample.weight.saturating_add(weight_of(out));
        }
    }
    sample
}

/// The weight of all of the arcs.
fn weight_of(arcs: &[Arc]) -> u64 {
    let mut weight = 0u64;
    'arcs: for arc in arcs {
        weight = weight.saturating_add(arc.weight as u64);
    }
    weight
}

/// The nearest width that buckets can have.
fn narrowed(width: u64) -> u32
    ensures { 0 < result }
{
    width.max(1).min(u32::MAX as u64) as u32
}
