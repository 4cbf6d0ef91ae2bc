//! The value that stands most often.
//!
//! 1. Where one value stands more often than all others together, it is seen by counting it. After a few rounds nearly
//!    all places meet such a label.
//! 2. Else values are sorted and their longest run is looked for. Of several runs of one length the first counts, which
//!    is the one of the least value, as Graphalytics asks.

ghost use Rattle.std.specs.Prelude.{◌≡◌, ℕ, ◌+◌, ◌<◌, ◌≤◌, ◌++◌, length, take, slice_index, IsTrue};
ghost use Rattle.graph_model.specs.Labels.{times};
ghost use Rattle.graph_image.specs.Images.{AreWithin};
ghost use Rattle.kernel_cdlp.specs.Frequency.{IsMostFrequentOr};
ghost use Rattle.kernel_cdlp.specs.Rounds.{labels_met};

use graph_image::Arc;

/// The least of the values that stand most often, or the default where there is none. It may put the
/// values in rising order.
pub fn most_frequent(values: &mut [u32], default: u32) -> u32
    ensures { IsMostFrequentOr default values.old result }
{
    // A value that has more than half of the places is likely to stand in the middle, in whatever order they are.
    let middle = values.len() / 2;
    if middle < values.len() && outnumbers(values, values[middle]) {
        return values[middle];
    }
    values.sort_unstable();
    longest_run(values, default)
}

/// Whether a value stands more often than all others together.
fn outnumbers(values: &[u32], value: u32) -> bool
    ensures { IsTrue result → length values.now < times values.now value + times values.now value }
{
    let mut count = 0usize;
    'values: for i in 0..values.len() {
        if values[i] == value {
            count += 1;
        }
    }
    values.len() - count < count
}

/// The same of values in rising order: the first of the longest runs.
fn longest_run(values: &[u32], default: u32) -> u32
    requires { (i j : ℕ) → i ≤ j → j < length values.now → slice_index values.now i ≤ slice_index values.now j }
    ensures { IsMostFrequentOr default values.now result }
{
    let mut best = default;
    let mut most = 0usize;
    let mut last = 0;
    let mut run = 0usize;
    'values: for i in 0..values.len() {
        let value = values[i];
        if value != last {
            last = value;
            run = 0;
        }
        run += 1;
        // Not for an equal run: of two values that stand as often the lesser one came first.
        if most < run {
            best = value;
            most = run;
        }
    }
    best
}

/// Writes the labels at the other ends of the arcs after what is met so far.
pub fn meet(arcs: &[Arc], labels: &[u32], met: &mut [u32], count: usize)
    requires within { AreWithin (length labels.now) arcs.now }
    requires room { count + length arcs.now ≤ length met.old }
    ensures { take (count + length arcs.now) met.new ≡ take count met.old ++ labels_met labels.now arcs.now }
{
    'arcs: for i in 0..arcs.len() {
        met[count + i] = labels[arcs[i].other as usize];
    }
}
