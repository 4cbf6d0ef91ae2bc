//! Leaves that come into the queue: those that may have a sparse window, or too few rows beside a neighbour.
//!
//! 1. An entry is a guess. Whoever takes it out looks at the leaf again, which may have changed or be retired.
//! 2. A thick leaf needs no entry: each segment has enough rows, and all of them too many to be merged.

ghost use Rattle.std.specs.Prelude.{◌≡◌, ◌<◌, ℕ, true, None, IfSome, length};
ghost use Rattle.leaf_table.specs.LeafArray.Leaves.{IsLeaf};
ghost use Rattle.leaf_table.specs.LeafArray.Segments.{counts_of};
ghost use Rattle.leaf_index.specs.Calls.{IsLeafRange};
ghost use Rattle.leaf_queue.specs.declared.waiting.WaitStage.TheVariants.{Windows};
ghost use Rattle.leaf_store.specs.Queued.{IsNotLiveAs, IsThick, IsThickOrQueued, QueuesChange, waiting_with, with_leaf};
ghost use Rattle.leaf_store.specs.Table.{IsKept, segments_at};

use crate::pair::{MERGE_ROWS, total};
use density_tree::LOWER_LIMITS;
use graph_model::LEAF_SEGMENTS;
use leaf_index::{LeafIndex, LeafRange};
use leaf_queue::{LeafQueue, WaitStage, Waiting};
use leaf_table::below::Leaf;
use leaf_table::counts_of;

/// A leaf that waits that its windows are looked at.
fn waiting(leaf: &Leaf, number: usize) -> Waiting
    requires { length leaf.now.segments ≡ 8 }
    ensures { result ≡ waiting_with Windows number leaf.now.segments }
{
    Waiting {
        stage: WaitStage::Windows,
        low: leaf.segments[0].low(),
        leaf: number,
    }
}

/// Puts a leaf into the queue.
pub(crate) fn enqueue(queue: &mut LeafQueue, leaves: &Vec<Option<Box<Leaf>>>, leaf: usize)
    requires leaf { IsLeaf (segments_at leaves.now.items leaf) }
    requires within { leaf < length queue.old }
    ensures { queue.new ≡ with_leaf queue.old leaf (segments_at leaves.now.items leaf) }
{
    match &leaves[leaf] {
        Some(memory) => queue.add(waiting(memory, leaf)),
        None => unreachable!(),
    }
}

/// Puts a leaf of which a segment has other rows now into the queue, unless they are as many as before or it is thick.
pub(crate) fn queue_change(
    queue: &mut LeafQueue,
    leaves: &Vec<Option<Box<Leaf>>>,
    leaf: usize,
    before: usize,
    rows: usize,
)
    requires leaf { IsLeaf (segments_at leaves.now.items leaf) }
    requires within { leaf < length queue.old }
    ensures { QueuesChange before rows (segments_at leaves.now.items leaf) leaf queue.old queue.new }
{
    if rows != before && !is_thick_at(leaves, leaf) {
        enqueue(queue, leaves, leaf);
    }
}

/// Puts all live leaves that aren't thick into the queue.
pub(crate) fn queue_thin(index: &LeafIndex, leaves: &Vec<Option<Box<Leaf>>>, queue: &mut LeafQueue)
    requires kept { IsKept index.now leaves.now.items }
    requires count { length queue.old ≡ length leaves.now.items }
    ensures each { (leaf : ℕ) → leaf < length leaves.now.items
        → IsThickOrQueued index.now leaves.now.items queue.new leaf }
    ensures count { length queue.new ≡ length queue.old }
{
    'leaves: for leaf in 0..leaves.len() {
        queue_if_thin(index, leaves, queue, leaf);
    }
}

/// Puts the leaf with this number into the queue, if it is live and not thick.
fn queue_if_thin(
    index: &LeafIndex,
    leaves: &Vec<Option<Box<Leaf>>>,
    queue: &mut LeafQueue,
    leaf: usize,
)
    requires kept { IsKept index.now leaves.now.items }
    requires count { length queue.old ≡ length leaves.now.items }
    requires within { leaf < length leaves.now.items }
    ensures here { IsThickOrQueued index.now leaves.now.items queue.new leaf }
    ensures others { (other : ℕ) → IsThickOrQueued index.now leaves.now.items queue.old other
        → IsThickOrQueued index.now leaves.now.items queue.new other }
    ensures count { length queue.new ≡ length queue.old }
{
    let Some(memory) = &leaves[leaf] else {
        return;
    };
    let low = memory.segments[0].low();
    let stage = WaitStage::Windows;
    let Some(_range) = live_range(index, leaves, Waiting { stage, low, leaf }) else {
        return;
    };
    if !is_thick_at(leaves, leaf) {
        enqueue(queue, leaves, leaf);
    }
}

/// The range of a leaf that waits, if it is live: if the leaf that has its key is this one, and begins there.
pub(crate) fn live_range(
    index: &LeafIndex,
    leaves: &Vec<Option<Box<Leaf>>>,
    waiting: Waiting,
) -> Option<LeafRange>
    requires { IsKept index.now leaves.now.items }
    ensures some { IfSome result (IsLeafRange waiting.low index.now.entries) }
    ensures number { IfSome result (λ range. range.leaf ≡ waiting.leaf) }
    ensures low { IfSome result (λ range. range.low ≡ waiting.low) }
    ensures none { result ≡ None → IsNotLiveAs index.now.entries waiting }
{
    let range = index.leaf_at(waiting.low);
    if range.leaf as usize != waiting.leaf {
        return None;
    }
    if range.low.is_below(waiting.low) {
        return None;
    }
    Some(range)
}

/// Whether a leaf is thick.
fn is_thick_at(leaves: &Vec<Option<Box<Leaf>>>, leaf: usize) -> bool
    requires { IsLeaf (segments_at leaves.now.items leaf) }
    ensures { result ≡ true → IsThick (counts_of (segments_at leaves.now.items leaf)) }
{
    match &leaves[leaf] {
        Some(leaf) => is_thick(counts_of(leaf)),
        None => unreachable!(),
    }
}

/// Whether no segment has too few rows, and all have many together.
fn is_thick(counts: [u8; LEAF_SEGMENTS]) -> bool
    requires { length counts ≡ 8 }
    ensures { result ≡ true → IsThick counts }
{
    'segments: for segment in 0..LEAF_SEGMENTS {
        if u32::from(counts[segment]) < LOWER_LIMITS[0] {
            return false;
        }
    }
    total(&counts) > MERGE_ROWS
}
