//! Room for rows: windows that are spread, and leaves that are split.
//!
//! 1. The leaves that are left wait to be looked at.

ghost use Rattle.std.specs.Prelude.{◌≡◌, ◌<◌, ◌≤◌, IfErr, IfSome, IsOk, OnErr, OnOk};
ghost use Rattle.density_tree.specs.Windows.{IsRound};
ghost use Rattle.leaf_table.specs.LeafArray.Leaves.{IsLeaf};
ghost use Rattle.leaf_store.specs.Leaves.{record_count, room_at};
ghost use Rattle.leaf_store.specs.Changes.{IsRoomRefusal, MovesRows, NeedsRoom};
ghost use Rattle.leaf_store.specs.Making.{MakesRoom};
ghost use Rattle.leaf_store.specs.Merging.{KeepsParts};
ghost use Rattle.leaf_store.specs.Moving.{CanSplit, CanSpread, HasRoomThere, MovesAcross, MovesWithin, SpreadsThere};
ghost use Rattle.leaf_store.specs.Pairs.{HalvesLeaf};
ghost use Rattle.leaf_store.specs.Ranges.{IsOutOfLeaves};
ghost use Rattle.leaf_store.specs.Table.{IsRoomyWindow, leaves_of, segments_at};
ghost use Rattle.leaf_store.specs.Queued.{IsTended};

use crate::place::place_of;
use crate::queue::enqueue;
use crate::split::split_at;
use crate::spread::spread_window;
use crate::store::LeafStore;
use density_tree::{Window, window_for_insert};
use graph_model::{Key, NoMemory};
use leaf_index::LeafIndex;
use leaf_queue::LeafQueue;
use leaf_table::below::Leaf;
use leaf_table::{Place, counts_of};
use std::alloc::Global;
use txn_manager::RoomRefusal;

impl LeafStore {
    /// Makes room for so many rows in the key's cell: spreads the smallest window that has it, else splits the leaf.
    pub fn make_room(&mut self, key: Key, need: u8) -> Result<(), RoomRefusal>
        requires { NeedsRoom self.old key need }
        ensures ok { OnOk result (need ≤ room_at self.new key) }
        ensures moved { MovesRows self.old self.new }
        ensures retired { self.new.retired ≡ self.old.retired }
        ensures made { OnOk result (MakesRoom self.old self.new key need) }
        ensures refused { IfErr result (λ refusal. IsRoomRefusal self.old key need refusal self.new) }
    {
        let place = place_of(&self.index, key);
        match window_at(&self.leaves, place, need) {
            Some(window) => {
                spread_queued(
                    &mut self.index,
                    &mut self.leaves,
                    &mut self.queue,
                    self.alloc,
                    place.leaf,
                    window,
                )?;
                Ok(())
            }
            // No window of the leaf has room, so its rows are divided between two leaves.
            None => split_queued(
                &mut self.index,
                &mut self.leaves,
                &mut self.queue,
                self.alloc,
                place,
            ),
        }
    }
}

/// The smallest window round the place that has room for the rows needed beside its own.
fn window_at(leaves: &Vec<Option<Box<Leaf>>>, place: Place, need: u8) -> Option<Window>
    requires leaf { IsLeaf (segments_at leaves.now.items place.leaf) }
    requires segment { place.segment < 8 }
    requires some { 1 ≤ need }
    requires few { need ≤ 2 }
    ensures smallest { IsRoomyWindow (segments_at leaves.now.items place.leaf) need place.segment result }
    ensures round { IfSome result (IsRound place.segment) }
{
    match &leaves[place.leaf] {
        Some(leaf) => window_for_insert(counts_of(leaf), place.segment, need),
        None => unreachable!(),
    }
}

/// Spreads the window of a live leaf, which waits to be looked at then.
pub(crate) fn spread_queued(
    index: &mut LeafIndex,
    leaves: &mut Vec<Option<Box<Leaf>>>,
    queue: &mut LeafQueue,
    alloc: Global,
    leaf: usize,
    window: Window,
) -> Result<(), NoMemory>
    requires tended { IsTended index.old leaves.old.items queue.old }
    requires can { CanSpread window leaf index.old leaves.old.items }
    ensures ok { OnOk result
        (SpreadsThere window leaf index.old leaves.old.items (leaves_of index.new leaves.new.items)) }
    ensures tended { IsTended index.new leaves.new.items queue.new }
    ensures moved { MovesWithin index.old index.new leaves.old.items leaves.new.items }
    ensures err { OnErr result (KeepsParts
        (leaves_of index.old leaves.old.items) (leaves_of index.new leaves.new.items)) }
    ensures settled { record_count (leaves_of index.old leaves.old.items) ≡ 0 → IsOk result }
{
    spread_window(index, leaves, alloc, leaf, window)?;
    enqueue(queue, leaves, leaf);
    Ok(())
}

/// Splits the leaf at the place, and both halves wait to be looked at then.
fn split_queued(
    index: &mut LeafIndex,
    leaves: &mut Vec<Option<Box<Leaf>>>,
    queue: &mut LeafQueue,
    alloc: Global,
    place: Place,
) -> Result<(), RoomRefusal>
    requires tended { IsTended index.old leaves.old.items queue.old }
    requires can { CanSplit place index.old leaves.old.items }
    ensures room { OnOk result (HasRoomThere place index.old (leaves_of index.new leaves.new.items)) }
    ensures halves { OnOk result (HalvesLeaf (segments_at leaves.old.items place.leaf)
        (leaves_of index.old leaves.old.items) (leaves_of index.new leaves.new.items)) }
    ensures tended { IsTended index.new leaves.new.items queue.new }
    ensures moved { MovesAcross index.old index.new leaves.old.items leaves.new.items }
    ensures refused { IfErr result (λ refusal.
        IsOutOfLeaves refusal index.old index.new leaves.old.items leaves.new.items) }
{
    let right = split_at(index, leaves, alloc, place)?;
    enqueue(queue, leaves, place.leaf);
    enqueue(queue, leaves, right as usize);
    Ok(())
}
