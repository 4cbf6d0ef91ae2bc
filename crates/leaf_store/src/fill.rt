//! A store that begins with rows.
//!
//! 1. Leaf after leaf gets the rows that are left, as many as the density limits allow.
//! 2. All leaves have memory, and their rows, before the first is put under the index: by then nobody needs the rows
//!    themselves.

ghost use Rattle.std.specs.Prelude.{◌≡◌, ℕ, ◌+◌, ◌*◌, ◌++◌, ◌≤◌, List, length, min, IfErr, IfOk, IfSome, OnOk};
ghost use Rattle.std.specs.Thread.{IsSync};
ghost use Rattle.graph_model.specs.declared.row.Row.{Row};
ghost use Rattle.graph_model.specs.declared.limits.TheConstants.{MAX_LEAVES};
ghost use Rattle.leaf_index.specs.Calls.{new_index};
ghost use Rattle.leaf_table.specs.Settled.{AreLeavesFrom, IsLeafFrom};
ghost use Rattle.leaf_store.specs.Changes.{AreFilled, AreRising, IsFillRefusal};
ghost use Rattle.leaf_store.specs.Fill.{AreNext, IsFilling, IsFillStop, IsFirst, IsLoad, IsNext};

use crate::queue::queue_thin;
use crate::store::LeafStore;
use graph_model::{Key, Row};
use leaf_index::LeafIndex;
use leaf_queue::LeafQueue;
use leaf_table::below::Leaf;
use leaf_table::{
    FULL_LEAF, LoadLeaves, cuts_of, empty_table, leaves_of, leaves_of_halves, put_leaf,
};
use std::alloc::Global;
use std::marker::Sync;
use std::thread::Threads;
use txn_manager::RoomRefusal;

/// Takes the memory of the leaf at a place, if it was made.
fn take_at(made: &mut Vec<Option<Box<Leaf>>>, place: usize) -> Option<Box<Leaf>>
    ensures { (rows : List Row) (first : ℕ) → AreLeavesFrom rows first made.old.items
        → IfSome result (IsLeafFrom rows (first + 208 * place)) × AreLeavesFrom rows first made.new.items }
{
    match made.get_mut(place) {
        Some(memory) => memory.take(),
        None => None,
    }
}

/// Puts the next leaf under the index, with the rows that it has.
fn fill_next(
    index: &mut LeafIndex,
    leaves: &mut Vec<Option<Box<Leaf>>>,
    alloc: Global,
    memory: Box<Leaf>,
) -> Result<(), RoomRefusal>
    requires { (rows : List Row) × (at : ℕ) × IsNext rows at index.old leaves.old.items memory }
    ensures ok { (rows : List Row) (at : ℕ) → IsNext rows at index.old leaves.old.items memory
        → OnOk result (IsFilling rows (min (at + 208) (length rows)) index.new leaves.new.items) }
    ensures limit { OnOk result (index.new.leaves ≡ index.old.leaves) }
    ensures stop { (rows : List Row) (at : ℕ) → IsNext rows at index.old leaves.old.items memory
        → IfErr result (λ refusal. IsFillStop refusal index.old rows) }
{
    let Some(leaf) = index.take_free() else {
        let leaves = index.leaves();
        return Err(RoomRefusal::Full { leaves });
    };
    let low = memory.segments[0].low();
    index.add_leaf(alloc, low, leaf, cuts_of(&memory))?;
    index.is_index();
    put_leaf(leaves, leaf as usize, memory);
    Ok(())
}

/// Makes this the first leaf, with the rows that it has.
fn fill_first(index: &mut LeafIndex, leaves: &mut Vec<Option<Box<Leaf>>>, memory: Box<Leaf>)
    requires first { (rows : List Row) × IsFirst rows memory }
    requires index { index.old ≡ new_index (length leaves.old.items) }
    requires some { 1 ≤ length leaves.old.items }
    ensures laid { (rows : List Row) → IsFirst rows memory
        → IsFilling rows (min 208 (length rows)) index.new leaves.new.items }
    ensures limit { index.new.leaves ≡ index.old.leaves }
{
    let low = Key { src: 0, second: 0 };
    index.set_separators(low, cuts_of(&memory));
    index.is_index();
    put_leaf(leaves, 0, memory);
}

/// Puts all leaves behind the first under the index, one after the other: they have so many rows.
fn fill_rest(
    index: &mut LeafIndex,
    leaves: &mut Vec<Option<Box<Leaf>>>,
    alloc: Global,
    made: Vec<Option<Box<Leaf>>>,
    rows: usize,
) -> Result<(), RoomRefusal>
    requires { (all : List Row) × AreNext all rows index.old leaves.old.items made.items }
    ensures ok { (all : List Row) → AreNext all rows index.old leaves.old.items made.items
        → OnOk result (IsFilling all (length all) index.new leaves.new.items) }
    ensures limit { OnOk result (index.new.leaves ≡ index.old.leaves) }
    ensures stop { (all : List Row) → AreNext all rows index.old leaves.old.items made.items
        → IfErr result (λ refusal. IsFillStop refusal index.old all) }
{
    let mut made = made;
    let mut left = rows;
    let mut place: usize = 0;
    'leaves: while left > 0 {
        let Some(memory) = take_at(&mut made, place) else {
            return Err(RoomRefusal::NoMemory);
        };
        fill_next(index, leaves, alloc, memory)?;
        left = left.saturating_sub(FULL_LEAF);
        place += 1;
    }
    Ok(())
}

impl LeafStore {
    /// Rows of the first transaction, each of them settled.
    pub fn filled(alloc: Global, leaves: u32, rows: &[Row]) -> Result<LeafStore, RoomRefusal>
        requires some { 1 ≤ leaves }
        requires few { leaves ≤ MAX_LEAVES }
        requires rising { AreRising rows.now }
        ensures ok { IfOk result (λ s. AreFilled leaves rows.now s) }
        ensures full { IfErr result (λ refusal. IsFillRefusal leaves rows.now refusal) }
    {
        let made = leaves_of(alloc, leaves, rows)?;
        LeafStore::filled_with(alloc, leaves, made)
    }

    /// The same, where several threads make the leaves. The rows come in two lists, of which the second goes on where
    /// the first ends; each is let go of as soon as it is laid.
    pub fn filled_by_threads<R: Threads + Sync>(
        rt: &R,
        alloc: Global,
        leaves: u32,
        front: Vec<Row>,
        back: Vec<Row>,
    ) -> Result<LeafStore, RoomRefusal>
        requires some { 1 ≤ leaves }
        requires few { leaves ≤ MAX_LEAVES }
        requires rising { AreRising (front.items ++ back.items) }
        ensures ok { IfOk result (λ s. AreFilled leaves (front.items ++ back.items) s) }
        ensures full { IfErr result (λ refusal. IsFillRefusal leaves (front.items ++ back.items) refusal) }
    {
        let made = leaves_of_halves(rt, alloc, leaves, front, back)?;
        LeafStore::filled_with(alloc, leaves, made)
    }

    /// A store with these leaves.
    fn filled_with(alloc: Global, leaves: u32, made: LoadLeaves) -> Result<LeafStore, RoomRefusal>
        requires some { 1 ≤ leaves }
        requires few { leaves ≤ MAX_LEAVES }
        requires made { (rows : List Row) × IsLoad rows made }
        ensures ok { (rows : List Row) → IsLoad rows made → IfOk result (λ s. AreFilled leaves rows s) }
        ensures full { (rows : List Row) → IsLoad rows made
            → IfErr result (λ refusal. IsFillRefusal leaves rows refusal) }
    {
        let LoadLeaves { first, rest, rows } = made;
        let mut index = LeafIndex::new(alloc, leaves)?;
        let mut table = empty_table(alloc, leaves)?;
        fill_first(&mut index, &mut table, first);
        let left = rows.saturating_sub(FULL_LEAF);
        fill_rest(&mut index, &mut table, alloc, rest, left)?;
        let mut queue = LeafQueue::new(alloc, leaves)?;
        queue_thin(&index, &table, &mut queue);
        Ok(LeafStore {
            alloc,
            index,
            leaves: table,
            queue,
            ahead: 0,
        })
    }
}
