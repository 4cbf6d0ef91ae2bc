//! A turn of the sweep: the next leaf in the order of keys, by a sweep over the pins of its own.
//!
//! 1. A key is kept between two turns and no number of a leaf, since leaves come and go meanwhile.
//! 2. Retired leaves are freed once a round, after its last leaf was found.

ghost use Rattle.std.specs.Prelude.{◌≡◌, ◌<◌, ◌≤◌, None, length};
ghost use Rattle.graph_model.specs.Rows.{first_key};
ghost use Rattle.leaf_index.specs.Calls.{IsLeafRange};
ghost use Rattle.pass_steps.specs.Passes.{HoldsNone, IsPassOf, pin_of, state_of};
ghost use Rattle.pass_sweeps.specs.Stepping.{ChoosesLeaf, FreesAtEnd, SweepsLeaf, key_after};
ghost use Rattle.pass_sweeps.specs.Sweeping.{GoesOn, HasSwept};

use crate::index::{LeavesFreed, give_index, learn_leaves, sweep_and_free, take_index};
use crate::leaf::{LeafSwept, sweep_leaf};
use crate::pins::{end_sweep, sweep_pins};
use crate::seen::see_published;
use epoch_reclaim::Sweep;
use graph_model::Key;
use leaf_index::{LeafIndex, LeafRange};
use pass_steps::below::{Pass, Store};
use std::sync::Wait;

/// Where a pass's next sweep begins. Between two turns leaves may come and go: the leaf whose range holds the key is
/// the next one then.
#[derive(Clone, Copy, Debug, Drop, PartialEq, Eq)]
pub struct SweepKey {
    /// The leaf that has this key is the next one.
    pub next: Key,
}

impl SweepKey {
    /// The first leaf comes next.
    pub fn first() -> SweepKey
        ensures { result.next ≡ first_key }
    {
        SweepKey {
            next: Key { src: 0, second: 0 },
        }
    }
}

/// What a turn has done: it pruned the cells of a leaf, and if that was the last one, freed retired leaves.
#[derive(Debug, Drop, PartialEq, Eq)]
pub struct SweepTurn {
    /// The leaf whose cells were pruned.
    pub swept: LeafSwept,
    /// None before the last leaf.
    pub freed: Option<LeavesFreed>,
}

/// Sweeps over the pins of all passes, prunes the next leaf at the horizon that it finds, and answers of which leaf
/// cells were pruned. With the last leaf it frees the retired leaves that may be freed, and the first one comes next.
/// May wait, and takes no memory.
pub fn sweep_step(rt: &impl Wait, store: &Store, pass: &mut Pass, key: &mut SweepKey) -> SweepTurn
    requires pass { IsPassOf store.now pass.old }
    requires none { HoldsNone pass.old }
    ensures pass { IsPassOf store.now pass.new }
    ensures none { HoldsNone pass.new }
    ensures same { GoesOn pass.old pass.new }
    ensures ended { (pin_of pass.new).sweep ≡ None }
    ensures swept { SweepsLeaf store.now pass.old pass.new key.old.next key.new.next result }
{
    let (leaf, sweep, freed) = choose_leaf(rt, store, pass, key);
    let swept = sweep_leaf(rt, store, pass, &sweep, leaf);
    // The horizon is used up: the next turn sweeps again, and finds one that is later.
    end_sweep(store, pass);
    SweepTurn { swept, freed }
}

/// Finds the leaf that comes next, and sweeps over the pins for it. With the last leaf it frees retired ones.
fn choose_leaf(
    rt: &impl Wait,
    store: &Store,
    pass: &mut Pass,
    key: &mut SweepKey,
) -> (u32, Sweep, Option<LeavesFreed>)
    requires pass { IsPassOf store.now pass.old }
    requires none { HoldsNone pass.old }
    ensures pass { IsPassOf store.now pass.new }
    ensures none { HoldsNone pass.new }
    ensures same { GoesOn pass.old pass.new }
    ensures inside { result.0 < store.now.accounts.config.leaves }
    ensures swept { HasSwept store.now pass.new result.1 }
    ensures clock { length (state_of pass.old).seen ≤ result.1.clock }
    ensures chosen { (chosen : ChoosesLeaf key.old.next key.new.next result.0) × FreesAtEnd chosen result.1 result.2 }
{
    let held = take_index(rt, store, pass);
    // With the index in hand, the only moment at which it is certain which leaf has the key.
    learn_leaves(store, pass);
    let range = leaf_of(&held.value, key.next);
    key.next = key_after(range.high);
    if range.high.is_below(Key::END) {
        // The index goes back before the pins are looked at and before a cell is taken: others need it, and a wait for
        // a cell with it in hand could be for ever.
        give_index(store, pass, held);
        let sweep = sweep_pins(store, pass);
        return (range.leaf, sweep, None);
    }
    let (held, sweep, freed) = sweep_and_free(store, pass, held);
    give_index(store, pass, held);
    see_published(store, pass);
    (range.leaf, sweep, Some(freed))
}

/// The leaf whose range holds a key.
fn leaf_of(index: &LeafIndex, key: Key) -> LeafRange
    ensures range { IsLeafRange key index.now.entries result }
    ensures exists { result.leaf < index.now.leaves }
{
    index.is_index();
    index.leaf_at(key)
}

/// Where the next leaf begins: where this one ends, or at the first key.
pub fn key_after(high: Key) -> Key
    ensures { result ≡ key_after high }
{
    if high.is_below(Key::END) {
        high
    } else {
        Key { src: 0, second: 0 }
    }
}
