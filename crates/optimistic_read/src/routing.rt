//! Where the index has a key.
//!
//! 1. The index is asked under its latch, by whoever has no hint.
//! 2. The leaf is noted while the index is in hand. A merge that retires it comes after, and its number is not given
//!    out again while a pass that noted it is pinned.

ghost use Rattle.std.specs.Prelude.{◌≡◌, ◌/◌, ◌<◌};
ghost use Rattle.pass_steps.specs.RuleModel.Sight.{HasIndex, IndexState, cells_of, with_pin};
ghost use Rattle.pass_steps.specs.StoreRule.Passes.{OnlyAccount};
ghost use Rattle.pass_steps.specs.Passes.{IsOpenPass, IsSamePass, pin_of, state_of};
ghost use Rattle.optimistic_read.specs.Routes.{MayNote, noting};

use crate::tried::CellRoute;
use graph_model::{Key, LEAF_SEGMENTS};
use pass_steps::below::{Change, Pass, Store};
use std::sync::Wait;

/// Asks the index for the cell of a key, and notes its leaf: it is not given out again before the transaction ends, so
/// the cell stays the key's until rows move. Waits for the index, holds it meanwhile, and takes no memory.
pub fn route(rt: &impl Wait, store: &Store, pass: &mut Pass, key: Key) -> CellRoute
    requires opened { IsOpenPass store.now pass.old }
    ensures opened { IsOpenPass store.now pass.new }
    ensures state { state_of pass.new ≡ state_of pass.old }
    ensures noted { pin_of pass.new ≡ noting (pin_of pass.old) (result.cell / 8) }
    ensures same { IsSamePass pass.old pass.new }
    ensures cell { result.cell < cells_of store.now.accounts.config }
{
    let cells = store.cells();
    let held = cells.take(rt, &mut pass.latch, store.index_place());
    let held = store.gather_index(pass, held);
    let cell = held.value.route(key).cell;
    held.value.is_index();
    note_leaf(store, pass, cell / LEAF_SEGMENTS as u32);
    let held = store.lay_index(pass, held);
    cells.give(&mut pass.latch, held);
    CellRoute { cell }
}

/// Notes a live leaf by one load of the clock, with the index in hand. So it is known how many leaves there are.
fn note_leaf(store: &Store, pass: &mut Pass, leaf: u32)
    requires may { MayNote store.now pass.old leaf }
    ensures noted { OnlyAccount pass.old pass.new
        (with_pin pass.old.account.me.0 pass.old.number (noting (pin_of pass.old) leaf)) }
    ensures leaves { (y : IndexState) → HasIndex pass.old.account.me.0 y
        → y.index.leaves ≡ store.now.accounts.config.leaves }
{
    let planned = NotesLeaf {
        number: pass.number,
        leaf,
        leaves: store.accounts.config.leaves,
    };
    store.change(pass, &planned);
}

/// A pass notes a leaf.
#[derive(Drop)]
struct NotesLeaf {
    /// The number of the pass.
    number: u32,
    /// The number of the leaf.
    leaf: u32,
    /// How many leaves the store has.
    leaves: u32,
}

impl Change for NotesLeaf {
    ghost use Rattle.std.specs.Prelude.{◌≡◌};
    ghost use Rattle.pass_steps.specs.RuleModel.Sight.{HasIndex, IndexState, with_pin};
    ghost use Rattle.pass_steps.specs.Passes.{pin_in};
    ghost use Rattle.optimistic_read.specs.Routes.{noting};

    ghost next = { λ planned n v. with_pin v planned.number (noting (pin_in v planned.number) planned.leaf) };

    ghost told = { λ planned n v. (y : IndexState) → HasIndex v y → y.index.leaves ≡ planned.leaves };
}
