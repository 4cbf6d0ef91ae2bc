//! A store that is full is noted while the index is in hand.
//!
//! 1. A moment later a leaf may be free; the note says of this moment that none was, which is all that `full` promises.

ghost use Rattle.std.specs.Prelude.{◌≡◌, ◌≤◌, true, [], ◌∷◌};
ghost use Rattle.graph_model.specs.Rows.{is_below, end_key};
ghost use Rattle.pass_writes.specs.StoreRelation.Steps.{filled_up};
ghost use Rattle.pass_splits.specs.PassLeaves.Fit.{TellsFit};
ghost use Rattle.pass_splits.specs.PassMoves.Moving.{values_of};
ghost use Rattle.pass_splits.specs.PassMoves.Room.{IsCrowdedAt};
ghost use Rattle.pass_writes.specs.PassSteps.Passes.{state_of};
ghost use Rattle.pass_room.specs.Making.{HasLeavesInHand, KeepsPassAs};

use graph_model::Key;
use pass_splits::below::HeldIndex;
use pass_writes::below::{Change, Pass, Store, TakenCell};

/// Notes that a write is answered `Full`: no window of the key's leaf fits, and no leaf is free.
pub(crate) fn note_full(
    store: &Store,
    pass: &mut Pass,
    cells: &[TakenCell],
    index: &HeldIndex,
    leaf: u32,
    key: Key,
    need: u8,
)
    requires hand { HasLeavesInHand store.now pass.old (leaf ∷ []) cells.now index.now }
    requires fit { TellsFit store.now.accounts.config pass.old.account.me.0 }
    requires crowded { IsCrowdedAt key need index.now.value.value leaf (values_of cells.now) }
    requires free { index.now.value.value.free ≡ [] }
    requires below { is_below key end_key ≡ true }
    requires few { need ≤ 2 }
    ensures hand { HasLeavesInHand store.now pass.new (leaf ∷ []) cells.now index.now }
    ensures kept { KeepsPassAs pass.old pass.new (filled_up (state_of pass.old)) }
{
    let planned = NotesFull {
        number: pass.number,
    };
    store.change(pass, &planned);
}

/// A pass notes that a write of it was answered `Full`.
#[derive(Drop)]
struct NotesFull {
    /// The number of the pass.
    number: u32,
}

impl Change for NotesFull {
    ghost use Rattle.pass_writes.specs.RuleModel.Sight.{with_pass};
    ghost use Rattle.pass_writes.specs.RuleModel.Steps.{Nothing};
    ghost use Rattle.pass_writes.specs.StoreRelation.Steps.{filled_up};
    ghost use Rattle.pass_writes.specs.PassSteps.Passes.{state_in};

    ghost next = { λ planned n v. with_pass v planned.number (filled_up (state_in v planned.number)) };

    ghost told = { λ planned n v. Nothing n };
}
