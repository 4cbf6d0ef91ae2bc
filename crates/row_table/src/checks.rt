//! Who stands against a write, in the lists of one row.
//!
//! 1. A record that has its stamp says itself when it was committed. Only for one without a stamp its writer is asked.
//! 2. All records that count are asked, so the cause that is named doesn't depend on their order.

ghost use Rattle.std.specs.Prelude.{◌≡◌, ℕ, take, None, true, Option};
ghost use Rattle.graph_model.specs.Conflict.{same_name};
ghost use Rattle.store_model.specs.Check.{combine};
ghost use Rattle.head_map.specs.UndoChain.Records.{pairs_of};
ghost use Rattle.head_map.specs.UndoChain.States.{Grows, AreNamed};
ghost use Rattle.head_map.specs.UndoChain.Chains.{list_at, IsHeadOf};
ghost use Rattle.row_table.specs.Checks.{IsStateBy, IsChecked, drops_in};
ghost use Rattle.row_table.specs.Parts.{touches_of};
ghost use Rattle.row_table.specs.Walks.{IsOneChecked};

use graph_model::{Cause, State, TxnName};
use head_map::below::{Chains, Snapshot, States, Undo};

/// What the writer of the newest record says against a write.
pub fn newest_cause<S: States>(
    chains: &Chains,
    head: Option<usize>,
    snapshot: &Snapshot,
    states: &mut S,
) -> Option<Cause>
    requires head { IsHeadOf chains.now head }
    requires named { AreNamed (S.knowledge states.old).names (list_at chains.now head) }
    ensures checked { (base : Option ℕ) → IsChecked (S.knowledge states.old) (S.knowledge states.new) snapshot.now
        (take 1 (pairs_of base (list_at chains.now head))) result }
    ensures grows { Grows (S.knowledge states.old) (S.knowledge states.new) }
{
    match head {
        Some(key) => cause_of(&chains.record(key), snapshot, states),
        None => None,
    }
}

/// What the writers of all records say, each of which is a touch.
pub fn touch_cause<S: States>(
    chains: &Chains,
    head: Option<usize>,
    snapshot: &Snapshot,
    states: &mut S,
) -> Option<Cause>
    requires head { IsHeadOf chains.now head }
    requires named { AreNamed (S.knowledge states.old).names (list_at chains.now head) }
    ensures checked { IsChecked (S.knowledge states.old) (S.knowledge states.new) snapshot.now
        (touches_of (list_at chains.now head)) result }
    ensures grows { Grows (S.knowledge states.old) (S.knowledge states.new) }
{
    let mut link = head;
    let mut cause = None;
    'ask_all: while let Some(key) = link {
        let touch = chains.record(key);
        // All of them: the cause that is named is the one that counts, and not the first that is found.
        cause = combined(cause_of(&touch, snapshot, states), cause);
        link = touch.next;
    }
    cause
}

/// What those say who removed the row. Its newest value is `base`.
pub fn drop_cause<S: States>(
    chains: &Chains,
    head: Option<usize>,
    base: Option<u64>,
    snapshot: &Snapshot,
    states: &mut S,
) -> Option<Cause>
    requires head { IsHeadOf chains.now head }
    requires named { AreNamed (S.knowledge states.old).names (list_at chains.now head) }
    ensures checked { IsChecked (S.knowledge states.old) (S.knowledge states.new) snapshot.now
        (drops_in (pairs_of base (list_at chains.now head))) result }
    ensures grows { Grows (S.knowledge states.old) (S.knowledge states.new) }
{
    let mut link = head;
    let mut value = base;
    let mut cause = None;
    'ask: while let Some(key) = link {
        let undo = chains.record(key);
        // Its writer removed the row. One that left a value stands against no edge here.
        if value.is_none() {
            cause = combined(cause, cause_of(&undo, snapshot, states));
        }
        value = undo.older;
        link = undo.next;
    }
    cause
}

/// What a record's writer says against a write.
fn cause_of<S: States>(undo: &Undo, snapshot: &Snapshot, states: &mut S) -> Option<Cause>
    requires { undo.now.stamp ≡ None → (S.knowledge states.old).names undo.now.by ≡ true }
    ensures checked { IsOneChecked (S.knowledge states.old) (S.knowledge states.new) snapshot.now undo.now result }
    ensures grows { Grows (S.knowledge states.old) (S.knowledge states.new) }
{
    match state_of(undo, snapshot.own, states) {
        State::Live if undo.by != snapshot.own => Some(Cause::Holder { by: undo.by }),
        State::Committed { stamp } if snapshot.start < stamp => Some(Cause::Later { stamp }),
        _ => None,
    }
}

/// Where a record's writer stands. Whoever asks is open.
fn state_of<S: States>(undo: &Undo, own: TxnName, states: &mut S) -> State
    requires { undo.now.stamp ≡ None → (S.knowledge states.old).names undo.now.by ≡ true }
    ensures state { IsStateBy (S.knowledge states.old) (S.knowledge states.new)
        (same_name undo.now.by own) undo.now.stamp undo.now.by result }
    ensures grows { Grows (S.knowledge states.old) (S.knowledge states.new) }
{
    // Whoever asks is open, and its own word needn't be asked for that.
    if undo.by == own {
        return State::Live;
    }
    match undo.stamp {
        Some(stamp) => State::Committed { stamp },
        None => states.state(undo.by),
    }
}

/// Of two answers the one that counts.
pub fn combined(one: Option<Cause>, other: Option<Cause>) -> Option<Cause>
    ensures { result ≡ combine one other }
{
    match (one, other) {
        (None, answer) => answer,
        (answer, None) => answer,
        (Some(Cause::Holder { by: x }), Some(Cause::Holder { by: y })) => Some(Cause::Holder {
            by: if x.job <= y.job { x } else { y },
        }),
        (Some(Cause::Later { stamp: c }), Some(Cause::Later { stamp: d })) => {
            Some(Cause::Later { stamp: c.max(d) })
        }
        (Some(Cause::Holder { by }), Some(Cause::Later { stamp: _ })) => Some(Cause::Holder { by }),
        (Some(Cause::Later { stamp: _ }), Some(Cause::Holder { by })) => Some(Cause::Holder { by }),
    }
}
