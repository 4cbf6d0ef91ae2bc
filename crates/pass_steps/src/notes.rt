//! Whom a write meets, as its pass notes it: so that what is answered as the cause of a conflict holds when the store
//! is closed, and against the journal.

ghost use Rattle.std.specs.Prelude.{◌≡◌, ◌+◌, ◌-◌, ◌<◌, Contains, Some, length, slice_get};
ghost use Rattle.graph_model.specs.Conflict.{later};
ghost use Rattle.store_rule.specs.StoreRelation.Steps.{meeting};
ghost use Rattle.store_rule.specs.Passes.{OnlyAccount};
ghost use Rattle.pass_steps.specs.Notes.{MeetsHolder, MeetsLater, holder_named, later_noted};
ghost use Rattle.pass_steps.specs.Passes.{IsOpenPass, IsPassOf, IsSamePass, pin_of, state_of};
ghost use Rattle.pass_steps.specs.Txns.{Refreshes};

use crate::seen::refresh;
use graph_model::{TxnName, Write};
use std::sync::Wait;
use store_rule::{Change, Pass, Store};

/// Notes an open transaction, at one of whose records the write looks, and that it is named as the cause.
pub fn name_holder(store: &Store, pass: &mut Pass, by: TxnName, write: Write)
    requires pass { IsPassOf store.now pass.old }
    requires meets { MeetsHolder store.now.accounts.config pass.old.account.me.0 (state_of pass.old) write by }
    ensures { OnlyAccount pass.old pass.new (holder_named pass.old.number by write pass.old.account.me.0) }
{
    let number = pass.number;
    store.change(pass, &FindsHolder { number, by, write });
    store.change(pass, &NamesHolder { number });
}

/// The holder of a clashing write is found.
#[derive(Drop)]
struct FindsHolder {
    /// The number of the pass.
    number: u32,
    /// The name of the holder.
    by: TxnName,
    /// The write that clashes.
    write: Write,
}

impl Change for FindsHolder {
    ghost use Rattle.pass_steps.specs.Notes.{holder_found};

    ghost next = { λ planned n v. holder_found planned.number planned.by planned.write v };

    ghost told = { λ planned n v. Unit {0} };
}

/// The holder that was found last is named.
#[derive(Drop)]
struct NamesHolder {
    /// The number of the pass.
    number: u32,
}

impl Change for NamesHolder {
    ghost use Rattle.pass_steps.specs.Notes.{last_holder_named};

    ghost next = { λ planned n v. last_holder_named planned.number v };

    ghost told = { λ planned n v. Unit {0} };
}

/// Notes a commit, at one of whose records the write looks.
pub fn note_later(store: &Store, pass: &mut Pass, write: Write, stamp: u64)
    requires pass { IsPassOf store.now pass.old }
    requires meets { MeetsLater store.now.accounts.config pass.old.account.me.0 (state_of pass.old) write stamp }
    ensures { OnlyAccount pass.old pass.new (later_noted pass.old.number write stamp pass.old.account.me.0) }
{
    let number = pass.number;
    let planned = NotesLater {
        number,
        write,
        stamp,
    };
    store.change(pass, &planned);
}

/// A clashing commit is noted.
#[derive(Drop)]
struct NotesLater {
    /// The number of the pass.
    number: u32,
    /// The write that clashes.
    write: Write,
    /// The stamp of the commit that it clashes with.
    stamp: u64,
}

impl Change for NotesLater {
    ghost use Rattle.pass_steps.specs.Notes.{later_noted};

    ghost next = { λ planned n v. later_noted planned.number planned.write planned.stamp v };

    ghost told = { λ planned n v. Unit {0} };
}

/// Has the pass see the commit that it has noted last, which stands after its start. It waits for the journal: the
/// commit's pass has it until the commit is published.
pub fn see_later(rt: &impl Wait, store: &Store, pass: &mut Pass, write: Write, stamp: u64)
    requires pass { IsOpenPass store.now pass.old }
    requires noted { slice_get (state_of pass.old).met 0 ≡ Some (meeting write (stamp - 1)) }
    requires behind { (state_of pass.old).start < stamp }
    ensures pass { IsOpenPass store.now pass.new }
    ensures seen { Refreshes store.now.accounts.config (state_of pass.old)
        (length (state_of pass.new).seen) (state_of pass.new) }
    ensures later { Contains (later store.now.accounts.config.kind (state_of pass.new).seen
        (state_of pass.old).start write) stamp }
    ensures pin { pin_of pass.new ≡ pin_of pass.old }
    ensures same { IsSamePass pass.old pass.new }
{
    'looks: for _ in rt.forever() {
        // A commit whose stamp stands in a record may not be published yet: its pass has the journal then, and
        // publishes before it gives it back.
        let clock = refresh(rt, store, pass);
        if stamp <= clock {
            return;
        }
    }
    unreachable!()
}
