//! The end of a transaction that isn't committed: it stops, its writes are taken back, and it has ended.
//!
//! 1. It stops first: from then on it can't commit, so a half of its writes never does.
//! 2. Its word changes last: whoever meets one of its records asks that word, as long as there is a record.

ghost use Rattle.std.specs.Prelude.{◌≡◌, [], None};
ghost use Rattle.store_rule.specs.RuleModel.Sight.{with_pass};
ghost use Rattle.store_rule.specs.StoreRelationDeclared.stage.Stage.TheVariants.{Aborting, Open};
ghost use Rattle.store_rule.specs.StoreRelation.Steps.{ended, stopped};
ghost use Rattle.store_rule.specs.Passes.{OnlyAccount};
ghost use Rattle.pass_steps.specs.Passes.{IsPassOf, state_of};

use std::marker::Brand;
use store_rule::{Change, Pass, Store};

/// The word of a pass whose transaction has ended without a commit.
const ENDED: u64 = 2;

/// From then on the open transaction can't commit. Its writes still stand.
pub fn stop(store: &Store, pass: &mut Pass)
    requires pass { IsPassOf store.now pass.old }
    requires stage { (state_of pass.old).stage ≡ Open }
    requires alone { (state_of pass.old).readers_out ≡ 0 }
    ensures { OnlyAccount pass.old pass.new (with_pass pass.old.account.me.0 pass.old.number
        (stopped (state_of pass.old))) }
{
    // Changes no word: to others it stays open until its records are gone, and so they keep off its rows.
    let planned = Stops {
        number: pass.number,
    };
    store.change(pass, &planned);
}

/// A transaction stops.
#[derive(Drop)]
struct Stops {
    /// The number of the pass.
    number: u32,
}

impl Change for Stops {
    ghost use Rattle.pass_steps.specs.Passes.{state_in};
    ghost use Rattle.store_rule.specs.RuleModel.Sight.{with_pass};
    ghost use Rattle.store_rule.specs.StoreRelation.Steps.{stopped};

    ghost next = { λ planned n v. with_pass v planned.number (stopped (state_in v planned.number)) };

    ghost told = { λ planned n v. Unit {0} };
}

/// The transaction that has stopped has ended. None of its writes stands any more.
pub fn end(store: &Store, pass: &mut Pass)
    requires pass { IsPassOf store.now pass.old }
    requires stage { (state_of pass.old).stage ≡ Aborting }
    requires laid { (state_of pass.old).laid ≡ [] }
    ensures { OnlyAccount pass.old pass.new (with_pass pass.old.account.me.0 pass.old.number
        (ended (state_of pass.old) None)) }
{
    let number = pass.number;
    let place = store.accounts.pass_place(number);
    // Needs no order: no record speaks for the transaction any more, so nobody asks for it by this word.
    store
        .accounts
        .store_as::<Brand, u32>(&mut pass.account, place, ENDED, &number);
}
