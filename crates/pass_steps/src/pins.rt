//! The pins of a pass: it announces before it loads the clock, pins itself at its start, and unpins once its
//! transaction has ended.

ghost use Rattle.std.specs.Prelude.{◌≡◌, ◌<◌, ◌^◌, true, false, []};
ghost use Rattle.epoch_reclaim.specs.Pinned.{announced_word, pinned_word, unpinned};
ghost use Rattle.store_rule.specs.RuleModel.Places.{lines};
ghost use Rattle.store_rule.specs.RuleModel.Sight.{with_pin};
ghost use Rattle.store_rule.specs.StoreRelationDeclared.stage.Stage.TheVariants.{Idle, Open};
ghost use Rattle.store_rule.specs.Passes.{OnlyAccount};
ghost use Rattle.store_rule.specs.StoreWords.Steps.{MayStore};
ghost use Rattle.pass_steps.specs.Passes.{IsPassOf, pin_of, state_of};

use std::marker::Brand;
use store_rule::below::{Turn, Turns};
use store_rule::{Pass, Store};

/// Holds everything back, from before the clock is loaded.
pub(crate) fn announce(store: &Store, pass: &mut Pass)
    requires pass { IsPassOf store.now pass.old }
    requires stage { (state_of pass.old).stage ≡ Idle }
    ensures { OnlyAccount pass.old pass.new (with_pin pass.old.account.me.0 pass.old.number
        (record (pin_of pass.old) { announced = true })) }
{
    announce_as::<Brand>(store, pass);
}

/// Holds back what the open transaction sees, and no more.
pub(crate) fn pin(store: &Store, pass: &mut Pass, start: u64)
    requires pass { IsPassOf store.now pass.old }
    requires stage { (state_of pass.old).stage ≡ Open }
    requires start { (start ≡ (state_of pass.old).start) × (start < 2 ^ 63) }
    ensures { OnlyAccount pass.old pass.new (with_pin pass.old.account.me.0 pass.old.number
        (record (pin_of pass.old) { announced = false })) }
{
    pin_as::<Brand>(store, pass, start);
}

/// Holds nothing back any more, and forgets the leaves that the transaction has noted. The transaction has ended.
pub fn unpin(store: &Store, pass: &mut Pass)
    requires pass { IsPassOf store.now pass.old }
    requires stage { (state_of pass.old).stage ≡ Idle }
    ensures { OnlyAccount pass.old pass.new (with_pin pass.old.account.me.0 pass.old.number
        (record (pin_of pass.old) { announced = false; noted = [] })) }
{
    unpin_as::<Brand>(store, pass);
}

fn announce_as<C: Turn>(store: &Store, pass: &mut Pass)
    requires table { pass.old.account.table_id ≡ store.now.accounts.table.shared.table_id }
    requires number { pass.old.number < store.now.accounts.config.passes }
    requires may { MayStore store.now.accounts.config pass.old.account
        ((lines store.now.accounts.config.passes).pin pass.old.number) announced_word C.next C.told }
    ensures { OnlyAccount pass.old pass.new (C.next announced_word pass.old.account.me.0) }
{
    // Its order is that of `Pins::announce`, where the step is made; likewise below.
    let pins = store.pins();
    pins.announce::<Turns<C>>(&mut pass.account, pass.number);
}

fn pin_as<C: Turn>(store: &Store, pass: &mut Pass, start: u64)
    requires table { pass.old.account.table_id ≡ store.now.accounts.table.shared.table_id }
    requires number { pass.old.number < store.now.accounts.config.passes }
    requires start { start < 2 ^ 63 }
    requires may { MayStore store.now.accounts.config pass.old.account
        ((lines store.now.accounts.config.passes).pin pass.old.number) (pinned_word start) C.next C.told }
    ensures { OnlyAccount pass.old pass.new (C.next (pinned_word start) pass.old.account.me.0) }
{
    let pins = store.pins();
    pins.pin::<Turns<C>>(&mut pass.account, pass.number, start);
}

fn unpin_as<C: Turn>(store: &Store, pass: &mut Pass)
    requires table { pass.old.account.table_id ≡ store.now.accounts.table.shared.table_id }
    requires number { pass.old.number < store.now.accounts.config.passes }
    requires may { MayStore store.now.accounts.config pass.old.account
        ((lines store.now.accounts.config.passes).pin pass.old.number) unpinned C.next C.told }
    ensures { OnlyAccount pass.old pass.new (C.next unpinned pass.old.account.me.0) }
{
    let pins = store.pins();
    pins.unpin::<Turns<C>>(&mut pass.account, pass.number);
}
