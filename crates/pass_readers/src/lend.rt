//! The account of a pass is lent to another one, and given back.
//!
//! 1. Both steps divide and join what seats know. They change no word, so nobody else notices them.
//! 2. The pass counts its readers that are out, and that count is what keeps it from writing and from ending.

ghost use Rattle.std.specs.Prelude.{◌≡◌, ◌<◌, [], ◌∷◌};
ghost use Rattle.pass_steps.specs.StoreRelationDeclared.stage.Stage.TheVariants.{Open};
ghost use Rattle.pass_steps.specs.RuleModel.Sight.{HasPass, no_reads, with_pass};
ghost use Rattle.pass_steps.specs.RuleModel.ViewSteps.{reader_seat};
ghost use Rattle.pass_steps.specs.StoreRelation.Readers.{ReaderState};
ghost use Rattle.pass_steps.specs.StoreRelation.Steps.{with_reader, without_reader};
ghost use Rattle.pass_cells.specs.StoreWords.Notes.{IsNote};
ghost use Rattle.pass_steps.specs.StoreWords.Steps.{Knows};
ghost use Rattle.pass_steps.specs.StoreRule.Passes.{OnlyAccount};
ghost use Rattle.pass_steps.specs.Asking.{kept_part, lent_part};
ghost use Rattle.pass_steps.specs.Passes.{HoldsNone, IsIdlePass, IsOpenPass, IsPassOf, IsSamePass, pin_of, reader_of_pass, state_in, state_of};
ghost use Rattle.pass_readers.specs.Readers.{IsReaderOf, IsReaderSeat, MayJoin, MaySplit, reader_in};

use atomic_table::{Join, Split};
use pass_steps::below::{Account, AccountSight, Accounts, Pass, Store};
use std::marker::{Brand, PhantomData};
use std::mem::replace;

/// Lends the account of an open transaction to a pass that has none: it reads by it from then on.
pub fn split_reader(store: &Store, from: &mut Pass, to: &mut Pass)
    requires from { IsOpenPass store.now from.old }
    requires to { IsIdlePass store.now to.old }
    ensures from { IsOpenPass store.now from.new }
    ensures out { state_of from.new ≡ with_reader (state_of from.old) }
    ensures same { IsSamePass from.old from.new × (pin_of from.new ≡ pin_of from.old) }
    ensures reader { IsReaderOf store.now (reader_of_pass from.old) to.new }
    ensures none { HoldsNone to.new }
    ensures own { (state_of to.new ≡ state_of to.old) × (pin_of to.new ≡ pin_of to.old) }
    ensures number { to.new.number ≡ to.old.number }
{
    lend(store, from, to);
}

fn lend(store: &Store, from: &mut Pass, to: &mut Pass)
    requires from { IsOpenPass store.now from.old }
    requires to { IsIdlePass store.now to.old }
    ensures from { OnlyAccount from.old from.new (with_pass from.old.account.me.0 from.old.number
        (with_reader (state_of from.old))) }
    ensures reader { IsReaderOf store.now (reader_of_pass from.old) to.new }
    ensures none { HoldsNone to.new }
    ensures state { (state_of to.new ≡ state_of to.old) × (pin_of to.new ≡ pin_of to.old) }
    ensures number { to.new.number ≡ to.old.number }
{
    let reader = split_off(&store.accounts, &mut from.account, from.number);
    let own = replace(&mut to.account, reader);
    // What the pass knows of itself stays beside the lent account, and is all that is left once that goes back.
    store.accounts.join(&mut to.account, own);
}

/// Gives the account back: the reader is a pass without a transaction again.
pub fn join_reader(store: &Store, from: &mut Pass, to: &mut Pass)
    requires from { IsOpenPass store.now from.old }
    requires reader { (x : ReaderState) × IsReaderOf store.now x to.old × (x.by.job ≡ from.old.number) }
    requires none { HoldsNone to.old }
    ensures from { IsOpenPass store.now from.new }
    ensures out { state_of from.new ≡ without_reader (state_of from.old) }
    ensures same { IsSamePass from.old from.new × (pin_of from.new ≡ pin_of from.old) }
    ensures idle { IsIdlePass store.now to.new }
    ensures own { (state_of to.new ≡ state_of to.old) × (pin_of to.new ≡ pin_of to.old) }
    ensures number { to.new.number ≡ to.old.number }
{
    take_back(store, from, to);
}

fn take_back(store: &Store, from: &mut Pass, to: &mut Pass)
    requires from { IsPassOf store.now from.old }
    requires reader { (x : ReaderState) × IsReaderOf store.now x to.old × (x.by.job ≡ from.old.number) }
    requires none { HoldsNone to.old }
    ensures from { OnlyAccount from.old from.new (with_pass from.old.account.me.0 from.old.number
        (without_reader (state_of from.old))) }
    ensures idle { IsIdlePass store.now to.new }
    ensures state { (state_of to.new ≡ state_of to.old) × (pin_of to.new ≡ pin_of to.old) }
    ensures number { to.new.number ≡ to.old.number }
{
    // First what was its own, so that nothing of it goes away with the lent account.
    let own = take_own(&store.accounts, &mut to.account);
    let reader = replace(&mut to.account, own);
    take_in(&store.accounts, &mut from.account, reader, from.number);
}

/// How a view is cut where a reader goes.
trait Lending {
    ghost use Rattle.pass_steps.specs.RuleModel.Sight.{Sight};

    ghost left: { Sight → Sight };

    ghost right: { Sight → Sight };
}

impl Lending for Brand {
    ghost use Rattle.pass_steps.specs.RuleModel.Sight.{no_sight};

    ghost left = { λ v. v };

    ghost right = { λ v. no_sight };
}

/// The same as a split of the table.
struct Lends<N> {
    of: PhantomData<N>,
}

impl<N: Lending> Split<AccountSight> for Lends<N> {
    ghost left = { λ v. N.left v };

    ghost right = { λ v. N.right v };
}

/// And the way back: what the pass knows once its reader is in.
impl<N: Lending> Join<AccountSight> for Lends<N> {
    ghost use Rattle.pass_steps.specs.RuleModel.Sight.{no_sight};

    ghost both = { λ v w. N.left v };

    ghost spent = { no_sight };
}

/// A seat that has a reader of this pass, and nothing else.
fn split_off(accounts: &Accounts, seat: &mut Account, number: u32) -> Account
    requires table { seat.old.table_id ≡ accounts.now.table.shared.table_id }
    requires opened { HasPass seat.old.me.0 number (state_in seat.old.me.0 number)
        × ((state_in seat.old.me.0 number).stage ≡ Open) }
    ensures kept { Knows seat.old seat.new (with_pass seat.old.me.0 number
        (with_reader (state_in seat.old.me.0 number))) }
    ensures reader { IsNote accounts.now.table.shared.table_id
        (reader_seat (reader_in seat.old.me.0 number) [] no_reads) result }
{
    split_as::<Brand>(accounts, seat, number)
}

fn split_as<N: Lending>(accounts: &Accounts, seat: &mut Account, _number: u32) -> Account
    requires table { seat.old.table_id ≡ accounts.now.table.shared.table_id }
    requires may { MaySplit accounts.now.config seat.old.me.0 (N.left seat.old.me.0) (N.right seat.old.me.0) }
    ensures left { Knows seat.old seat.new (N.left seat.old.me.0) }
    ensures right { IsNote accounts.now.table.shared.table_id (N.right seat.old.me.0) result }
{
    // Changes no word. The load that it makes, of a word that nobody writes, needs no order.
    accounts.table.shared.split_seat::<Lends<N>>(seat)
}

/// Takes a reader of this pass in.
fn take_in(accounts: &Accounts, seat: &mut Account, reader: Account, number: u32)
    requires table { seat.old.table_id ≡ accounts.now.table.shared.table_id }
    requires other { (reader.table_id ≡ accounts.now.table.shared.table_id) × (reader.me.1 ≡ []) }
    requires pass { HasPass seat.old.me.0 number (state_in seat.old.me.0 number) }
    requires reader { IsReaderSeat number reader.me.0 }
    ensures { Knows seat.old seat.new (with_pass seat.old.me.0 number
        (without_reader (state_in seat.old.me.0 number))) }
{
    join_as::<Brand>(accounts, seat, reader, number);
}

fn join_as<N: Lending>(accounts: &Accounts, seat: &mut Account, reader: Account, _number: u32)
    requires table { seat.old.table_id ≡ accounts.now.table.shared.table_id }
    requires other { (reader.table_id ≡ accounts.now.table.shared.table_id) × (reader.me.1 ≡ []) }
    requires may { MayJoin accounts.now.config seat.old.me.0 reader.me.0 (N.left seat.old.me.0) }
    ensures { Knows seat.old seat.new (N.left seat.old.me.0) }
{
    // As a split.
    accounts.table.shared.join_seat::<Lends<N>>(seat, reader);
}

/// What a reader knows of its own pass goes to a seat of its own.
fn take_own(accounts: &Accounts, seat: &mut Account) -> Account
    requires { seat.old.table_id ≡ accounts.now.table.shared.table_id }
    ensures kept { Knows seat.old seat.new (kept_part seat.old.me.0) }
    ensures own { IsNote accounts.now.table.shared.table_id (lent_part seat.old.me.0) result }
{
    accounts.cut_as::<Brand, ()>(seat, &())
}
