//! All that is published is seen by one load of the clock.
//!
//! A pass has no need of the journal for that. What it has seen is read by proofs alone, and which commits are
//! published when the clock is loaded is known to some seat: so the load tells it with the number.

ghost use Rattle.std.specs.Prelude.{◌≡◌, ℕ, List};
ghost use Rattle.graph_model.specs.declared.journal.Commit.{Commit};
ghost use Rattle.pass_steps.specs.StoreRule.Passes.{OnlyAccount};
ghost use Rattle.pass_steps.specs.Passes.{IsPassOf, state_of};
ghost use Rattle.pass_sweeps.specs.SweepLaws.{TellsWriters};
ghost use Rattle.pass_sweeps.specs.Sweeping.{MaySee, SeesPublished};

use atomic_table::Play;
use pass_steps::below::{AccountSight, Change, Pass, Store};
use std::marker::{Brand, PhantomData};
use txn_manager::Config;

/// What a load of the clock makes of what its seat knows, by the commits that are published then, and what it tells.
pub trait Publishing {
    ghost use Rattle.std.specs.Prelude.{ℕ, List};
    ghost use Rattle.graph_model.specs.declared.journal.Commit.{Commit};
    ghost use Rattle.pass_steps.specs.RuleModel.Sight.{Sight};

    ghost next: { List Commit → Sight → Sight };

    ghost told: { ℕ → List Commit → Sight → Type 0 };
}

impl Publishing for Brand {
    ghost next = { λ commits v. v };

    ghost told = { λ n commits v. Unit {0} };
}

/// The same as a step of the table.
pub struct Publishes<C> {
    of: PhantomData<C>,
}

impl<C: Publishing> Play<(), AccountSight> for Publishes<C> {
    ghost use Rattle.std.specs.Prelude.{List};
    ghost use Rattle.graph_model.specs.declared.journal.Commit.{Commit};

    ghost then = { λ _ before n after. (commits : List Commit) × (after ≡ (C.next commits before.0, before.1))
        × C.told n commits before.0 };
}

/// Has the pass see all that is published.
pub(crate) fn see_published(store: &Store, pass: &mut Pass)
    requires pass { IsPassOf store.now pass.old }
    ensures { SeesPublished store.now pass.old pass.new }
{
    see_as::<Brand>(store, pass);
}

fn see_as<C: Publishing>(store: &Store, pass: &mut Pass)
    requires table { pass.old.account.table_id ≡ store.now.accounts.table.shared.table_id }
    requires may { MaySee store.now.accounts.config pass.old.account C.next C.told }
    ensures { (n : ℕ) × (commits : List Commit)
        × OnlyAccount pass.old pass.new (C.next commits pass.old.account.me.0)
        × C.told n commits pass.old.account.me.0 }
{
    let place = store.accounts.clock_place();
    // Sequentially consistent, and needs an acquire: what was committed up to the number is there. More may be
    // published by the time that the pass goes on, and it says nothing of that.
    store
        .accounts
        .table
        .shared
        .load::<Publishes<C>>(&mut pass.account, place);
}

/// Loads the clock, and learns that whoever wrote a record without a stamp, in the rows that the pass holds, is a pass
/// of the store.
pub fn learn_writers(store: &Store, pass: &mut Pass) -> u64
    requires pass { IsPassOf store.now pass.old }
    ensures same { OnlyAccount pass.old pass.new pass.old.account.me.0 }
    ensures told { TellsWriters store.now.accounts.config pass.old.account.me.0 (state_of pass.old) result }
{
    let planned = LearnsWriters {
        config: store.accounts.config,
        number: pass.number,
    };
    store.change(pass, &planned)
}

/// A pass learns of the writers in the rows that it holds.
#[derive(Drop)]
struct LearnsWriters {
    /// How the store was made.
    config: Config,
    /// The number of the pass.
    number: u32,
}

impl Change for LearnsWriters {
    ghost use Rattle.pass_steps.specs.Passes.{state_in};
    ghost use Rattle.pass_sweeps.specs.SweepLaws.{TellsWriters};

    ghost next = { λ planned n v. v };

    ghost told = { λ planned n v. TellsWriters planned.config v (state_in v planned.number) n };
}
