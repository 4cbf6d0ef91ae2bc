//! What one load of the clock tells of the rows in cells that are held: they give the view, and of their records it is
//! known who wrote them.

ghost use Rattle.std.specs.Prelude.{◌≡◌};
ghost use Rattle.store_rule.specs.RuleModel.NoteSteps.{LearnsRows};
ghost use Rattle.store_rule.specs.StoreRelationDeclared.stage.Stage.TheVariants.{Open};
ghost use Rattle.store_rule.specs.Passes.{OnlyAccount};
ghost use Rattle.pass_steps.specs.Passes.{IsPassOf, reader_of_pass, state_of};

use store_rule::{Change, Pass, Store};
use txn_manager::Config;

/// Loads the clock, and learns of the rows that the pass holds what its open transaction sees in them.
pub fn learn(store: &Store, pass: &mut Pass) -> u64
    requires pass { IsPassOf store.now pass.old }
    requires stage { (state_of pass.old).stage ≡ Open }
    ensures same { OnlyAccount pass.old pass.new pass.old.account.me.0 }
    ensures learnt { LearnsRows store.now.accounts.config pass.old.account.me.0 (reader_of_pass pass.old) result }
{
    let planned = Learns {
        config: store.accounts.config,
        number: pass.number,
    };
    store.change(pass, &planned)
}

/// A pass learns of the rows that it holds.
#[derive(Drop)]
struct Learns {
    /// How the store was made.
    config: Config,
    /// The number of the pass.
    number: u32,
}

impl Change for Learns {
    ghost use Rattle.pass_steps.specs.Passes.{state_in};
    ghost use Rattle.store_rule.specs.RuleModel.NoteSteps.{LearnsRows};
    ghost use Rattle.store_rule.specs.StoreRelation.Readers.{reader_of};

    ghost next = { λ planned n v. v };

    ghost told = { λ planned n v. LearnsRows planned.config v
        (reader_of (λ _. state_in v planned.number) planned.number) n };
}
