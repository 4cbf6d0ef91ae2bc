//! What one load of the clock tells a reader of the rows in cells that it holds.
//!
//! 1. The load changes no word. What it teaches is what the rule allows to whoever holds the rows at that moment.

ghost use Rattle.std.specs.Prelude.{◌≡◌, [], ◌∷◌};
ghost use Rattle.pass_steps.specs.RuleModel.NoteSteps.{LearnsRows};
ghost use Rattle.pass_steps.specs.StoreRule.Passes.{OnlyAccount};
ghost use Rattle.pass_readers.specs.Readers.{read_by};

use pass_steps::below::{Change, Pass, Store};
use txn_manager::Config;

/// Loads the clock, and learns of the rows that the reader holds what it sees in them.
pub fn learn_rows(store: &Store, reader: &mut Pass) -> u64
    requires table { reader.old.account.table_id ≡ store.now.accounts.table.shared.table_id }
    requires reads { reader.old.account.me.0.readers ≡ read_by reader.old ∷ [] }
    ensures same { OnlyAccount reader.old reader.new reader.old.account.me.0 }
    ensures learnt { LearnsRows store.now.accounts.config reader.old.account.me.0 (read_by reader.old) result }
{
    let planned = ReaderLearns {
        config: store.accounts.config,
    };
    store.change(reader, &planned)
}

/// A reader learns of the rows that it holds.
#[derive(Drop)]
struct ReaderLearns {
    config: Config,
}

impl Change for ReaderLearns {
    ghost use Rattle.pass_steps.specs.RuleModel.NoteSteps.{LearnsRows};
    ghost use Rattle.pass_readers.specs.Readers.{read_in};

    ghost next = { λ planned n v. v };

    ghost told = { λ planned n v. LearnsRows planned.config v (read_in v) n };
}
