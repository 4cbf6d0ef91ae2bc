//! What one load of the clock tells whoever has the index in hand: it fits all cells, those in hand among them.
//!
//! 1. What is in hand isn't known to the rule, only to the pass; a step has to say that both fit before cuts may be
//!    set.

ghost use Rattle.std.specs.Prelude.{◌≡◌};
ghost use Rattle.pass_leaves.specs.Fit.{TellsFit};
ghost use Rattle.pass_cells.specs.StoreRule.Passes.{OnlyAccount};

use pass_cells::below::{Change, Pass, Store};
use txn_manager::Config;

/// Loads the clock, and learns that the index and the cells in hand fit each other.
pub fn learn_fit(store: &Store, pass: &mut Pass)
    requires table { pass.old.account.table_id ≡ store.now.accounts.table.shared.table_id }
    ensures same { OnlyAccount pass.old pass.new pass.old.account.me.0 }
    ensures fit { TellsFit store.now.accounts.config pass.old.account.me.0 }
{
    let planned = Fitting {
        config: store.accounts.config,
    };
    store.change(pass, &planned);
}

/// A pass learns that the index fits.
#[derive(Drop)]
struct Fitting {
    /// How the store was made.
    config: Config,
}

impl Change for Fitting {
    ghost use Rattle.pass_leaves.specs.Fit.{TellsFit};

    ghost next = { λ planned n v. v };

    ghost told = { λ planned n v. TellsFit planned.config v };
}
