//! The load of the clock by which a pass knows other contents.
//!
//! 1. Nobody else's view changes by it. It is a step since the rule is kept by steps alone, and the clock is a word
//!    that any pass may load.

ghost use Rattle.std.specs.Prelude.{◌≡◌};
ghost use Rattle.loaded_cells.specs.RuleModel.Places.{lines};
ghost use Rattle.store_rule.specs.Passes.{OnlyAccount};
ghost use Rattle.store_words.specs.Steps.{MayLoad};

use crate::store::{Pass, Store};
use std::marker::Brand;

/// What a pass knows once it has loaded the clock, by the number that it finds, and what it is told then. It has no
/// calls: a plan of a write, an undo, a move or another kind of step says what the pass knows after it.
pub trait Change {
    ghost use Rattle.std.specs.Prelude.{ℕ};
    ghost use Rattle.loaded_cells.specs.RuleModel.Sight.{Sight};

    ghost next: { Self → ℕ → Sight → Sight };

    ghost told: { Self → ℕ → Sight → Type 0 };
}

impl Store {
    /// Makes a planned change by one load of the clock: from then on the pass's view has the new contents. A law of
    /// `rule_model` shows that it may.
    pub fn change<C: Change>(&self, pass: &mut Pass, planned: &C) -> u64
        requires table { pass.old.account.table_id ≡ self.now.accounts.table.shared.table_id }
        requires may { MayLoad self.now.accounts.config pass.old.account
            (lines self.now.accounts.config.passes).clock (C.next planned.now) (C.told planned.now) }
        ensures changed { OnlyAccount pass.old pass.new
            (C.next planned.now result pass.old.account.me.0) }
        ensures told { C.told planned.now result pass.old.account.me.0 }
    {
        // Changes no word. Sequentially consistent, and has to be an acquire where the plan uses the number: what was
        // committed up to it is there. The clock may have risen since, and a plan says nothing of later commits.
        let place = self.accounts.clock_place();
        self.accounts
            .load_as::<Brand, C>(&mut pass.account, place, planned)
    }
}
