//! The rule of the account table, and what its seats know.
//!
//! 1. It is the one rule of `rule_model`, as the table asks for it; no value of a sight is ever made.

use atomic_table::{Seat, TableRule};
use std::marker::Model;
use txn_manager::Config;

/// What a seat of the account table knows. No value of it is made: it stands in proofs alone, and takes no bytes.
pub struct AccountSight {
    nothing: (),
}

impl Model for AccountSight {
    ghost use Rattle.rule_model.specs.Sight.{Sight, no_sight};

    ghost Value = { Sight };

    ghost view = { λ s. no_sight };
}

/// What the table is told once: how the store is made, and by a seat what is known of it at first.
#[derive(Drop)]
pub struct Beginning {
    /// How the store is made.
    pub config: Config,
    /// What is known of it at first.
    pub first: Account,
}

/// The rule of a store that is made with a configuration.
pub struct AccountRule;

impl TableRule<(), AccountSight, Beginning> for AccountRule {
    ghost use Rattle.store_words.specs.Steps.{IsAccountTable};

    ghost holds = { λ b s. IsAccountTable b.config s };

    ghost first = { λ b. b.first.me.0 };
}

/// A seat of the account table.
pub type Account = Seat<(), AccountSight>;
