//! Whoever knows that all transactions have committed.

ghost use Rattle.std.specs.Prelude.{true, Some};

use graph_model::{State, TxnName};
use undo_chain::States;

/// All transactions have committed with stamp 3.
#[derive(Drop)]
pub struct AllCommitted {}

impl States for AllCommitted {
    ghost use Rattle.std.specs.Prelude.{true, Some};

    ghost knowledge = { λ s. record {
      known = 18446744073709551615;
      stamps = λ by. Some 3;
      names = λ by. true;
      vouched = λ by state. true;
    } };

    fn state(&mut self, _by: TxnName) -> State {
        State::Committed { stamp: 3 }
    }
}
