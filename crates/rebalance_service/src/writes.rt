//! Writes of the worker, as one call.

ghost use Rattle.std.specs.Prelude.{◌≡◌, IsSome};
ghost use Rattle.graph_model.specs.AccountSteps.{WritesBy};
ghost use Rattle.graph_model.specs.Refused.{IsWithinLimits};
ghost use Rattle.worker_calls.specs.Ready.{HasSeenLegal};
ghost use Rattle.worker_calls.specs.SharedStore.Passes.{account_of};

use crate::worker::{Home, Worker};
use graph_model::{Refusal, Write};
use std::sync::Wait;
use worker_calls::calls;

impl<'a, R: Wait, H: Home> Worker<'a, R, H> {
    /// Makes a write of the open transaction, or says why it isn't made.
    pub(crate) fn make_write(&mut self, write: Write) -> Result<(), Refusal>
        requires current { IsSome (account_of self.old.store.now self.old.pass).start }
        requires within { IsWithinLimits write }
        ensures writes { WritesBy (account_of self.old.store.now self.old.pass) write result
            (account_of self.new.store.now self.new.pass) }
        ensures legal { HasSeenLegal (account_of self.new.store.now self.new.pass) }
        ensures served { self.new.served ≡ self.old.served }
    {
        calls::write(self.rt, self.store, &mut self.pass, &mut self.room, write)
    }
}
