//! Turns of the service: a sweep, then a step of merging, and so on in turn.
//!
//! 1. Neither can starve the other, whatever it answers.

ghost use Rattle.std.specs.Prelude.{◌≡◌};
ghost use Rattle.graph_model.specs.OwnerLaws.{DidServe};
ghost use Rattle.teseo_core.specs.Serving.{ServesTurn, next_turn};

use crate::store::Core;
use graph_model::NoMemory;

/// What a turn of the service does.
#[derive(Clone, Copy, Debug, PartialEq, Eq)]
pub enum ServiceTurn {
    /// Rows of a leaf are pruned.
    Sweep,
    /// A window is spread, or two leaves become one.
    Merge,
}

impl ServiceTurn {
    /// What the next turn does.
    fn next(self) -> ServiceTurn
        ensures { result ≡ next_turn self }
    {
        match self {
            ServiceTurn::Sweep => ServiceTurn::Merge,
            ServiceTurn::Merge => ServiceTurn::Sweep,
        }
    }
}

impl Core {
    /// Counts a turn of the service and passes it on to the other one, and makes the step that is in turn. Answers
    /// whether that changed a cell.
    pub(crate) fn serve_here(&mut self) -> Result<bool, NoMemory>
        ensures serves { DidServe self.old.core self.new.core }
        ensures turn { ServesTurn self.old self.new result }
    {
        let turn = self.turn;
        self.served = self.served.saturating_add(1);
        // The turn goes on whatever the step answers: a merge that runs out of memory isn't tried for ever while no
        // leaf is swept.
        self.turn = turn.next();
        match turn {
            ServiceTurn::Sweep => Ok(self.sweep_step()),
            ServiceTurn::Merge => self.merge_step(),
        }
    }
}
