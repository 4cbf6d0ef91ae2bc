//! The engine with the calls that look after its leaves.

ghost use Rattle.std.specs.Prelude.{◌≡◌};
ghost use Rattle.teseo_core.specs.Keeping.{NoneOpen};

use graph_model::{NoMemory, StepEngine};
use teseo_core::Core;
use txn_manager::Totals;

/// An engine with the calls that keep its store small, and those that tell what it holds. None of them changes anything
/// of transactions.
pub trait LeafEngine: StepEngine {
    /// Sweeps the next leaf, and answers whether a record went.
    fn sweep_step(&mut self) -> bool
        ensures { Self.core self.new ≡ Self.core self.old };

    /// Brings rows together once, and answers whether there was anything to bring together.
    fn merge_step(&mut self) -> Result<bool, NoMemory>
        ensures { Self.core self.new ≡ Self.core self.old };

    /// Leaves the store without records and without retired leaves.
    fn settle(&mut self)
        requires { NoneOpen (Self.core self.old) }
        ensures { Self.core self.new ≡ Self.core self.old };

    fn totals(&self) -> Totals;

    fn leaves_in_use(&self) -> u32;
}

impl LeafEngine for Core {
    fn sweep_step(&mut self) -> bool {
        Core::sweep_step(self)
    }

    fn merge_step(&mut self) -> Result<bool, NoMemory> {
        Core::merge_step(self)
    }

    fn settle(&mut self) {
        Core::settle(self);
    }

    fn totals(&self) -> Totals {
        Core::totals(self)
    }

    fn leaves_in_use(&self) -> u32 {
        Core::leaves_in_use(self)
    }
}
