//! The store, from its making to its end.
//!
//! 1. Between calls no session works and none has a transaction: a call that lends them has all back before it returns.
//! 2. So whoever has the store has all of its sessions, and may close it without asking anybody.

ghost use Rattle.std.specs.Prelude.{◌≡◌, ◌≤◌, ◌↔◌, Err, IfErr, IfOk, true, length};
ghost use Rattle.std.specs.List.{AllByRecursion};
ghost use Rattle.graph_model.specs.Graph.{empty_graph};
ghost use Rattle.graph_model.specs.History.{graph_at};
ghost use Rattle.graph_model.specs.Legal.{IsLegal};
ghost use Rattle.graph_model.specs.Loading.{IsAdd};
ghost use Rattle.graph_model.specs.Refused.{AllAllowed, IsWithinLimits};
ghost use Rattle.rebalance_service.specs.SharedStore.Ends.{AreEnds, AreIdle, AreNew, HasClosed};
ghost use Rattle.rebalance_service.specs.SharedStore.Loading.{AreLoaded, IsLoadedRefusal};
ghost use Rattle.rebalance_service.specs.SharedStore.Totals.{AreTotals};
ghost use Rattle.rebalance_service.specs.SharedStoreDeclared.load.LoadedRefusal.TheVariants as loads;
ghost use Rattle.teseo_store.specs.Lending.{AreDone, HaveSeenFronts, IsDoneByLast};
ghost use Rattle.txn_manager.specs.Config.{too_large};
ghost use Rattle.txn_manager.specs.declared.config.StoreRefusal.TheVariants.{TooLarge};

use crate::lend::{Work, work_on, work_with_last};
use graph_model::Writes;
use rebalance_service::below::{
    Closed, LoadedRefusal, Passes, Store as Shared, close, loaded, new,
};
use std::alloc::Global;
use std::sync::Wait;
use std::thread::Threads;
use txn_manager::{Config, StoreRefusal};

/// A graph under transactions, with its sessions, of which none works.
pub struct GraphStore {
    pub(crate) shared: Shared,
    pub(crate) passes: Passes,
    pub ghost some: { 1 ≤ shared.accounts.config.passes },
    pub ghost idle: { ∥ AreIdle shared passes.list.items ∥₁ },
    pub ghost ends: { ∥ AreEnds shared passes.ends ∥₁ },
}

impl GraphStore {
    /// Opens a store without vertices.
    pub fn open(alloc: Global, config: Config) -> Result<GraphStore, StoreRefusal>
        ensures too_large { (result ≡ Err TooLarge) ↔ (too_large config ≡ true) }
        ensures config { IfOk result (λ store. store.shared.accounts.config ≡ config) }
        ensures sessions { IfOk result (λ store. AreNew store.shared store.passes.list.items) }
    {
        match new(alloc, config) {
            Ok((shared, passes)) => Ok(GraphStore { shared, passes }),
            Err(refused) => Err(refused),
        }
    }

    /// Opens a store with a graph in it, as if session 0 had added and committed it. Where there is nothing to load it is
    /// as `open` makes it.
    pub fn load(alloc: Global, config: Config, graph: Writes) -> Result<GraphStore, LoadedRefusal>
        requires adds { AllByRecursion IsAdd graph }
        requires allowed { AllAllowed config.kind empty_graph graph }
        requires within { AllByRecursion IsWithinLimits graph }
        ensures too_large { (result ≡ Err loads.TooLarge) ↔ (too_large config ≡ true) }
        ensures refused { IfErr result (λ refusal. IsLoadedRefusal config graph refusal) }
        ensures config { IfOk result (λ store. store.shared.accounts.config ≡ config) }
        ensures sessions { IfOk result (λ store. AreLoaded graph store.shared store.passes.list.items) }
    {
        match loaded(alloc, config, graph) {
            Ok((shared, passes)) => Ok(GraphStore { shared, passes }),
            Err(refused) => Err(refused),
        }
    }

    /// How many sessions it has.
    pub fn sessions(&self) -> u32
        ensures { result ≡ self.now.shared.accounts.config.passes }
    {
        self.shared.config().passes
    }

    /// Has each work done with a session of its own, in a thread of its own. Returns once all are done. May wait.
    pub fn run<R: Threads + Wait + Sync, W: Work + Send>(&mut self, rt: &R, works: &mut [W])
        requires enough { length works.old ≤ self.old.shared.accounts.config.passes }
        ensures store { self.new.shared ≡ self.old.shared }
        ensures done { AreDone W.did self.old.shared works.old works.new self.old.passes.list.items
            self.new.passes.list.items }
    {
        work_on(rt, &self.shared, &mut self.passes.list, works);
    }

    /// Has a work done with one of its sessions, in this thread. May wait.
    pub fn run_one<R: Wait, W: Work>(&mut self, rt: &R, work: &mut W)
        ensures store { self.new.shared ≡ self.old.shared }
        ensures done { IsDoneByLast W.did self.old.shared work.old work.new (λ rest after. after ≡ rest)
            self.old.passes.list.items self.new.passes.list.items }
    {
        work_with_last(rt, &self.shared, &mut self.passes.list, work);
    }

    /// Closes the store, and answers the journal of all commits, and how many vertices and edges are left.
    pub fn close(self) -> Closed
        ensures journal { HasClosed self.shared.accounts.config self.passes.list.items result.journal }
        ensures seen { HaveSeenFronts self.shared self.passes.list.items result.journal }
        ensures legal { IsLegal self.shared.accounts.config.kind result.journal }
        ensures totals { AreTotals self.shared.accounts.config.kind
            (graph_at self.shared.accounts.config.kind result.journal (length result.journal)) result.totals }
    {
        let GraphStore { shared, passes } = self;
        close(shared, passes)
    }
}
