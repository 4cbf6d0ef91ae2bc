//! The store of one owner.
//!
//! 1. A commit gives the writes of the pass to the manager and touches no row: the manager tells the stamp of the name
//!    from then on, so all of its rows are seen at once.
//! 2. All memory that a commit or an abort needs is taken before, with the writes themselves.

ghost use Rattle.std.specs.Prelude.{◌≡◌, ◌<◌, ◌-◌, ◌↔◌, None, Some, IsSome, IfOk, Err, length, replicate, true};
ghost use Rattle.graph_model.specs.OwnerCalls.{current, pass_at};
ghost use Rattle.graph_model.specs.OwnerLaws.{DidBegin, DidCommit, DidAbort};
ghost use Rattle.txn_manager.specs.Config.{too_large};
ghost use Rattle.txn_manager.specs.declared.config.StoreRefusal.TheVariants.{TooLarge};
ghost use Rattle.teseo_core.specs.Passes.{new_pass};
ghost use Rattle.teseo_core.specs.Writing.{writing_since};
ghost use Rattle.teseo_core.specs.Keeping.{IsNewStore, KeepsService, states_of};

use crate::pass::OwnerPass;
use crate::serve::ServiceTurn;
use crate::sweep::SweepStart;
use graph_model::{BeginRefusal, Begun, Commit, Kind, NoMemory, TxnName};
use leaf_rows::{LeafRows, Reader};
use std::alloc::Global;
use std::marker::Model;
use txn_manager::{Config, StoreRefusal, TxnManager};

/// A graph under transactions of one owner, in leaves of gapped sorted segments.
#[derive(Drop)]
pub struct Core {
    pub(crate) alloc: Global,
    /// Whether an edge is one arc or two.
    pub(crate) kind: Kind,
    /// How many leaves there are.
    pub(crate) leaves: u32,
    /// The journal, and where transactions stand.
    pub(crate) manager: TxnManager,
    /// By number.
    pub(crate) passes: Vec<OwnerPass>,
    /// The one that the next calls speak of.
    pub(crate) selected: u32,
    /// How many turns of the service there were.
    pub(crate) served: u64,
    /// What the leaves hold.
    pub(crate) rows: LeafRows,
    /// Where the next sweep begins.
    pub(crate) next: SweepStart,
    /// What the next turn of the service does.
    pub(crate) turn: ServiceTurn,
}

impl Model for Core {
    ghost use Rattle.teseo_core.specs.Keeping.{Store, core_of, IsKept};

    ghost Value = { Store };

    ghost view = { λ c. record {
      core = core_of c.kind c.leaves c.manager c.passes.items c.selected c.served;
      rows = c.rows;
      next = c.next.key;
      turn = c.turn;
    } };

    ghost invariant = { λ c.
        IsKept (core_of c.kind c.leaves c.manager c.passes.items c.selected c.served) c.manager c.rows };
}

impl Core {
    /// An engine with the empty graph, whose passes have begun nothing.
    pub fn new(alloc: Global, config: Config) -> Result<Core, StoreRefusal>
        ensures too_large { (result ≡ Err TooLarge) ↔ (too_large config ≡ true) }
        ensures ok { IfOk result (λ core. IsNewStore config core) }
    {
        if config.is_too_large() {
            return Err(StoreRefusal::TooLarge);
        }
        // The tables of passes and of leaves are made here; a leaf gets memory for its rows when it is first taken.
        let manager = TxnManager::new(alloc, config.passes, config.txns_per_pass)?;
        let passes = new_passes(alloc, config.passes, config.txns_per_pass)?;
        let rows = LeafRows::new(alloc, config.leaves)?;
        Ok(Core {
            alloc,
            kind: config.kind,
            leaves: config.leaves,
            manager,
            passes,
            selected: 0,
            served: 0,
            rows,
            next: SweepStart::first(),
            turn: ServiceTurn::Sweep,
        })
    }

    pub(crate) fn kind_here(&self) -> Kind
        ensures { result ≡ self.now.core.kind }
    {
        self.kind
    }

    /// Lends the journal, the commits in the order of their stamps.
    pub fn journal(&self) -> &[Commit]
        ensures { result.now ≡ self.now.core.journal }
    {
        self.manager.journal()
    }

    /// The start of a pass's open transaction, where it has written something.
    pub fn writing_since(&self, pass: u32) -> Option<u64>
        ensures { result ≡ writing_since (pass_at self.now.core pass) }
    {
        match self.passes.get(pass as usize) {
            Some(pass) => pass.writing_since(),
            None => None,
        }
    }

    /// How many leaves are neither free nor retired.
    pub fn leaves_in_use(&self) -> u32
        ensures { result ≡ (self.now.rows.limit - length self.now.rows.free) - length self.now.rows.retired }
    {
        self.rows.leaves_in_use()
    }

    /// Has the later calls speak of this pass.
    pub(crate) fn select_here(&mut self, pass: u32)
        requires { pass < length self.old.core.passes }
        ensures { self.new ≡ record self.old { core = record self.old.core { selected = pass } } }
    {
        self.selected = pass;
    }

    /// Begins the next transaction of the selected pass.
    pub(crate) fn begin_here(&mut self) -> Result<Begun, BeginRefusal>
        requires { (current self.old.core).start ≡ None }
        ensures did { DidBegin self.old.core result self.new.core }
        ensures service { KeepsService self.old self.new }
    {
        let begun = self.manager.open_txn(self.selected)?;
        self.passes[self.selected as usize].begin(begun);
        Ok(begun)
    }

    /// Commits the open transaction.
    pub(crate) fn commit_here(&mut self) -> Option<u64>
        requires { IsSome (current self.old.core).start }
        ensures did { DidCommit self.old.core result self.new.core }
        ensures service { KeepsService self.old self.new }
    {
        let by = name_of(&self.passes[self.selected as usize], self.selected);
        let writes = self.passes[self.selected as usize].end(self.alloc);
        // A transaction that wrote nothing has no commit and no stamp, and leaves no trace in the journal.
        if writes.is_empty() {
            self.manager.end_txn(by);
            return None;
        }
        Some(self.manager.push_commit(by, writes))
    }

    /// Takes the writes of the open transaction back and ends it.
    pub(crate) fn abort_here(&mut self)
        requires { IsSome (current self.old.core).start }
        ensures did { DidAbort self.old.core self.new.core }
        ensures service { KeepsService self.old self.new }
    {
        let by = name_of(&self.passes[self.selected as usize], self.selected);
        let writes = self.passes[self.selected as usize].end(self.alloc);
        self.rows.undo_all(self.kind, by, writes.as_slice());
        self.manager.end_txn(by);
    }
}

/// So many passes that have begun nothing.
fn new_passes(alloc: Global, count: u32, allowed: u32) -> Result<Vec<OwnerPass>, NoMemory>
    ensures { IfOk result (λ passes. states_of passes.items ≡ replicate count (new_pass allowed)) }
{
    let mut passes = Vec::new(alloc);
    'passes: for _ in 0..count {
        passes.push(OwnerPass::new(alloc, allowed))?;
    }
    Ok(passes)
}

/// The name of a pass's latest transaction.
pub(crate) fn name_of(pass: &OwnerPass, job: u32) -> TxnName
    ensures { result ≡ record { job = job; number = pass.now.state.begun } }
{
    TxnName {
        job,
        number: pass.begun(),
    }
}

/// Who reads: the open transaction of a pass.
pub(crate) fn reader_of<'a>(manager: &'a TxnManager, pass: &OwnerPass, job: u32) -> Reader<'a>
    requires { IsSome pass.now.state.start }
    ensures manager { result.manager.now ≡ manager.now }
    ensures start { pass.now.state.start ≡ Some result.start }
    ensures by { result.by ≡ record { job = job; number = pass.now.state.begun } }
{
    Reader {
        manager,
        start: pass.start().unwrap(),
        by: name_of(pass, job),
    }
}
