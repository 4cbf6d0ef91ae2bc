//! The manager of the transactions of one owner.
//!
//! 1. A transaction has a stamp in its pass's history exactly where a commit of the journal has its name.
//! 2. An open transaction has none, and began within the journal.
//! 3. The journal has room for as many commits as transactions are open.

ghost use Rattle.std.specs.Prelude.{◌≡◌, ◌↔◌, ◌+◌, ◌<◌, length, None, Err, IsSome, IfOk, OnOk, OnErr};
ghost use Rattle.graph_model.specs.declared.refusal.BeginRefusal.TheVariants.{TxnsUsed};
ghost use Rattle.graph_model.specs.declared.state.State.TheVariants.{Live};
ghost use Rattle.graph_model.specs.Transactions.{HasNotCommitted};
ghost use Rattle.txn_manager.specs.Manager.{new_manager, txns_of, open_start, next_name, next_begun, opened};
ghost use Rattle.txn_manager.specs.Manager.{committed, ended, state_of, least_pin_of, horizon_of, IsManaged};

use crate::history::PassHistory;
use graph_model::{BeginRefusal, Begun, Commit, Journal, NoMemory, State, TxnName, Writes};
use items::RoomyItems;
use std::alloc::Global;
use std::marker::Model;

/// The journal, the transactions of each pass, and how many a pass may begin.
#[derive(Drop)]
pub struct TxnManager {
    /// With room for a commit of each pass.
    journal: RoomyItems<Commit>,
    /// The transactions of each.
    passes: Vec<PassHistory>,
    /// How many transactions a pass may begin.
    allowed: u32,
}

impl Model for TxnManager {
    ghost use Rattle.txn_manager.specs.Manager.{Manager};
    ghost use Rattle.txn_manager.specs.Histories.{manager_of, IsKept};

    ghost Value = { Manager };

    ghost view = { λ m. manager_of m.journal m.passes.items m.allowed };

    ghost invariant = { λ m. IsKept m.journal m.passes.items m.allowed };
}

impl TxnManager {
    /// Makes a manager of so many passes, each of which may begin so many transactions.
    pub fn new(alloc: Global, passes: u32, txns_per_pass: u32) -> Result<TxnManager, NoMemory>
        ensures { IfOk result (λ m. m ≡ record (new_manager passes txns_per_pass) { spare = m.spare }) }
    {
        let mut histories = Vec::new(alloc);
        for _ in 0..passes {
            histories.push(PassHistory::new(alloc))?;
        }
        Ok(TxnManager {
            journal: RoomyItems::new(alloc),
            passes: histories,
            allowed: txns_per_pass,
        })
    }

    /// Begins the next transaction of a pass that has none open.
    pub fn open_txn(&mut self, pass: u32) -> Result<Begun, BeginRefusal>
        requires pass { pass < length self.old.passes }
        requires closed { (txns_of self.old pass).start ≡ None }
        ensures begun { IfOk result (λ begun. begun ≡ next_begun self.old pass) }
        ensures opened { OnOk result (self.new ≡ record (opened self.old pass) { spare = self.new.spare }) }
        ensures used { (result ≡ Err TxnsUsed) ↔ ((txns_of self.old pass).begun ≡ self.old.allowed) }
        ensures err { OnErr result (self.new ≡ record self.old { spare = self.new.spare }) }
        ensures new_name { OnOk result (HasNotCommitted self.old.journal (next_name self.old pass)) }
    {
        let begun = self.begun(pass);
        if begun == self.allowed {
            return Err(BeginRefusal::TxnsUsed);
        }
        let start = self.journal.len() as u64;
        // Room for a commit of each pass: so the commit of this transaction takes none, whichever commits first.
        self.journal.reserve(self.passes.len())?;
        self.passes[pass as usize].begin(start)?;
        Ok(Begun {
            by: TxnName {
                job: pass,
                number: begun + 1,
            },
            start,
        })
    }

    /// Ends an open transaction with a commit of its writes, and answers the stamp. Takes no memory, and
    /// checks no write: each was checked when it was made.
    pub fn push_commit(&mut self, by: TxnName, writes: Writes) -> u64
        requires is_open { IsSome (open_start self.old by) }
        requires wrote { 0 < length writes }
        ensures stamp { result ≡ length self.old.journal + 1 }
        ensures committed { self.new ≡ record (committed self.old by writes) { spare = self.new.spare } }
    {
        let stamp = self.journal.len() as u64 + 1;
        // From here on the name answers with its stamp, so all its rows are seen at once.
        let start = self.passes[by.job as usize].commit(stamp);
        self.journal.push_within(Commit {
            stamp,
            start,
            by,
            writes,
        });
        stamp
    }

    /// Ends an open transaction without a commit. Takes no memory.
    pub fn end_txn(&mut self, by: TxnName)
        requires { IsSome (open_start self.old by) }
        ensures { self.new ≡ ended self.old by }
    {
        self.passes[by.job as usize].end();
    }

    /// How many transactions a pass has begun.
    pub fn begun(&self, pass: u32) -> u32
        requires { pass < length self.now.passes }
        ensures { result ≡ (txns_of self.now pass).begun }
    {
        self.passes[pass as usize].begun()
    }

    /// Where a transaction stands.
    pub fn state(&self, by: TxnName) -> State
        ensures state { result ≡ state_of self.now by }
        ensures live { (result ≡ Live) ↔ IsSome (open_start self.now by) }
    {
        match self.passes.get(by.job as usize) {
            Some(history) => history.state(by.number),
            None => State::Aborted,
        }
    }

    /// What holds of each manager.
    pub fn is_managed(&self)
        ensures { IsManaged self.now }
    {
        let _ = &self.journal;
    }

    /// How many transactions have committed.
    pub fn clock(&self) -> u64
        ensures { result ≡ length self.now.journal }
    {
        self.journal.len() as u64
    }

    /// Lends the commits in the order of their stamps.
    pub fn journal(&self) -> &[Commit]
        ensures { result.now ≡ self.now.journal }
    {
        self.journal.as_slice()
    }

    /// The oldest start of an open transaction.
    pub fn least_pin(&self) -> Option<u64>
        ensures { result ≡ least_pin_of self.now }
    {
        self.passes.iter().filter_map(|history| history.start).min()
    }

    /// The stamp below which no open transaction reads: the clock where none is open.
    pub fn horizon(&self) -> u64
        ensures { result ≡ horizon_of self.now }
    {
        self.least_pin().unwrap_or(self.clock())
    }

    /// The journal. Takes no memory.
    pub fn into_journal(self) -> Journal
        ensures { result ≡ self.journal }
    {
        self.journal.into_items()
    }
}
