//! Engines: transactions over a graph, by what their calls do.
//!
//! 1. What an engine is known by is the account of its pass: the journal as far as it was seen, and
//!    the pass's own transactions.
//! 2. Each call has one relation, `did_..`, between the engine before it, its answer and the engine
//!    after it. Laws below the calls give the relation its meaning: by the account for every engine
//!    (`Engine`), by the whole core where one owner has it all (`StepEngine`). So an engine of many
//!    passes and one of a single owner meet one trait, each by the relation that it can show.
//! 3. The journal that was seen is legal after each call, so that a valid account stays valid. No law
//!    says this of every engine: a law speaks of all values that an engine might have in a contract,
//!    and some of these have a journal that isn't legal. What is true of an engine before its first
//!    call is for its constructor to ensure.
//! 4. A call of a `StepEngine` speaks of the selected pass, and changes no other.

ghost use Rattle.std.specs.Prelude.{◌≡◌, ◌<◌, ◌≤◌, ℕ, Bool, false, Option, None, Some, IsSome, Result, length};
ghost use Rattle.graph_model.specs.declared.write.Write.{Write};
ghost use Rattle.graph_model.specs.declared.write.Write.TheVariants as writes;
ghost use Rattle.graph_model.specs.declared.journal.Begun.{Begun};
ghost use Rattle.graph_model.specs.declared.refusal.Refusal.{Refusal};
ghost use Rattle.graph_model.specs.declared.refusal.BeginRefusal.{BeginRefusal};
ghost use Rattle.graph_model.specs.declared.limits.TheConstants.{MAX_ID};
ghost use Rattle.items.specs.declared.memory.NoMemory.{NoMemory};
ghost use Rattle.graph_model.specs.Account.{Account};
ghost use Rattle.graph_model.specs.AccountSteps.{view_of, ReadsBy, BeginsBy, WritesBy, CommitsBy, AbortsBy, IsSteady};
ghost use Rattle.graph_model.specs.Graph.{has_vertex, weight_of};
ghost use Rattle.graph_model.specs.OwnerCalls.{Core, account_here, BeginsHere, WritesHere, CommitsHere, AbortsHere, ServesHere, one_more};
ghost use Rattle.graph_model.specs.Refused.{IsWithinLimits};
ghost use Rattle.graph_model.specs.Scans.{ScansBy};

use crate::journal::Begun;
use crate::refusal::{BeginRefusal, Refusal};
use crate::row::{Cursor, Rows64};
use crate::write::Kind;
use items::NoMemory;

/// Transactions of one pass over a graph. Ids that are handed in are at most `MAX_ID`, weights at most
/// `MAX_WEIGHT`; a write or a read is that of the pass's open transaction.
pub trait Engine {
    /// What is known of the pass.
    ghost account: { Self → Account };

    /// How many service turns were taken, up to the last number.
    ghost served: { Self → ℕ };

    ghost did_begin: { Self → Result Begun BeginRefusal → Self → Type 0 };

    ghost did_write: { Self → Write → Result (Unit {0}) Refusal → Self → Type 0 };

    ghost did_read: { Self → Self → Type 0 };

    ghost did_commit: { Self → Option ℕ → Self → Type 0 };

    ghost did_abort: { Self → Self → Type 0 };

    ghost did_serve: { Self → Result Bool NoMemory → Self → Type 0 };

    fn kind(&self) -> Kind
        ensures { result ≡ (account self.now).kind };

    /// Begins a transaction, and answers its name and its start: how many commits it sees.
    fn begin(&mut self) -> Result<Begun, BeginRefusal>
        requires { (account self.old).start ≡ None }
        ensures { did_begin self.old result self.new };

    fn add_vertex(&mut self, v: u64) -> Result<(), Refusal>
        requires current { IsSome (account self.old).start }
        requires within { IsWithinLimits (writes.AddVertex v) }
        ensures { did_write self.old (writes.AddVertex v) result self.new };

    fn add_edge(&mut self, u: u64, v: u64, weight: u64) -> Result<(), Refusal>
        requires current { IsSome (account self.old).start }
        requires within { IsWithinLimits (writes.AddEdge u v weight) }
        ensures { did_write self.old (writes.AddEdge u v weight) result self.new };

    fn set_edge(&mut self, u: u64, v: u64, weight: u64) -> Result<(), Refusal>
        requires current { IsSome (account self.old).start }
        requires within { IsWithinLimits (writes.SetEdge u v weight) }
        ensures { did_write self.old (writes.SetEdge u v weight) result self.new };

    fn drop_edge(&mut self, u: u64, v: u64) -> Result<(), Refusal>
        requires current { IsSome (account self.old).start }
        requires within { IsWithinLimits (writes.DropEdge u v) }
        ensures { did_write self.old (writes.DropEdge u v) result self.new };

    fn has_vertex(&mut self, v: u64) -> bool
        requires current { IsSome (account self.old).start }
        requires within { v ≤ MAX_ID }
        ensures answer { (start : ℕ) → (account self.old).start ≡ Some start
            → result ≡ has_vertex (view_of (account self.old) start) v }
        ensures did { did_read self.old self.new };

    fn weight(&mut self, u: u64, v: u64) -> Option<u64>
        requires current { IsSome (account self.old).start }
        requires source_within { u ≤ MAX_ID }
        requires target_within { v ≤ MAX_ID }
        ensures answer { (start : ℕ) → (account self.old).start ≡ Some start
            → result ≡ weight_of (view_of (account self.old) start) u v }
        ensures did { did_read self.old self.new };

    /// Takes one turn of a scan: the next rows of the view, 64 at most, take the place of those in
    /// the buffer. A scan of n rows takes n / 64 + 1 turns.
    fn scan_step(&mut self, cursor: &mut Cursor, rows: &mut Rows64)
        requires current { IsSome (account self.old).start }
        requires going { cursor.old.done ≡ false }
        ensures answer { (start : ℕ) → (account self.old).start ≡ Some start
            → ScansBy (view_of (account self.old) start) cursor.old cursor.new rows.new }
        ensures did { did_read self.old self.new };

    /// Commits, and answers the stamp, or none where nothing was written. Takes no memory.
    fn commit(&mut self) -> Option<u64>
        requires { IsSome (account self.old).start }
        ensures { did_commit self.old result self.new };

    /// Ends the transaction and takes its writes back. Takes no memory.
    fn abort(&mut self)
        requires { IsSome (account self.old).start }
        ensures { did_abort self.old self.new };

    /// Takes one turn of the service, which keeps the store small and changes no view. Answers whether
    /// it changed a cell of the store.
    fn service_step(&mut self) -> Result<bool, NoMemory>
        ensures { did_serve self.old result self.new };

    ghost begins: { (s t : Self) (r : Result Begun BeginRefusal) → did_begin s r t
        → BeginsBy (account s) r (account t) × IsSteady (account t) (served s) (served t) };

    ghost wrote: { (s t : Self) (w : Write) (r : Result (Unit {0}) Refusal) → did_write s w r t
        → WritesBy (account s) w r (account t) × IsSteady (account t) (served s) (served t) };

    ghost reads: { (s t : Self) → did_read s t
        → ReadsBy (account s) (account t) × IsSteady (account t) (served s) (served t) };

    ghost commits: { (s t : Self) (r : Option ℕ) → did_commit s r t
        → CommitsBy (account s) r (account t) × IsSteady (account t) (served s) (served t) };

    ghost aborts: { (s t : Self) → did_abort s t
        → AbortsBy (account s) (account t) × IsSteady (account t) (served s) (served t) };

    ghost serves: { (s t : Self) (r : Result Bool NoMemory) → did_serve s r t
        → ReadsBy (account s) (account t) × IsSteady (account t) (one_more (served s)) (served t) };
}

/// An engine that removes vertices too.
pub trait VertexEngine: Engine {
    /// Removes a vertex that has no edges.
    fn drop_vertex(&mut self, v: u64) -> Result<(), Refusal>
        requires current { IsSome (Self.account self.old).start }
        requires within { IsWithinLimits (writes.DropVertex v) }
        ensures { Self.did_write self.old (writes.DropVertex v) result self.new };
}

/// An engine whose owner has all passes: the calls are exact on one journal.
pub trait StepEngine: VertexEngine {
    ghost core: { Self → Core };

    /// Has the later calls speak of this pass.
    fn select(&mut self, pass: u32)
        requires { pass < length (core self.old).passes }
        ensures { core self.new ≡ record (core self.old) { selected = pass } };

    ghost accounts: { (s : Self) → Self.account s ≡ account_here (core s) };

    ghost counts: { (s : Self) → Self.served s ≡ (core s).served };

    ghost begins_here: { (s t : Self) (r : Result Begun BeginRefusal) → Self.did_begin s r t
        → BeginsHere (core s) r (core t) };

    ghost writes_here: { (s t : Self) (w : Write) (r : Result (Unit {0}) Refusal) → Self.did_write s w r t
        → WritesHere (core s) w r (core t) };

    ghost reads_here: { (s t : Self) → Self.did_read s t → core t ≡ core s };

    ghost commits_here: { (s t : Self) (r : Option ℕ) → Self.did_commit s r t
        → CommitsHere (core s) r (core t) };

    ghost aborts_here: { (s t : Self) → Self.did_abort s t → AbortsHere (core s) (core t) };

    ghost serves_here: { (s t : Self) (r : Result Bool NoMemory) → Self.did_serve s r t
        → ServesHere (core s) (core t) };
}
