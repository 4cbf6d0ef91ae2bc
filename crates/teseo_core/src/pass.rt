//! What the engine keeps of a pass.
//!
//! 1. The writes of the open transaction stand in one list, which goes into the journal with a commit.
//! 2. What the ended ones have written, and whom writes have met, are histories for proofs: they take no memory, and
//!    nothing is done for them.

ghost use Rattle.std.specs.Prelude.{◌≡◌, ◌<◌, [], ◌∷◌, None, IsSome, true, OnOk};
ghost use Rattle.undo_chain.specs.declared.touched.Touched.TheVariants.{Never};
ghost use Rattle.teseo_core.specs.Writing.{writing_since};
ghost use Rattle.teseo_core.specs.Passes.{new_pass, with_begin, with_one_write, with_load, with_end, noted};

use graph_model::{Begun, Cause, NoMemory, Refusal, RoomyWrites, TxnName, Write, Writes};
use http_server::Log;
use items::RoomyItems;
use std::alloc::Global;
use std::marker::Model;
use std::mem::replace;
use undo_chain::Touched;

/// The transactions of a pass with their writes, the latest of which may be open.
#[derive(Drop)]
pub struct OwnerPass {
    /// What each ended transaction has written, with its number.
    made: Log<u32, Writes>,
    /// The open transactions that its writes have met, each with the write that was refused and that one's start.
    sighted: Log<TxnName, (Write, u64)>,
    /// None where no transaction is open.
    start: Option<u64>,
    /// The writes of the open transaction.
    own: RoomyWrites,
    /// Whether a write was ever answered `full`.
    filled: bool,
    /// How many transactions it has begun.
    begun: u32,
    /// How many it may begin.
    allowed: u32,
}

impl Model for OwnerPass {
    ghost use Rattle.std.specs.Prelude.{◌≡◌, [], None, IfNone, map};
    ghost use Rattle.teseo_core.specs.Passes.{RoomyPass, made_with, sighting_of};

    ghost Value = { RoomyPass };

    ghost view = { λ p. record {
      state = record {
        made = made_with p.start (map (λ ended. ended.1) p.made.items) p.own.items;
        sighted = map sighting_of p.sighted.items;
        start = p.start;
        own = p.own.items;
        filled = p.filled;
        begun = p.begun;
        allowed = p.allowed;
      };
      writes = p.own.spare;
    } };

    ghost invariant = { λ p. IfNone p.start (p.own.items ≡ []) };
}

impl OwnerPass {
    /// A pass that has begun nothing.
    pub fn new(alloc: Global, allowed: u32) -> OwnerPass
        ensures { result.state ≡ new_pass allowed }
    {
        OwnerPass {
            made: Log::new(),
            sighted: Log::new(),
            start: None,
            own: RoomyItems::new(alloc),
            filled: false,
            begun: 0,
            allowed,
        }
    }

    /// The start of the open transaction.
    pub fn start(&self) -> Option<u64>
        ensures { result ≡ self.now.state.start }
    {
        self.start
    }

    /// The start of the open transaction, where it has written something.
    pub fn writing_since(&self) -> Option<u64>
        ensures { result ≡ writing_since self.now.state }
    {
        if self.own.is_empty() {
            None
        } else {
            self.start
        }
    }

    /// How many transactions it has begun.
    pub fn begun(&self) -> u32
        ensures { result ≡ self.now.state.begun }
    {
        self.begun
    }

    /// What is known of touches by the open transaction: without writes it has made none.
    pub fn earlier_touches(&self) -> Touched
        ensures { result ≡ Never → self.now.state.own ≡ [] }
    {
        if self.own.is_empty() {
            Touched::Never
        } else {
            Touched::Maybe
        }
    }

    /// Makes room for one more write.
    pub fn reserve_write(&mut self) -> Result<(), NoMemory>
        ensures kept { self.new.state ≡ self.old.state }
        ensures ok { OnOk result (0 < self.new.writes) }
    {
        self.own.reserve(1)
    }

    /// Begins a transaction.
    pub fn begin(&mut self, begun: Begun)
        requires { self.old.state.start ≡ None }
        ensures { self.new.state ≡ with_begin self.old.state begun.start begun.by.number }
    {
        self.start = Some(begun.start);
        self.begun = begun.by.number;
    }

    /// Notes a write of the open transaction.
    pub fn note(&mut self, write: Write)
        requires current { IsSome self.old.state.start }
        requires room { 0 < self.old.writes }
        ensures { self.new.state ≡ with_one_write self.old.state write }
    {
        self.own.push_within(write);
    }

    /// Notes all writes of the pass's first transaction, which has made none so far, and ends it. Takes no memory.
    pub fn note_load(&mut self, load: &Writes)
        requires current { IsSome self.old.state.start }
        requires first { self.old.state.made ≡ [] ∷ [] }
        ensures { self.new.state ≡ with_end (with_load self.old.state load.now) }
    {
        self.made = self.made.and(&self.begun, load);
        self.start = None;
    }

    /// Notes whom a refused write has met, if that is an open transaction.
    pub fn note_refusal(&mut self, start: u64, write: Write, refusal: &Refusal)
        ensures { self.new.state ≡ noted self.old.state start write refusal.now }
    {
        if let Refusal::Conflict {
            cause: Cause::Holder { by },
        } = refusal
        {
            self.sighted = self.sighted.and(by, &(write, start));
        }
    }

    /// Notes that a write found the store full.
    pub fn fill(&mut self)
        ensures { self.new.state ≡ record self.old.state { filled = true } }
    {
        self.filled = true;
    }

    /// Ends the open transaction, and hands out its writes. Takes no memory.
    pub fn end(&mut self, alloc: Global) -> Writes
        requires { IsSome self.old.state.start }
        ensures writes { result ≡ self.old.state.own }
        ensures ended { self.new.state ≡ with_end self.old.state }
    {
        let own = replace(&mut self.own, RoomyItems::new(alloc)).into_items();
        self.made = self.made.and(&self.begun, &own);
        self.start = None;
        own
    }
}
