//! The worker as an engine.
//!
//! 1. Each call hands on to one of `calls`, so that its proof speaks of one call, and this file of traits alone.

ghost use Rattle.std.specs.Prelude.{◌≡◌};
ghost use Rattle.graph_model.specs.AccountSteps.{AbortsBy, BeginsBy, CommitsBy, ReadsBy, WritesBy};
ghost use Rattle.graph_model.specs.OwnerCalls.{one_more};
ghost use Rattle.worker_calls.specs.SharedStore.Passes.{account_of};
ghost use Rattle.worker_calls.specs.Ready.{HasSeenLegal};

use crate::serve::serve;
use crate::worker::{Home, Worker};
use graph_model::{
    BeginRefusal, Begun, Cursor, Engine, Kind, NoMemory, Refusal, Rows64, VertexEngine, Write,
};
use std::sync::Wait;
use worker_calls::calls;

impl<'a, R: Wait, H: Home> Engine for Worker<'a, R, H> {
    ghost account = { λ s. account_of s.store.now s.pass };

    ghost served = { λ s. s.served };

    ghost did_begin = { λ s r t. BeginsBy (account_of s.store.now s.pass) r (account_of t.store.now t.pass)
        × HasSeenLegal (account_of t.store.now t.pass) × (t.served ≡ s.served) };

    ghost did_write = { λ s w r t. WritesBy (account_of s.store.now s.pass) w r (account_of t.store.now t.pass)
        × HasSeenLegal (account_of t.store.now t.pass) × (t.served ≡ s.served) };

    ghost did_read = { λ s t. ReadsBy (account_of s.store.now s.pass) (account_of t.store.now t.pass)
        × HasSeenLegal (account_of t.store.now t.pass) × (t.served ≡ s.served) };

    ghost did_commit = { λ s r t. CommitsBy (account_of s.store.now s.pass) r (account_of t.store.now t.pass)
        × HasSeenLegal (account_of t.store.now t.pass) × (t.served ≡ s.served) };

    ghost did_abort = { λ s t. AbortsBy (account_of s.store.now s.pass) (account_of t.store.now t.pass)
        × HasSeenLegal (account_of t.store.now t.pass) × (t.served ≡ s.served) };

    ghost did_serve = { λ s r t. ReadsBy (account_of s.store.now s.pass) (account_of t.store.now t.pass)
        × HasSeenLegal (account_of t.store.now t.pass) × (t.served ≡ one_more s.served) };

    fn kind(&self) -> Kind {
        self.store.config().kind
    }

    fn begin(&mut self) -> Result<Begun, BeginRefusal> {
        calls::begin(self.rt, self.store, &mut self.pass)
    }

    fn add_vertex(&mut self, v: u64) -> Result<(), Refusal> {
        self.make_write(Write::AddVertex { v })
    }

    fn add_edge(&mut self, u: u64, v: u64, weight: u64) -> Result<(), Refusal> {
        self.make_write(Write::AddEdge { u, v, weight })
    }

    fn set_edge(&mut self, u: u64, v: u64, weight: u64) -> Result<(), Refusal> {
        self.make_write(Write::SetEdge { u, v, weight })
    }

    fn drop_edge(&mut self, u: u64, v: u64) -> Result<(), Refusal> {
        self.make_write(Write::DropEdge { u, v })
    }

    fn has_vertex(&mut self, v: u64) -> bool {
        calls::has_vertex(self.rt, self.store, &mut self.pass, v)
    }

    fn weight(&mut self, u: u64, v: u64) -> Option<u64> {
        calls::weight(self.rt, self.store, &mut self.pass, u, v)
    }

    fn scan_step(&mut self, cursor: &mut Cursor, rows: &mut Rows64) {
        calls::scan_step(
            self.rt,
            self.store,
            &mut self.pass,
            &mut self.place,
            cursor,
            rows,
        );
    }

    fn commit(&mut self) -> Option<u64> {
        calls::commit(self.rt, self.store, &mut self.pass)
    }

    fn abort(&mut self) {
        calls::abort(self.rt, self.store, &mut self.pass);
    }

    fn service_step(&mut self) -> Result<bool, NoMemory> {
        self.served = self.served.saturating_add(1);
        serve(
            self.rt,
            self.store,
            &mut self.pass,
            &mut self.room,
            &mut self.notes,
            &mut self.keys,
        )
    }

    ghost begins = { λ s t r did. (did.0, record { legal = did.1; served = did.2 }) };

    ghost wrote = { λ s t w r did. (did.0, record { legal = did.1; served = did.2 }) };

    ghost reads = { λ s t did. (did.0, record { legal = did.1; served = did.2 }) };

    ghost commits = { λ s t r did. (did.0, record { legal = did.1; served = did.2 }) };

    ghost aborts = { λ s t did. (did.0, record { legal = did.1; served = did.2 }) };

    ghost serves = { λ s t r did. (did.0, record { legal = did.1; served = did.2 }) };
}

impl<'a, R: Wait, H: Home> VertexEngine for Worker<'a, R, H> {
    fn drop_vertex(&mut self, v: u64) -> Result<(), Refusal> {
        self.make_write(Write::DropVertex { v })
    }
}
