//! A pass of a store, with what its calls keep from one to the next.
//!
//! 1. What is kept beside the pass are room for rows that move, guesses, and where the service goes on. No answer of a
//!    transaction depends on any of it.

ghost use Rattle.std.specs.Prelude.{◌≡◌, Some};
ghost use Rattle.worker_calls.specs.StoreRuleDeclared.store.Store.{Store};
ghost use Rattle.worker_calls.specs.SharedStore.Passes.{IsIdle};
ghost use Rattle.worker_calls.specs.Ready.{IsReady};

use crate::idle_passes::IdlePasses;
use crate::leaf_notes::LeafNotes;
use crate::readers::{Readers, SharedHandle};
use crate::serve::ServiceKeys;
use std::marker::{Brand, PhantomData};
use std::sync::{Mutex, Wait};
use std::thread::Threads;
use worker_calls::ScanPlace;
use worker_calls::below::{Pass, PassRoom, Store};

/// Which store a worker is of, and which passes beside its own it may scan by. Whoever lends workers says so by a pick,
/// and knows when a pass comes back that it is one of that store.
pub trait Home {
    ghost use Rattle.std.specs.Prelude.{List, Option};
    ghost use Rattle.graph_model.specs.Account.{Account};
    ghost use Rattle.worker_calls.specs.StoreRuleDeclared.store.Store.{Store};

    ghost home: { Option Store };

    ghost spare: { List Account };
}

impl Home for Brand {
    ghost use Rattle.std.specs.Prelude.{None, []};

    ghost home = { None };

    ghost spare = { [] };
}

/// Runs the transactions of one pass, and turns of the service between them.
pub struct Worker<'a, R: Wait + SharedHandle, H: Home> {
    pub(crate) rt: &'a R,
    /// The store that its pass is of.
    pub(crate) store: &'a Store,
    /// Whose transactions it runs.
    pub(crate) pass: Pass,
    /// Made by the first call that moves rows.
    pub(crate) room: Option<PassRoom>,
    /// Of leaves that turns of the service may pass over.
    pub(crate) notes: LeafNotes,
    /// Where its scan has come to.
    pub(crate) place: ScanPlace,
    /// How many turns of the service it has taken, up to the last number.
    pub(crate) served: u64,
    /// Where its service goes on.
    pub(crate) keys: ServiceKeys,
    /// By which it scans a whole view, if it has any.
    pub(crate) readers: Option<Readers<'a, R, H>>,
    of: PhantomData<H>,
    pub ghost ready: { ∥ IsReady store.now pass ∥₁ },
    pub ghost home: { ∥ H.home ≡ Some store.now ∥₁ },
}

impl<'a, R: Wait, H: Home> Worker<'a, R, H> {
    /// A worker of a pass without a transaction, which has taken no turn of the service. Takes no memory.
    pub fn new(rt: &'a R, store: &'a Store, pass: Pass) -> Worker<'a, R, H>
        requires idle { IsIdle store.now pass }
        requires home { H.home ≡ Some store.now }
        ensures store { result.store.now ≡ store.now }
        ensures pass { result.pass ≡ pass }
        ensures served { result.served ≡ 0 }
    {
        let notes = LeafNotes::none(pass.alloc);
        Worker {
            rt,
            store,
            pass,
            // A worker that only reads never needs it, and one that writes makes it when a row first finds no place.
            room: None,
            notes,
            place: ScanPlace::nowhere(),
            served: 0,
            keys: ServiceKeys::first(),
            readers: None,
            of: PhantomData,
        }
    }

    /// Its pass. Gives back the memory that was taken for rows that move.
    pub fn into_pass(self) -> Pass
        ensures pass { result ≡ self.entry.pass }
        ensures ready { IsReady self.entry.store.now result }
        ensures home { H.home ≡ Some self.entry.store.now }
    {
        let Worker {
            rt: _,
            store: _,
            pass,
            room,
            notes: _,
            place: _,
            served: _,
            keys: _,
            readers: _,
            of: _,
        } = self;
        match room {
            // Lists of cells can't be dropped; they are empty between two calls.
            Some(room) => room.close(),
            None => {}
        }
        pass
    }
}

impl<'a, R: Threads + Wait + Sync, H: Home> Worker<'a, R, H> {
    /// The same, which scans a whole view by readers that are made of shared passes.
    pub fn with_readers(
        rt: &'a R,
        store: &'a Store,
        pass: Pass,
        pool: &'a Mutex<IdlePasses<H>>,
    ) -> Worker<'a, R, H>
        requires idle { IsIdle store.now pass }
        requires home { H.home ≡ Some store.now }
        ensures store { result.store.now ≡ store.now }
        ensures pass { result.pass ≡ pass }
        ensures served { result.served ≡ 0 }
    {
        let mut worker = Worker::new(rt, store, pass);
        worker.readers = Some(Readers::new(rt, pool));
        worker
    }
}
