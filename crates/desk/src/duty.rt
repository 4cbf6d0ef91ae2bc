//! What is done at the desk.
//!
//! 1. Clerks and the watcher are of one type, so one call can lend sessions to all of them.

use crate::clerk::Clerk;
use crate::known::KnownRings;
use crate::leave::Leave;
use crate::look::{Look, take_look};
use crate::refusal::LookRefusal;
use crate::watcher::Watcher;
use std::alloc::Global;
use std::rt::Clock;
use std::thread::Threads;
use teseo_store::{Session, SessionPlace, VertexEngine, Work};

/// What one of those at the desk does.
#[derive(Drop)]
pub enum Duty<'a, R: Threads + Clock + Eprint + Sync> {
    Book(Clerk<'a, R>),
    Watch(Watcher<'a, R>),
}

impl<'a, R: Threads + Clock + Eprint + Sync> Work for Duty<'a, R> {
    fn work<E: VertexEngine, P: SessionPlace>(&mut self, session: Session<E, P>) -> Session<E, P> {
        match self {
            Duty::Book(clerk) => clerk.work(session),
            Duty::Watch(watcher) => watcher.work(session),
        }
    }
}

/// A look at all accounts, once nobody books any more.
#[derive(Drop)]
pub struct LastLook<'a, R: Threads + Sync> {
    pub rt: &'a R,
    pub alloc: Global,
    pub seen: Option<Result<Look, LookRefusal>>,
}

impl<'a, R: Threads + Sync> Work for LastLook<'a, R> {
    fn work<E: VertexEngine, P: SessionPlace>(&mut self, session: Session<E, P>) -> Session<E, P> {
        let mut known = KnownRings::nothing(self.alloc);
        let (session, seen) = take_look(&Leave::of(self.rt), self.alloc, session, &mut known);
        self.seen = Some(seen);
        session
    }
}
