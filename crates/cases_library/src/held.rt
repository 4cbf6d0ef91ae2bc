//! Two sessions that write the same edge, one of which has its transaction open while the other one tries.

use crate::limits::{OpenAccounts, Pay};
use std::alloc::Global;
use std::sync::{Barrier, Wait};
use std::thread::Threads;
use teseo_store::{
    Closed, Committed, Config, GraphStore, Kind, NotBegun, Refusal, RetryError, Session,
    SessionPlace, StoreRefusal, VertexEngine, Work,
};

/// How often the rival tries while the edge is held.
const TRIES: u32 = 3;

/// One of the two.
#[derive(Drop)]
pub enum Party<'a, R: Wait> {
    Holder(Holder<'a, R>),
    Rival(Rival<'a, R>),
}

impl<'a, R: Wait> Work for Party<'a, R> {
    fn work<E: VertexEngine, P: SessionPlace>(&mut self, session: Session<E, P>) -> Session<E, P> {
        match self {
            Party::Holder(holder) => holder.work(session),
            Party::Rival(rival) => rival.work(session),
        }
    }
}

/// Pays, and commits once the other one has tried.
#[derive(Drop)]
pub struct Holder<'a, R: Wait> {
    pub rt: &'a R,
    /// Both have written, and both have ended.
    pub meeting: &'a Barrier,
    pub wrote: Option<Result<(), Refusal>>,
    pub stamp: Option<u64>,
}

impl<'a, R: Wait> Work for Holder<'a, R> {
    fn work<E: VertexEngine, P: SessionPlace>(&mut self, session: Session<E, P>) -> Session<E, P> {
        let mut txn = match session.begin() {
            Ok(txn) => txn,
            Err(NotBegun { session, why: _ }) => {
                self.meets(3);
                return session;
            }
        };
        self.wrote = Some(txn.add_edge(1, 2, 1));
        self.meets(2);
        let Committed { session, stamp } = txn.commit();
        self.stamp = stamp;
        self.meets(1);
        session
    }
}

impl<'a, R: Wait> Holder<'a, R> {
    /// Meets the other one so many times.
    fn meets(&self, times: u32) {
        'times: for _time in 0..times {
            self.meeting.wait(self.rt);
        }
    }
}

/// Pays the same while the other one holds the edge, and again once that has committed.
#[derive(Drop)]
pub struct Rival<'a, R: Wait> {
    pub rt: &'a R,
    pub meeting: &'a Barrier,
    pub while_held: Option<Result<Option<u64>, RetryError>>,
    pub afterwards: Option<Result<Option<u64>, RetryError>>,
}

impl<'a, R: Wait> Work for Rival<'a, R> {
    fn work<E: VertexEngine, P: SessionPlace>(&mut self, session: Session<E, P>) -> Session<E, P> {
        let mut pay = Pay { is_over: false };
        self.meeting.wait(self.rt);
        let (session, while_held) = session.with_retry(TRIES, &mut pay);
        self.meeting.wait(self.rt);
        self.meeting.wait(self.rt);
        let (session, afterwards) = session.with_retry(TRIES, &mut pay);
        self.while_held = Some(while_held);
        self.afterwards = Some(afterwards);
        session
    }
}

/// Has both work at once.
pub fn pay_while_held<R: Threads + Wait + Sync>(
    rt: &R,
    alloc: Global,
    parties: &mut [Party<'_, R>; 2],
) -> Result<Closed, StoreRefusal> {
    let config = Config {
        kind: Kind::Directed,
        leaves: 64,
        passes: 2,
        txns_per_pass: 10,
    };
    let mut store = GraphStore::open(alloc, config)?;
    store.run_one(rt, &mut OpenAccounts { is_refused: false });
    store.run(rt, parties);
    Ok(store.close())
}
