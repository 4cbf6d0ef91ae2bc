//! A limit of what one account pays to another, kept by two sessions at once.

use std::alloc::Global;
use std::sync::Wait;
use std::thread::Threads;
use teseo_store::{
    Closed, Config, GraphStore, Kind, Refusal, Session, SessionPlace, StoreRefusal, Transaction,
    TransactionBody, VertexEngine, Work,
};

/// Account 1 pays account 2 no more than this in all.
const LIMIT: u64 = 150;

/// How often a payment is tried.
const TRIES: u32 = 100000;

/// Pays 1 from account 1 to account 2, up to the limit.
#[derive(Drop)]
pub struct Pay {
    pub is_over: bool,
}

impl TransactionBody for Pay {
    fn make<E: VertexEngine, P: SessionPlace>(
        &mut self,
        txn: &mut Transaction<E, P>,
    ) -> Result<(), Refusal> {
        let paid = txn.weight(1, 2);
        self.is_over = paid.unwrap_or(0) >= LIMIT;
        match paid {
            None => txn.add_edge(1, 2, 1),
            Some(paid) if paid < LIMIT => txn.set_edge(1, 2, paid + 1),
            Some(_) => Ok(()),
        }
    }
}

/// Pays so many times, and counts.
#[derive(Drop)]
pub struct Clerk {
    pub times: u32,
    pub paid: u32,
    pub given_up: u32,
}

impl Work for Clerk {
    fn work<E: VertexEngine, P: SessionPlace>(&mut self, session: Session<E, P>) -> Session<E, P> {
        let mut session = session;
        let mut pay = Pay { is_over: false };
        'times: for _time in 0..self.times {
            let (next, result) = session.with_retry(TRIES, &mut pay);
            session = next;
            match result {
                Ok(Some(_stamp)) => self.paid = self.paid.saturating_add(1),
                Ok(None) => {}
                Err(_) => self.given_up = self.given_up.saturating_add(1),
            }
        }
        session
    }
}

/// Opens accounts 1 and 2.
#[derive(Drop)]
pub struct OpenAccounts {
    pub is_refused: bool,
}

impl TransactionBody for OpenAccounts {
    fn make<E: VertexEngine, P: SessionPlace>(
        &mut self,
        txn: &mut Transaction<E, P>,
    ) -> Result<(), Refusal> {
        txn.add_vertex(1)?;
        txn.add_vertex(2)
    }
}

impl Work for OpenAccounts {
    fn work<E: VertexEngine, P: SessionPlace>(&mut self, session: Session<E, P>) -> Session<E, P> {
        let (session, result) = session.with_retry(1, self);
        self.is_refused = result.is_err();
        session
    }
}

/// Has two clerks pay at once, each in a thread of its own.
pub fn pay_by_two<R: Threads + Wait + Sync>(
    rt: &R,
    alloc: Global,
    clerks: &mut [Clerk; 2],
) -> Result<Closed, StoreRefusal> {
    let config = Config {
        kind: Kind::Directed,
        leaves: 64,
        passes: 2,
        txns_per_pass: 1000000,
    };
    let mut store = GraphStore::open(alloc, config)?;
    store.run_one(rt, &mut OpenAccounts { is_refused: false });
    store.run(rt, clerks);
    Ok(store.close())
}
