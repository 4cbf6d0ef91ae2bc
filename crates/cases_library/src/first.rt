//! A first transaction.

ghost use Rattle.std.specs.Prelude.{◌≡◌, ◌++◌, None, IfOk, IfSome, OnOk};
ghost use Rattle.cases_library.specs.Payments.{HasPaid, first_payment};

use std::alloc::Global;
use std::sync::Wait;
use std::thread::Threads;
use teseo_store::{
    Closed, Committed, Config, GraphStore, Kind, NotBegun, Refusal, Session, SessionPlace,
    StoreRefusal, Transaction, VertexEngine, Work,
};

/// What became of a first payment.
#[derive(Drop)]
pub struct FirstPayment {
    pub stamp: Option<u64>,
    pub refused: Option<Refusal>,
}

impl Work for FirstPayment {
    ghost did = { λ old before new after. old.stamp ≡ None → IfSome new.stamp (HasPaid after.seen) };

    fn work<E: VertexEngine, P: SessionPlace>(&mut self, session: Session<E, P>) -> Session<E, P> {
        let mut txn = match session.begin() {
            Ok(txn) => txn,
            Err(NotBegun { session, why: _ }) => return session,
        };
        match open_and_pay(&mut txn) {
            Ok(()) => {
                let Committed { session, stamp } = txn.commit();
                self.stamp = stamp;
                session
            }
            Err(refused) => {
                self.refused = Some(refused);
                txn.abort()
            }
        }
    }
}

/// Opens the accounts 1 and 2, and pays 250 from the first to the second.
fn open_and_pay<E: VertexEngine, P: SessionPlace>(
    txn: &mut Transaction<E, P>,
) -> Result<(), Refusal>
    ensures { OnOk result ((E.account txn.new.engine).own ≡ (E.account txn.old.engine).own ++ first_payment) }
{
    txn.add_vertex(1)?;
    txn.add_vertex(2)?;
    txn.add_edge(1, 2, 250)
}

/// Opens a store with one session, has it pay, and closes the store.
pub fn pay_first<R: Threads + Wait + Sync>(
    rt: &R,
    alloc: Global,
    payment: &mut FirstPayment,
) -> Result<Closed, StoreRefusal>
    ensures { IfOk result (λ closed. payment.old.stamp ≡ None → IfSome payment.new.stamp (HasPaid closed.journal)) }
{
    let config = Config {
        kind: Kind::Directed,
        leaves: 64,
        passes: 1,
        txns_per_pass: 10,
    };
    let mut store = GraphStore::open(alloc, config)?;
    store.run_one(rt, payment);
    Ok(store.close())
}
