//! Clerks, who book transfers.
//!
//! 1. A transfer is booked whole or not at all: one transaction opens its accounts and adds the amount.
//! 2. One that meets somebody else's write is tried again. One that would pass the greatest weight is refused.

ghost use Rattle.std.specs.Prelude.{◌≤◌};
ghost use Rattle.graph_model.specs.declared.limits.TheConstants.{MAX_ID};

use crate::times::since;
use crate::transfer::Transfer;
use std::rt::Clock;
use std::sync::atomic::{AtomicU64, Ordering};
use std::thread;
use std::time::{Duration, Instant};
use teseo_store::{
    MAX_WEIGHT, Refusal, Session, SessionPlace, Transaction, TransactionBody, VertexEngine, Work,
};

/// How often a transfer is tried. Each try that meets a conflict has met somebody else's write, which is booked.
const TRIES: u32 = 1_000_000;

/// Books transfers, one after the other, each in a transaction of its own.
#[derive(Drop)]
pub struct Clerk<'a, R: Clock> {
    /// Tells the time, and sleeps.
    pub rt: &'a R,
    /// How long it waits for the next one.
    pub pause: Duration,
    /// In the order in which they are booked.
    pub transfers: &'a [Transfer],
    /// How many clerks have transfers yet.
    pub busy: &'a AtomicU64,
    /// How many were booked.
    pub booked: u64,
    /// How many were refused, also after all tries.
    pub refused: u64,
    /// How long it took, if the clock has said.
    pub taken: Option<Duration>,
}

impl<'a, R: Clock> Work for Clerk<'a, R> {
    fn work<E: VertexEngine, P: SessionPlace>(&mut self, session: Session<E, P>) -> Session<E, P> {
        let begun = Instant::now(self.rt);
        let mut session = session;
        'transfers: for transfer in self.transfers {
            let mut booking = Booking {
                transfer: *transfer,
                is_over: false,
            };
            let (next, ended) = session.with_retry(TRIES, &mut booking);
            session = next;
            if ended.is_ok() && !booking.is_over {
                self.booked = self.booked.saturating_add(1);
            } else {
                self.refused = self.refused.saturating_add(1);
            }
            // Even a sleep of no length gives the processor away, which takes longer than a transfer.
            if !self.pause.is_zero() {
                thread::sleep(self.rt, self.pause);
            }
        }
        self.taken = since(self.rt, begun);
        // After its last transfer is booked: whoever finds nobody busy sees all transfers when it looks next.
        // After its last commit, and sequentially consistent: a watcher that finds no clerk busy sees all transfers.
        self.busy.fetch_sub(1, Ordering::SeqCst);
        session
    }
}

/// A transfer as a change of the graph: its accounts are opened where they aren't there, and what the one has paid the
/// other grows by the amount.
#[derive(Drop)]
struct Booking {
    transfer: Transfer,
    /// All that the one has paid the other would be above the greatest weight.
    is_over: bool,
}

impl TransactionBody for Booking {
    fn make<E: VertexEngine, P: SessionPlace>(
        &mut self,
        txn: &mut Transaction<E, P>,
    ) -> Result<(), Refusal> {
        let Transfer { from, to, amount } = self.transfer;
        open_account(txn, from)?;
        open_account(txn, to)?;
        let Some(paid) = txn.weight(from, to) else {
            return txn.add_edge(from, to, amount);
        };
        let paid = paid.saturating_add(amount);
        // Told apart from a refusal of the store, since another try would be as much too high.
        self.is_over = paid > MAX_WEIGHT;
        if self.is_over {
            return Ok(());
        }
        txn.set_edge(from, to, paid)
    }
}

/// Opens an account that isn't there.
fn open_account<E: VertexEngine, P: SessionPlace>(
    txn: &mut Transaction<E, P>,
    account: u64,
) -> Result<(), Refusal>
    requires { account ≤ MAX_ID }
{
    if txn.has_vertex(account) {
        return Ok(());
    }
    txn.add_vertex(account)
}
