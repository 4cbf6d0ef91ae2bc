//! Transactions that are tried again where another one stands against them.
//!
//! 1. How often is bounded: whether a conflict comes again is up to others.
//! 2. What each try came to is told, so a caller can say why a change wasn't made.

ghost use Rattle.std.specs.Prelude.{IfErr, IfOk};
ghost use Rattle.sessions.specs.Retries.{EndsAfter, FailsOnce, IsCommitted, IsStopped, TellsConflict};

use crate::place::SessionPlace;
use crate::session::{NotBegun, Session};
use crate::transaction::{Committed, Transaction};
use graph_model::{BeginRefusal, Refusal, VertexEngine};
use thiserror::Error;

/// What is done in a transaction, once or several times.
pub trait TransactionBody {
    ghost use Rattle.std.specs.Prelude.{Result};
    ghost use Rattle.graph_model.specs.declared.refusal.Refusal.{Refusal};
    ghost use Rattle.graph_model.specs.Account.{Account};

    /// What making it does: from its own state and the account before to the answer and both after. Where nobody is to
    /// know, it isn't said.
    ghost did: { Self → Account → Result (Unit {0}) Refusal → Self → Account → Type 0 } = { λ _ _ _ _ _. Unit {0} };

    /// Reads and writes. Where it answers a refusal, all of it is taken back.
    fn make<E: VertexEngine, P: SessionPlace>(
        &mut self,
        txn: &mut Transaction<E, P>,
    ) -> Result<(), Refusal>
        ensures { did self.old (E.account txn.old.engine) result self.new (E.account txn.new.engine) };
}

/// Why a change wasn't committed.
#[derive(Clone, Copy, Debug, PartialEq, Eq, Error)]
pub enum RetryError {
    /// No transaction was begun.
    #[error("{0}")]
    NotBegun(BeginRefusal),
    /// A write was refused for another cause than a conflict.
    #[error("{0}")]
    Refused(Refusal),
    /// So many tries have met a conflict.
    #[error("a conflict in each of {tries} tries")]
    Conflicts { tries: u32 },
}

impl<E: VertexEngine, P: SessionPlace> Session<E, P> {
    /// Makes a change in a transaction of its own and commits it. Where a write meets a conflict the transaction is
    /// taken back, and the change is made again in a new one, which sees more: so many times at most.
    pub fn with_retry<C: TransactionBody>(
        self,
        tries: u32,
        change: &mut C,
    ) -> (Session<E, P>, Result<Option<u64>, RetryError>)
        ensures committed { IfOk result.1 (λ stamp. EndsAfter C.did P.number tries change.old (λ between.
            IsCommitted C.did P.number between change.new stamp (E.account result.0.engine))) }
        ensures stopped { IfErr result.1 (λ why.
            IsStopped C.did P.number tries change.old change.new why (E.account result.0.engine)) }
    {
        let mut session = self;
        'tries: for _try in 0..tries {
            let (next, ended) = session.try_once(change);
            session = next;
            if !met_conflict(&ended) {
                return (session, ended);
            }
        }
        (session, Err(RetryError::Conflicts { tries }))
    }

    /// Makes a change in a transaction, and commits it or takes it back.
    fn try_once<C: TransactionBody>(
        self,
        change: &mut C,
    ) -> (Session<E, P>, Result<Option<u64>, RetryError>)
        ensures committed { IfOk result.1 (λ stamp.
            IsCommitted C.did P.number change.old change.new stamp (E.account result.0.engine)) }
        ensures stopped { IfErr result.1 (λ why.
            FailsOnce C.did P.number change.old change.new why (E.account result.0.engine)) }
    {
        let mut txn = match self.begin() {
            Ok(txn) => txn,
            Err(NotBegun { session, why }) => return (session, Err(RetryError::NotBegun(why))),
        };
        match change.make(&mut txn) {
            Ok(()) => {
                let Committed { session, stamp } = txn.commit();
                (session, Ok(stamp))
            }
            Err(why) => (txn.abort(), Err(RetryError::Refused(why))),
        }
    }
}

/// Whether a try has met a conflict.
fn met_conflict(ended: &Result<Option<u64>, RetryError>) -> bool
    ensures { TellsConflict ended.now result }
{
    matches!(
        ended,
        Err(RetryError::Refused(Refusal::Conflict { cause: _ }))
    )
}
