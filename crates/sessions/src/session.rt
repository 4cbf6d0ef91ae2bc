//! Sessions between two transactions.
//!
//! 1. That no transaction is open is told by the type: what needs one can't be called.
//! 2. A begin takes the session and gives a transaction, or gives the session back with why it didn't begin.

ghost use Rattle.std.specs.Prelude.{◌≡◌, Ok, Err, IfOk, IfErr};
ghost use Rattle.graph_model.specs.AccountSteps.{BeginsBy, ReadsBy};
ghost use Rattle.sessions.specs.Sessions.{HasNone};

use crate::place::SessionPlace;
use crate::transaction::Transaction;
use graph_model::{BeginRefusal, NoMemory, VertexEngine};
use std::marker::PhantomData;

/// Runs transactions, one after the other. It has none open.
pub struct Session<E: VertexEngine, P: SessionPlace> {
    /// It has no transaction.
    pub(crate) engine: E,
    pub(crate) of: PhantomData<P>,
    pub ghost is: { ∥ HasNone P.number (E.account engine) ∥₁ },
}

/// A session that couldn't begin a transaction, and why.
pub struct NotBegun<E: VertexEngine, P: SessionPlace> {
    /// As it was.
    pub session: Session<E, P>,
    /// What stood against it.
    pub why: BeginRefusal,
}

impl<E: VertexEngine, P: SessionPlace> Session<E, P> {
    /// A session of an engine that has no transaction. Whoever lends sessions makes them so.
    pub fn of(engine: E) -> Session<E, P>
        requires { HasNone P.number (E.account engine) }
        ensures { result.engine ≡ engine }
    {
        Session {
            engine,
            of: PhantomData,
        }
    }

    /// Its engine, which has no transaction.
    pub fn into_engine(self) -> E
        ensures engine { result ≡ self.engine }
        ensures none { HasNone P.number (E.account result) }
    {
        let Session { engine, of: _ } = self;
        engine
    }

    /// Begins a transaction, which sees all that was committed before.
    pub fn begin(self) -> Result<Transaction<E, P>, NotBegun<E, P>>
        ensures begun { IfOk result (λ txn. BeginsBy (E.account self.engine) (Ok txn.begun) (E.account txn.engine)) }
        ensures refused { IfErr result (λ not.
            BeginsBy (E.account self.engine) (Err not.why) (E.account not.session.engine)) }
    {
        let Session { mut engine, of: _ } = self;
        match engine.begin() {
            Ok(begun) => Ok(Transaction {
                engine,
                begun,
                of: PhantomData,
            }),
            Err(why) => Err(NotBegun {
                session: Session {
                    engine,
                    of: PhantomData,
                },
                why,
            }),
        }
    }

    /// Takes a turn of the service, which keeps the store small and changes nothing that anybody sees. Answers whether
    /// it changed a cell of the store. The turn is the engine's own, and is counted, also where memory was refused.
    pub fn serve(&mut self) -> Result<bool, NoMemory>
        ensures reads { ReadsBy (E.account self.old.engine) (E.account self.new.engine) }
        ensures served { E.did_serve self.old.engine result self.new.engine }
    {
        self.engine.service_step()
    }
}
