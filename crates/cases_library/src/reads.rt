//! A store that begins with a graph, and a session that reads it and takes an account away.

ghost use Rattle.std.specs.Prelude.{◌≡◌, IfOk};
ghost use Rattle.cases_library.specs.Payments.{three_accounts};

use std::alloc::Global;
use std::sync::Wait;
use teseo_store::{
    Closed, Committed, Config, Cursor, GraphStore, Key, Kind, LoadedRefusal, NoMemory, NotBegun,
    Refusal, Rows64, Session, SessionPlace, Transaction, VertexEngine, Work, Write, Writes,
};

/// What a transaction sees of an account.
#[derive(Clone, Copy, Debug, PartialEq, Eq)]
pub struct Seen {
    /// How many commits it sees.
    pub commits: u64,
    /// Whether the account is there.
    pub is_there: bool,
    /// How many others the account has paid, and how much.
    pub payees: usize,
    pub paid: u64,
    /// How many accounts and payments the whole graph has.
    pub rows: usize,
    /// How many accounts its image has.
    pub accounts: usize,
}

/// Looks at account 1, and takes account 3 away.
#[derive(Drop)]
pub struct Survey {
    pub alloc: Global,
    pub seen: Option<Seen>,
    /// What account 3 was refused while it was paid.
    pub first_answer: Option<Refusal>,
    pub stamp: Option<u64>,
}

impl Work for Survey {
    fn work<E: VertexEngine, P: SessionPlace>(&mut self, session: Session<E, P>) -> Session<E, P> {
        let mut txn = match session.begin() {
            Ok(txn) => txn,
            Err(NotBegun { session, why: _ }) => return session,
        };
        self.seen = look(self.alloc, &mut txn).ok();
        self.first_answer = txn.drop_vertex(3).err();
        if take_away(&mut txn).is_err() {
            return txn.abort();
        }
        let Committed { mut session, stamp } = txn.commit();
        self.stamp = stamp;
        // keeps the store small, and changes nothing that anybody sees
        let _ = session.serve();
        session
    }
}

/// What is to be seen of account 1.
fn look<E: VertexEngine, P: SessionPlace>(
    alloc: Global,
    txn: &mut Transaction<E, P>,
) -> Result<Seen, NoMemory> {
    let payees = txn.neighbours(alloc, 1)?;
    let mut paid: u64 = 0;
    'payees: for payee in payees.as_slice() {
        paid = paid.saturating_add(payee.weight);
    }
    let image = txn.image(alloc)?;
    Ok(Seen {
        commits: txn.start(),
        is_there: txn.has_vertex(1),
        payees: payees.len(),
        paid,
        rows: count_rows(txn),
        accounts: image.len(),
    })
}

/// How many rows the whole graph has: one for each account, and one for each payment.
fn count_rows<E: VertexEngine, P: SessionPlace>(txn: &mut Transaction<E, P>) -> usize {
    let mut rows = Rows64::new();
    let mut cursor = Cursor {
        next: Key::of_vertex(0),
        until: Key::end(),
        done: false,
    };
    let mut count: usize = 0;
    'turns: for _turn in 0..u64::MAX {
        if cursor.done {
            break;
        }
        txn.scan(&mut cursor, &mut rows);
        count = count.saturating_add(rows.len());
    }
    count
}

/// Takes account 3 away, and what it was paid.
fn take_away<E: VertexEngine, P: SessionPlace>(txn: &mut Transaction<E, P>) -> Result<(), Refusal> {
    txn.drop_edge(1, 3)?;
    txn.drop_vertex(3)
}

/// Three accounts, the first of which has paid both others.
fn three(alloc: Global) -> Result<Writes, NoMemory>
    ensures { IfOk result (λ graph. graph ≡ three_accounts) }
{
    let mut graph = Writes::new(alloc);
    graph.push(Write::AddVertex { v: 1 })?;
    graph.push(Write::AddVertex { v: 2 })?;
    graph.push(Write::AddVertex { v: 3 })?;
    graph.push(Write::AddEdge {
        u: 1,
        v: 2,
        weight: 250,
    })?;
    graph.push(Write::AddEdge {
        u: 1,
        v: 3,
        weight: 100,
    })?;
    Ok(graph)
}

/// Begins with three accounts, has one looked at and one taken away, and says how many sessions there were.
pub fn survey_three<R: Wait>(
    rt: &R,
    alloc: Global,
    survey: &mut Survey,
) -> Result<(u32, Closed), LoadedRefusal> {
    let config = Config {
        kind: Kind::Directed,
        leaves: 64,
        passes: 4,
        txns_per_pass: 10,
    };
    let graph = three(alloc)?;
    let mut store = GraphStore::load(alloc, config, graph)?;
    let sessions = store.sessions();
    store.run_one(rt, survey);
    Ok((sessions, store.close()))
}
