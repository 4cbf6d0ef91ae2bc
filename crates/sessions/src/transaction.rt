//! Open transactions.
//!
//! 1. That it is open is told by the type. Commit and abort take it and give the session back, so it can't be used
//!    after its end, and can't be forgotten half way: a value of this type has to be given to one of both.

ghost use Rattle.std.specs.Prelude.{◌≡◌, ◌≤◌, false};
ghost use Rattle.graph_model.specs.declared.limits.TheConstants.{MAX_ID};
ghost use Rattle.graph_model.specs.declared.write.Write.TheVariants.{AddVertex, DropVertex, AddEdge, SetEdge, DropEdge};
ghost use Rattle.graph_model.specs.AccountSteps.{AbortsBy, CommitsBy, ReadsBy, WritesAt, view_of};
ghost use Rattle.graph_model.specs.Graph.{has_vertex, weight_of};
ghost use Rattle.graph_model.specs.Refused.{IsWithinLimits};
ghost use Rattle.graph_model.specs.Scans.{ScansBy};
ghost use Rattle.sessions.specs.Sessions.{HasOpen};

use crate::place::SessionPlace;
use crate::session::Session;
use graph_model::{Begun, Cursor, Refusal, Rows64, VertexEngine, Write};
use std::marker::PhantomData;

/// A transaction of a session. It sees the commits up to its start, with its own writes, whatever others do.
pub struct Transaction<E: VertexEngine, P: SessionPlace> {
    /// It has this transaction open.
    pub(crate) engine: E,
    /// Its name and its start.
    pub(crate) begun: Begun,
    pub(crate) of: PhantomData<P>,
    pub ghost is: { ∥ HasOpen P.number begun.start (E.account engine) ∥₁ },
}

/// A session whose transaction was committed, and the stamp, if there was anything to commit.
pub struct Committed<E: VertexEngine, P: SessionPlace> {
    /// It has no transaction any more.
    pub session: Session<E, P>,
    /// None where nothing was written.
    pub stamp: Option<u64>,
}

impl<E: VertexEngine, P: SessionPlace> Transaction<E, P> {
    /// How many commits it sees.
    pub fn start(&self) -> u64
        ensures { result ≡ self.now.begun.start }
    {
        self.begun.start
    }

    /// Adds a vertex.
    pub fn add_vertex(&mut self, v: u64) -> Result<(), Refusal>
        requires within { IsWithinLimits (AddVertex v) }
        ensures writes { WritesAt (E.account self.old.engine) self.old.begun.start (AddVertex v) result
            (E.account self.new.engine) }
        ensures begun { self.new.begun ≡ self.old.begun }
    {
        self.make(Write::AddVertex { v })
    }

    /// Removes a vertex that has no edges.
    pub fn drop_vertex(&mut self, v: u64) -> Result<(), Refusal>
        requires within { IsWithinLimits (DropVertex v) }
        ensures writes { WritesAt (E.account self.old.engine) self.old.begun.start (DropVertex v) result
            (E.account self.new.engine) }
        ensures begun { self.new.begun ≡ self.old.begun }
    {
        self.make(Write::DropVertex { v })
    }

    /// Adds an edge between two vertices that have none.
    pub fn add_edge(&mut self, u: u64, v: u64, weight: u64) -> Result<(), Refusal>
        requires within { IsWithinLimits (AddEdge u v weight) }
        ensures writes { WritesAt (E.account self.old.engine) self.old.begun.start (AddEdge u v weight) result
            (E.account self.new.engine) }
        ensures begun { self.new.begun ≡ self.old.begun }
    {
        self.make(Write::AddEdge { u, v, weight })
    }

    /// Gives an edge another weight.
    pub fn set_edge(&mut self, u: u64, v: u64, weight: u64) -> Result<(), Refusal>
        requires within { IsWithinLimits (SetEdge u v weight) }
        ensures writes { WritesAt (E.account self.old.engine) self.old.begun.start (SetEdge u v weight) result
            (E.account self.new.engine) }
        ensures begun { self.new.begun ≡ self.old.begun }
    {
        self.make(Write::SetEdge { u, v, weight })
    }

    /// Removes an edge.
    pub fn drop_edge(&mut self, u: u64, v: u64) -> Result<(), Refusal>
        requires within { IsWithinLimits (DropEdge u v) }
        ensures writes { WritesAt (E.account self.old.engine) self.old.begun.start (DropEdge u v) result
            (E.account self.new.engine) }
        ensures begun { self.new.begun ≡ self.old.begun }
    {
        self.make(Write::DropEdge { u, v })
    }

    /// Makes a write.
    fn make(&mut self, write: Write) -> Result<(), Refusal>
        requires within { IsWithinLimits write }
        ensures writes { WritesAt (E.account self.old.engine) self.old.begun.start write result
            (E.account self.new.engine) }
        ensures begun { self.new.begun ≡ self.old.begun }
    {
        match write {
            Write::AddVertex { v } => self.engine.add_vertex(v),
            Write::DropVertex { v } => self.engine.drop_vertex(v),
            Write::AddEdge { u, v, weight } => self.engine.add_edge(u, v, weight),
            Write::SetEdge { u, v, weight } => self.engine.set_edge(u, v, weight),
            Write::DropEdge { u, v } => self.engine.drop_edge(u, v),
        }
    }

    /// Whether it sees a vertex.
    pub fn has_vertex(&mut self, v: u64) -> bool
        requires within { v ≤ MAX_ID }
        ensures answer { result ≡ has_vertex (view_of (E.account self.old.engine) self.old.begun.start) v }
        ensures reads { ReadsBy (E.account self.old.engine) (E.account self.new.engine) }
        ensures begun { self.new.begun ≡ self.old.begun }
    {
        self.engine.has_vertex(v)
    }

    /// The weight of an edge, if it sees one from u to v.
    pub fn weight(&mut self, u: u64, v: u64) -> Option<u64>
        requires source_within { u ≤ MAX_ID }
        requires target_within { v ≤ MAX_ID }
        ensures answer { result ≡ weight_of (view_of (E.account self.old.engine) self.old.begun.start) u v }
        ensures reads { ReadsBy (E.account self.old.engine) (E.account self.new.engine) }
        ensures begun { self.new.begun ≡ self.old.begun }
    {
        self.engine.weight(u, v)
    }

    /// Takes one turn of a scan: the next rows that it sees, 64 at most, take the place of those in the buffer.
    pub fn scan(&mut self, cursor: &mut Cursor, rows: &mut Rows64)
        requires going { cursor.old.done ≡ false }
        ensures answer { ScansBy (view_of (E.account self.old.engine) self.old.begun.start) cursor.old cursor.new
            rows.new }
        ensures reads { ReadsBy (E.account self.old.engine) (E.account self.new.engine) }
        ensures begun { self.new.begun ≡ self.old.begun }
    {
        self.engine.scan_step(cursor, rows);
    }

    /// Commits it. Others see its writes from then on, all of them or none. Without writes there is nothing to commit,
    /// and no stamp. Takes no memory.
    pub fn commit(self) -> Committed<E, P>
        ensures { CommitsBy (E.account self.engine) result.stamp (E.account result.session.engine) }
    {
        let Transaction {
            mut engine,
            begun: _,
            of: _,
        } = self;
        let stamp = engine.commit();
        Committed {
            session: Session {
                engine,
                of: PhantomData,
            },
            stamp,
        }
    }

    /// Takes all its writes back. Takes no memory.
    pub fn abort(self) -> Session<E, P>
        ensures { AbortsBy (E.account self.engine) (E.account result.engine) }
    {
        let Transaction {
            mut engine,
            begun: _,
            of: _,
        } = self;
        engine.abort();
        Session {
            engine,
            of: PhantomData,
        }
    }
}
