//! Why a write or a `begin` is refused.
//!
//! Where several causes hold, the one that stands first is answered. A refused call has changed
//! nothing.

ghost use Rattle.std.specs.Prelude.{◌≡◌};

use crate::journal::TxnName;
use items::NoMemory;
use std::fmt;
use thiserror::Error;

/// What a refused write met: a later commit, or another open transaction, with a clashing write.
#[derive(Clone, Copy, Debug, PartialEq, Eq)]
pub enum Cause {
    /// A commit after the start, with this stamp.
    Later { stamp: u64 },
    /// An open transaction, of this name.
    Holder { by: TxnName },
}

impl fmt::Display for Cause {
    fn fmt<W: fmt::Write>(&self, f: &mut fmt::Formatter<W>) -> fmt::Result {
        match self {
            Cause::Later { stamp } => write!(f, "later {stamp}"),
            Cause::Holder { by } => {
                let job = by.job;
                let number = by.number;
                write!(f, "open {job}.{number}")
            }
        }
    }
}

/// Why a write was refused: the first that holds, in the order in which they stand here. Want of
/// memory may come in place of any answer.
#[derive(Clone, Copy, Debug, PartialEq, Eq, Error)]
pub enum Refusal {
    /// Both ends of the edge are one vertex.
    #[error("self loop")]
    SelfLoop,
    /// An end of the edge, or the vertex to be removed, isn't a vertex of the view.
    #[error("no vertex {v}")]
    NoVertex { v: u64 },
    /// The vertex to be added is in the view.
    #[error("vertex exists")]
    VertexExists,
    /// The edge to be added is in the view.
    #[error("edge exists")]
    EdgeExists,
    /// The edge to be set or removed isn't in the view.
    #[error("no edge")]
    NoEdge,
    /// The vertex to be removed is an end of an arc of the view.
    #[error("has edges")]
    HasEdges,
    /// Another transaction has made a clashing write.
    #[error("conflict {cause}")]
    Conflict { cause: Cause },
    /// No place is left for a row.
    #[error("full at {leaves} leaves")]
    Full { leaves: u32 },
    /// Memory was refused, and nothing has changed.
    #[error("no memory")]
    NoMemory,
}

/// Why a transaction wasn't begun.
#[derive(Clone, Copy, Debug, PartialEq, Eq, Error)]
pub enum BeginRefusal {
    /// The pass has begun its configured number of transactions.
    #[error("all transactions of the pass are used")]
    TxnsUsed,
    /// Memory was refused, and no transaction has begun.
    #[error("no memory")]
    NoMemory,
}

impl From<NoMemory> for BeginRefusal {
    ghost use Rattle.graph_model.specs.declared.refusal.BeginRefusal.TheVariants as refusals;

    ghost from_gives = { λ _ refusal. refusal ≡ refusals.NoMemory };

    fn from(_refused: NoMemory) -> BeginRefusal {
        BeginRefusal::NoMemory
    }
}
