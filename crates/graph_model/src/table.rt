//! The tables that kernels give: one line for each vertex, in rising order.
//!
//! 1. Two kernels with one contract give one table, so whoever compares results compares lines.

ghost use Rattle.std.specs.Prelude.{◌≡◌};

use items::{Items, NoMemory};
use thiserror::Error;

/// A vertex's value: a number, or the distance of a vertex that no walk reaches.
#[derive(Clone, Copy, Debug, PartialEq, Eq)]
pub enum Value {
    /// What was counted, or a sum of weights, or an id.
    Number { n: u64 },
    /// No walk leads there.
    Infinity,
}

/// One line of a table.
#[derive(Clone, Copy, Debug, PartialEq, Eq)]
pub struct Entry {
    /// Whose line it is.
    pub vertex: u64,
    /// What the kernel found for it.
    pub value: Value,
}

/// A kernel's answer. That each vertex stands there once, and rightly, is `IsBfs` and the like.
pub type Table = Items<Entry>;

/// Why a kernel gave no table.
#[derive(Clone, Copy, Debug, PartialEq, Eq, Error)]
pub enum KernelRefusal {
    /// The root isn't a vertex.
    #[error("the root isn't a vertex")]
    NoRoot,
    /// Memory was refused.
    #[error("no memory")]
    NoMemory,
}

/// Running out of memory is that of the kernel.
impl From<NoMemory> for KernelRefusal {
    ghost use Rattle.graph_model.specs.declared.table.KernelRefusal.TheVariants as refusals;

    ghost from_gives = { λ _ e. e ≡ refusals.NoMemory };

    fn from(_refused: NoMemory) -> KernelRefusal {
        KernelRefusal::NoMemory
    }
}
