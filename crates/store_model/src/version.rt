//! One version of a row.
//!
//! 1. The writer's name stands with the value, so that whoever reads asks where that transaction stands.

use graph_model::TxnName;

/// What a writer left in a row: a value, or none where it removed what was there.
#[derive(Clone, Copy, Debug, PartialEq, Eq)]
pub struct Version {
    /// Who left it.
    pub by: TxnName,
    /// None where the row was removed.
    pub value: Option<u64>,
}
