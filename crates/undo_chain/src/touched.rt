//! What is known of earlier touches.
//!
//! 1. It is a hint of the caller that a clause checks: `Never` may be said only of a transaction that has touched no
//!    row.

/// Whether a transaction may have touched a row before it does so now. Where it has not, its touch need not be looked
/// for among those of others, of which a row with many edges has many.
#[derive(Clone, Copy, Debug, PartialEq, Eq)]
pub enum Touched {
    /// It has touched no row before.
    Never,
    /// It may have.
    Maybe,
}
