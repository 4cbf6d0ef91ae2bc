//! Transactions of one pass, up to the last that it may begin.

use crate::case::Case;
use graph_model::{BeginRefusal, Begun};
use shared_store::{Pass, Store, abort, begin, commit};
use std::sync::Wait;

/// The second pass commits a transaction, takes one back, and begins another, all of them without a write. It keeps
/// what it is answered.
#[derive(Clone, Copy, Debug, PartialEq, Eq)]
pub struct EndTwice {
    /// The first transaction, and the stamp of its commit.
    pub committed: Option<(Begun, Option<u64>)>,
    /// The one that is taken back.
    pub aborted: Option<Begun>,
    /// Why no third one begins.
    pub refused: Option<BeginRefusal>,
}

impl<R: Wait> Case<R> for EndTwice {
    fn run(&mut self, rt: &R, store: &Store, _one: &mut Pass, two: &mut Pass) {
        match begin(rt, store, two) {
            Ok(begun) => self.committed = Some((begun, commit(rt, store, two))),
            Err(_) => return,
        }
        match begin(rt, store, two) {
            Ok(begun) => self.aborted = Some(begun),
            Err(_) => return,
        }
        abort(rt, store, two);
        match begin(rt, store, two) {
            Ok(_) => abort(rt, store, two),
            Err(refused) => self.refused = Some(refused),
        }
    }
}
