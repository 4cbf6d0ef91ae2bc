//! Two passes that write one row.

ghost use Rattle.std.specs.Prelude.{◌≡◌};
ghost use Rattle.shared_store.specs.Passes.{IsIdle, IsOpen};

use crate::case::Case;
use crate::txns::makes;
use graph_model::{Refusal, Write};
use shared_store::{Pass, Store, abort, begin, commit, has_vertex, write};
use std::sync::Wait;

/// What both passes write.
const ADDED: Write = Write::AddVertex { v: 5 };

/// The second pass adds a vertex. Then the first one tries to, before it commits and once it has.
#[derive(Clone, Copy, Debug, PartialEq, Eq)]
pub struct AddTheSame {
    /// Whether the second pass has added it, and the stamp of its commit.
    pub added: bool,
    pub stamp: Option<u64>,
    /// Why the first one may not, before and afterwards.
    pub before: Option<Refusal>,
    pub afterwards: Option<Refusal>,
    /// Whether the first one sees the vertex at last.
    pub sees: bool,
}

impl<R: Wait> Case<R> for AddTheSame {
    fn run(&mut self, rt: &R, store: &Store, one: &mut Pass, two: &mut Pass) {
        match begin(rt, store, two) {
            Ok(_) => {}
            Err(_) => return,
        }
        self.added = makes(rt, store, two, ADDED);
        match begin(rt, store, one) {
            Ok(_) => add_beside(rt, store, one, two, self),
            Err(_) => abort(rt, store, two),
        }
    }
}

/// A pass tries to add the vertex before another one commits it and afterwards, and looks for it.
fn add_beside(
    rt: &impl Wait,
    store: &Store,
    one: &mut Pass,
    two: &mut Pass,
    answers: &mut AddTheSame,
)
    requires one { IsOpen store.now one.old }
    requires two { IsOpen store.now two.old }
    ensures one { IsIdle store.now one.new }
    ensures two { IsIdle store.now two.new }
    ensures first_number { one.new.seats.number ≡ one.old.seats.number }
    ensures second_number { two.new.seats.number ≡ two.old.seats.number }
{
    answers.before = write(rt, store, one, ADDED).err();
    answers.stamp = commit(rt, store, two);
    answers.afterwards = write(rt, store, one, ADDED).err();
    answers.sees = has_vertex(rt, store, one, 5);
    abort(rt, store, one);
}
