//! What the open transaction reads.
//!
//! 1. A read asks the rows under the name and start of the open transaction; it changes nothing and takes no memory.

ghost use Rattle.std.specs.Prelude.{◌≡◌, ◌≤◌, ℕ, Some, IsSome, false};
ghost use Rattle.graph_model.specs.declared.limits.TheConstants.{MAX_ID};
ghost use Rattle.graph_model.specs.AccountSteps.{view_of};
ghost use Rattle.graph_model.specs.Graph.{has_vertex, weight_of};
ghost use Rattle.graph_model.specs.OwnerCalls.{current, account_here};
ghost use Rattle.graph_model.specs.OwnerLaws.{DidRead};
ghost use Rattle.graph_model.specs.Scans.{ScansBy};

use crate::store::{Core, reader_of};
use graph_model::{Cursor, Key, Rows64};

impl Core {
    /// Whether the open transaction sees a vertex.
    pub(crate) fn sees_vertex(&self, v: u64) -> bool
        requires current { IsSome (current self.now.core).start }
        requires within { v ≤ MAX_ID }
        ensures answer { (start : ℕ) → (current self.now.core).start ≡ Some start
            → result ≡ has_vertex (view_of (account_here self.now.core) start) v }
        ensures did { DidRead self.now.core self.now.core }
    {
        let reader = reader_of(
            &self.manager,
            &self.passes[self.selected as usize],
            self.selected,
        );
        self.rows.value(&reader, Key::of_vertex(v)).is_some()
    }

    /// The weight of an arc that the open transaction sees.
    pub(crate) fn sees_weight(&self, u: u64, v: u64) -> Option<u64>
        requires current { IsSome (current self.now.core).start }
        requires source_within { u ≤ MAX_ID }
        requires target_within { v ≤ MAX_ID }
        ensures answer { (start : ℕ) → (current self.now.core).start ≡ Some start
            → result ≡ weight_of (view_of (account_here self.now.core) start) u v }
        ensures did { DidRead self.now.core self.now.core }
    {
        let reader = reader_of(
            &self.manager,
            &self.passes[self.selected as usize],
            self.selected,
        );
        self.rows.value(&reader, Key::of_arc(u, v))
    }

    /// Gives the next rows that the open transaction sees.
    pub(crate) fn scan_here(&self, cursor: &mut Cursor, rows: &mut Rows64)
        requires current { IsSome (current self.now.core).start }
        requires going { cursor.old.done ≡ false }
        ensures answer { (start : ℕ) → (current self.now.core).start ≡ Some start
            → ScansBy (view_of (account_here self.now.core) start) cursor.old cursor.new rows.new }
        ensures did { DidRead self.now.core self.now.core }
    {
        let reader = reader_of(
            &self.manager,
            &self.passes[self.selected as usize],
            self.selected,
        );
        self.rows.scan(&reader, cursor, rows);
    }
}
