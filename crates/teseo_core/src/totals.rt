//! What the store holds, whatever transactions are open.
//!
//! 1. It reads under a name that no open transaction has, and so sees what has committed and nothing else.

ghost use Rattle.std.specs.Prelude.{◌≡◌, ◌≤◌, ◌-◌, ◌^◌, None, length, min};
ghost use Rattle.std.specs.FinMap as fin_map;
ghost use Rattle.graph_model.specs.Graph.{Graph, vertices_of};
ghost use Rattle.leaf_rows.specs.LeafStore.Leaves.{record_count};
ghost use Rattle.leaf_rows.specs.Readers.{Shows};
ghost use Rattle.teseo_core.specs.Keeping.{edges_of, newest_graph, running_in};

use crate::store::Core;
use graph_model::{Kind, TxnName};
use leaf_rows::Reader;
use txn_manager::Totals;

impl Core {
    /// The vertices and the edges of the newest committed graph, how many undo records and touches the rows have, up to
    /// the last number, and how many leaves are retired.
    pub fn totals(&self) -> Totals
        ensures vertices { result.vertices ≡ length (vertices_of (newest_graph self.now.core)) }
        ensures edges { result.edges ≡ edges_of self.now.core.kind (newest_graph self.now.core) }
        ensures undo { result.undo ≡ min (record_count self.now.rows) (2 ^ 64 - 1) }
        ensures retired { result.retired ≡ length self.now.rows.retired }
    {
        Totals {
            undo: self.rows.record_count(),
            retired: u64::from(self.rows.retired_count()),
            ..self.newest_totals()
        }
    }

    /// The vertices and the edges alone.
    pub(crate) fn newest_totals(&self) -> Totals
        ensures vertices { result.vertices ≡ length (vertices_of (newest_graph self.now.core)) }
        ensures edges { result.edges ≡ edges_of self.now.core.kind (newest_graph self.now.core) }
        ensures none { (result.undo ≡ 0) × (result.retired ≡ 0) }
    {
        let counts = self.rows.count(&self.newest_reader());
        Totals {
            vertices: counts.vertices as u64,
            edges: edges_of(self.kind, counts.arcs as u64),
            // Records are counted beside it, in a walk of their own over all cells.
            undo: 0,
            retired: 0,
        }
    }

    /// A reader that sees the newest committed graph.
    fn newest_reader(&self) -> Reader<'_>
        ensures started { result.start ≤ length result.manager.now.journal }
        ensures shows { Shows result self.now.rows (newest_graph self.now.core) }
    {
        Reader {
            manager: &self.manager,
            start: self.manager.clock(),
            by: self.outsider(),
        }
    }

    /// A name that no open transaction has: only the latest one of a pass can be open.
    fn outsider(&self) -> TxnName
        ensures { running_in self.now.core result ≡ None }
    {
        let latest = self.passes[self.selected as usize].begun();
        TxnName {
            job: self.selected,
            number: if latest == 0 { 1 } else { 0 },
        }
    }
}

/// How many edges so many arcs are.
fn edges_of(kind: Kind, arcs: u64) -> u64
    ensures { (g : Graph) → arcs ≡ fin_map.len g.arcs → result ≡ edges_of kind g }
{
    match kind {
        Kind::Directed => arcs,
        Kind::Undirected => arcs / 2,
    }
}
