//! What stores are made of.

ghost use Rattle.std.specs.Prelude.{◌≡◌, IfOk, IfSome};
ghost use Rattle.graph_model.specs.declared.write.Kind.TheVariants.{Undirected};
ghost use Rattle.cases_store.specs.StoreRule.Making.{AreLoadedPasses};
ghost use Rattle.bench_rule.specs.Sourced.{IsSource};

use anyhow::Result;
use bench_graphs::{count_of, made_graph};
use cases_store::below::{Passes, Store};
use graph_model::{Kind, MAX_LEAVES, MAX_TXNS_PER_PASS, NoMemory, Row, Writes};
use items::Items;
use load_order::sorted_rows;
use std::alloc::Global;
use txn_manager::{Config, RoomRefusal};

/// How many rows a leaf has at first.
const LEAF_ROWS: usize = 208;

/// The graph is made from this.
const SEED: u64 = 1;

/// The writes that add a graph, the rows that they leave, in rising order of their keys, and how a store of them is
/// made.
#[derive(Drop)]
pub struct Source {
    config: Config,
    load: Writes,
    rows: Vec<Row>,
}

impl Source {
    /// Of a random graph of so many vertices and about so many edges; none, where there is no vertex.
    pub fn make(alloc: Global, vertices: u64, edges: u64) -> Result<Option<Source>>
        ensures { IfOk result (λ made. IfSome made IsSource) }
    {
        if vertices == 0 {
            return Ok(None);
        }
        let graph = made_graph(alloc, SEED, count_of(vertices), count_of(edges))?;
        let load = graph.load(alloc)?;
        drop(graph);
        let rows = sorted_rows(alloc, Kind::Undirected, load.as_slice())?;
        let config = config_for(rows.len());
        if load.is_empty() || config.is_too_large() {
            return Ok(None);
        }
        Ok(Some(Source { config, load, rows }))
    }

    /// How many rows there are.
    pub fn count(&self) -> u64 {
        self.rows.len() as u64
    }

    /// A copy of the rows.
    pub fn copy_of_rows(&self, alloc: Global) -> Result<Vec<Row>, NoMemory>
        ensures { IfOk result (λ rows. rows.items ≡ self.now.rows.items) }
    {
        let rows = Vec::from_slice(alloc, self.rows.as_slice())?;
        Ok(rows)
    }

    /// A copy of the writes.
    pub fn copy(&self, alloc: Global) -> Result<Writes, NoMemory>
        ensures { IfOk result (λ copy. copy ≡ self.now.load) }
    {
        let copy = Vec::from_slice(alloc, self.load.as_slice())?;
        Ok(Items::from_vec(copy))
    }

    /// A store of the rows, which takes the copies of these and of the writes.
    pub fn store(
        &self,
        alloc: Global,
        rows: Vec<Row>,
        copy: Writes,
    ) -> Result<(Store, Passes), RoomRefusal>
        requires source { IsSource self.now }
        requires rows { rows.items ≡ self.now.rows.items }
        requires copy { copy ≡ self.now.load }
        ensures { IfOk result (λ made. AreLoadedPasses self.now.load made.0.latches.table.shared.key
            made.0.latches.table.shared.table_id made.0.accounts.table.shared.table_id made.1.list.items) }
    {
        Store::filled(alloc, self.config, rows, copy)
    }
}

/// A store of one pass, with as many leaves as so many rows fill.
fn config_for(rows: usize) -> Config
    ensures { result.kind ≡ Undirected }
{
    Config {
        kind: Kind::Undirected,
        leaves: (rows / LEAF_ROWS + 1).min(MAX_LEAVES as usize) as u32,
        passes: 1,
        txns_per_pass: MAX_TXNS_PER_PASS,
    }
}
