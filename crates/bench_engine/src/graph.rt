//! Engines that load a graph.

ghost use Rattle.std.specs.Prelude.{◌≡◌, None, IfOk, OnOk};
ghost use Rattle.bench_engine.specs.Configured.{bench_config};
ghost use Rattle.bench_graphs.specs.Loadable.{IsLoadableGraph};
ghost use Rattle.teseo_core.specs.Keeping.{new_core};

use anyhow::Result;
use bench_graphs::Graph;
use graph_model::{Kind, LoadEngine, MAX_BEGINS, MAX_LEAVES};
use graphalytics_io::load_graph;
use std::alloc::Global;
use teseo_core::Core;
use txn_manager::Config;

/// A new engine of so many passes.
pub fn new_engine(alloc: Global, passes: u32) -> Result<Core>
    ensures { IfOk result (λ engine. engine.core ≡ new_core (bench_config passes)) }
{
    let config = Config {
        kind: Kind::Undirected,
        leaves: MAX_LEAVES,
        passes,
        txns_per_pass: MAX_BEGINS,
    };
    Ok(Core::new(alloc, config)?)
}

/// Loads the graph into a new engine of one pass, which has no transaction open then.
pub fn load<E: LoadEngine>(alloc: Global, engine: &mut E, graph: &Graph) -> Result<()>
    requires new { E.core engine.old ≡ new_core (bench_config 1) }
    requires graph { IsLoadableGraph graph.now }
    ensures { OnOk result ((E.account engine.new).start ≡ None) }
{
    load_graph(alloc, engine, &graph.ids, &graph.edges)?;
    Ok(())
}

/// Loads the graph into a new engine of two passes. The first has a transaction open then where a reader is wanted, and
/// the second, which is selected, has none.
pub fn load_beside_reader<E: LoadEngine>(
    alloc: Global,
    engine: &mut E,
    graph: &Graph,
    is_read: bool,
) -> Result<()>
    requires new { E.core engine.old ≡ new_core (bench_config 2) }
    requires graph { IsLoadableGraph graph.now }
    ensures { OnOk result ((E.account engine.new).start ≡ None) }
{
    load_graph(alloc, engine, &graph.ids, &graph.edges)?;
    if is_read {
        engine.begin()?;
    }
    engine.select(1);
    Ok(())
}
