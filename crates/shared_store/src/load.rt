//! A store that begins with a load.
//!
//! 1. It is as if pass 0 had begun on a new store, made the writes of a load and committed them.
//! 2. The rows of the load are sorted, by several threads where the caller may start them, and divided among leaves
//!    from left to right.

ghost use Rattle.std.specs.Prelude.{◌≡◌, ◌<◌, ◌↔◌, Err, IfErr, IfOk, false, true, length};
ghost use Rattle.std.specs.List.{AllByRecursion};
ghost use Rattle.graph_model.specs.Graph.{empty_graph};
ghost use Rattle.graph_model.specs.Loading.{IsAdd};
ghost use Rattle.graph_model.specs.Refused.{AllAllowed, IsWithinLimits};
ghost use Rattle.pass_writes.specs.LoadedCells.Numbered.{AreRowsOf};
ghost use Rattle.txn_manager.specs.Config.{too_large};
ghost use Rattle.shared_store.specs.Ends.{AreEnds, HaveBegunNothing, HaveNoCells, seats_of};
ghost use Rattle.shared_store.specs.Loading.{AreLoaded, HaveBegunLoad, IsLoadedRefusal};
ghost use Rattle.shared_store.specs.declared.load.LoadedRefusal.TheVariants.{TooLarge};

use crate::ends::{Passes, new, seated};
use crate::pass::Pass;
use graph_model::{NoMemory, Row, Writes};
use load_order::{sorted_by_threads, sorted_rows};
use pass_writes::below::Store;
use std::alloc::Global;
use std::thread::Threads;
use thiserror::Error;
use txn_manager::{Config, RoomRefusal, StoreRefusal};

/// Why no store begins with a load.
#[derive(Clone, Copy, Debug, PartialEq, Eq, Error)]
pub enum LoadedRefusal {
    /// A number of the configuration is 0, or above its limit.
    #[error("store too large")]
    TooLarge,
    /// The load has more rows than so many leaves hold.
    #[error("full at {leaves} leaves")]
    Full { leaves: u32 },
    /// Memory was refused, and there is no store.
    #[error("no memory")]
    NoMemory,
}

impl From<NoMemory> for LoadedRefusal {
    ghost use Rattle.shared_store.specs.declared.load.LoadedRefusal.TheVariants as refusals;

    ghost from_gives = { λ _ refusal. refusal ≡ refusals.NoMemory };

    fn from(_refused: NoMemory) -> LoadedRefusal {
        LoadedRefusal::NoMemory
    }
}

impl From<StoreRefusal> for LoadedRefusal {
    ghost use Rattle.shared_store.specs.Loading.{of_store};

    ghost from_gives = { λ refused refusal. refusal ≡ of_store refused };

    fn from(refused: StoreRefusal) -> LoadedRefusal {
        match refused {
            StoreRefusal::TooLarge => LoadedRefusal::TooLarge,
            StoreRefusal::NoMemory => LoadedRefusal::NoMemory,
        }
    }
}

impl From<RoomRefusal> for LoadedRefusal {
    ghost use Rattle.shared_store.specs.Loading.{of_room};

    ghost from_gives = { λ refused refusal. refusal ≡ of_room refused };

    fn from(refused: RoomRefusal) -> LoadedRefusal {
        match refused {
            RoomRefusal::Full { leaves } => LoadedRefusal::Full { leaves },
            RoomRefusal::NoMemory => LoadedRefusal::NoMemory,
        }
    }
}

/// A store with the rows of a load, and its passes. Pass 0 has made the load's writes and committed them, as the
/// journal's first entry; the others have begun nothing. Where there is nothing to load it is as `new` makes it.
pub fn loaded(alloc: Global, config: Config, load: Writes) -> Result<(Store, Passes), LoadedRefusal>
    requires adds { AllByRecursion IsAdd load }
    requires allowed { AllAllowed config.kind empty_graph load }
    requires within { AllByRecursion IsWithinLimits load }
    ensures too_large { (result ≡ Err TooLarge) ↔ (too_large config ≡ true) }
    ensures refused { IfErr result (λ refusal. IsLoadedRefusal config load refusal) }
    ensures config { IfOk result (λ made. made.0.accounts.config ≡ config) }
    ensures passes { IfOk result (λ made. AreLoaded load made.0 made.1.list.items) }
    ensures ends { IfOk result (λ made. AreEnds made.0 made.1.ends) }
{
    if config.is_too_large() {
        return Err(LoadedRefusal::TooLarge);
    }
    // A commit of nothing has no place in a journal.
    if load.is_empty() {
        let made = new(alloc, config)?;
        return Ok(made);
    }
    let rows = sorted_rows(alloc, config.kind, load.as_slice())?;
    filled(alloc, config, rows, load)
}

/// The same, where the rows are sorted by several threads.
pub fn loaded_by_threads<R: Threads + Sync>(
    rt: &R,
    alloc: Global,
    config: Config,
    load: Writes,
) -> Result<(Store, Passes), LoadedRefusal>
    requires adds { AllByRecursion IsAdd load }
    requires allowed { AllAllowed config.kind empty_graph load }
    requires within { AllByRecursion IsWithinLimits load }
    ensures too_large { (result ≡ Err TooLarge) ↔ (too_large config ≡ true) }
    ensures refused { IfErr result (λ refusal. IsLoadedRefusal config load refusal) }
    ensures config { IfOk result (λ made. made.0.accounts.config ≡ config) }
    ensures passes { IfOk result (λ made. AreLoaded load made.0 made.1.list.items) }
    ensures ends { IfOk result (λ made. AreEnds made.0 made.1.ends) }
{
    if config.is_too_large() {
        return Err(LoadedRefusal::TooLarge);
    }
    if load.is_empty() {
        let made = new(alloc, config)?;
        return Ok(made);
    }
    let rows = sorted_by_threads(rt, alloc, config.kind, load.as_slice())?;
    filled(alloc, config, rows, load)
}

/// The same of a load that isn't empty, with its rows in the order of their keys.
fn filled(
    alloc: Global,
    config: Config,
    rows: Vec<Row>,
    load: Writes,
) -> Result<(Store, Passes), LoadedRefusal>
    requires sized { too_large config ≡ false }
    requires rows { AreRowsOf config load rows.items }
    ensures refused { IfErr result (λ refusal. IsLoadedRefusal config load refusal) }
    ensures config { IfOk result (λ made. made.0.accounts.config ≡ config) }
    ensures passes { IfOk result (λ made. AreLoaded load made.0 made.1.list.items) }
    ensures ends { IfOk result (λ made. AreEnds made.0 made.1.ends) }
{
    let (store, made) = Store::filled(alloc, config, rows, load)?;
    let mut passes = seated(alloc, &store, made)?;
    note_load(&mut passes.list);
    Ok((store, passes))
}

/// Notes that pass 0 has begun the transaction of a load.
fn note_load(list: &mut Vec<Pass>)
    requires some { 0 < length list.old.items }
    requires fresh { HaveBegunNothing list.old.items }
    ensures begun { HaveBegunLoad list.new.items }
    ensures seats { seats_of list.new.items ≡ seats_of list.old.items }
    ensures cells { HaveNoCells list.old.items → HaveNoCells list.new.items }
{
    list[0].begun = 1;
}
