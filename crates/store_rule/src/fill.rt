//! A store that begins with rows.
//!
//! 1. It is as if pass 0 had begun, made the writes of a load and committed them, and all rows had been pruned then. So
//!    a load costs what it costs one owner.
//! 2. Rows are divided among leaves, as one owner lays them, and the words of all cells are spelled from them. No leaf
//!    is made, and no word is stored by a step.
//! 3. The rows are let go of as soon as the words have them, since the table takes a copy of the words.

ghost use Rattle.std.specs.Prelude.{◌≡◌, [], ◌∷◌, false, IfErr, IfOk};
ghost use Rattle.loaded_cells.specs.LeafStore.Changes.{IsFillRefusal};
ghost use Rattle.loaded_cells.specs.Laid.{AreLaid};
ghost use Rattle.loaded_cells.specs.Numbered.{AreRowsOf};
ghost use Rattle.loaded_cells.specs.StoreRelation.Loads.{load_commit};
ghost use Rattle.store_rule.specs.Filling.{IsLaidLoad};
ghost use Rattle.store_rule.specs.Making.{AreLoadedPasses};
ghost use Rattle.store_rule.specs.Passes.{AreIn};
ghost use Rattle.txn_manager.specs.Config.{too_large};

use crate::make::{Parts, deal_out};
use crate::store::{Passes, Store};
use graph_model::{Commit, NoMemory, RoomyJournal, Row, TxnName, Writes};
use leaf_index::LeafIndex;
use loaded_cells::{LoadedLeaves, LoadedRange, count_rows, divide_rows, lay_words, rest_cells};
use std::alloc::Global;
use store_words::{Account, Accounts, Begins, first_seat};
use txn_manager::{Config, RoomRefusal};

/// What a store with the rows of a load is known by.
#[derive(Drop)]
struct Plan<'a> {
    /// How the store is made.
    config: Config,
    /// The writes whose rows they are.
    load: Writes,
    /// Which leaf has which keys.
    index: LeafIndex,
    /// By the number of a leaf.
    ranges: Vec<LoadedRange<'a>>,
}

impl<'a> Begins for Plan<'a> {
    ghost use Rattle.loaded_cells.specs.Numbered.{loaded_sight};
    ghost use Rattle.loaded_cells.specs.Ranges.{loaded_segments};

    ghost sight = { λ p. loaded_sight p.config p.load 0 p.index (loaded_segments p.ranges.items) };
}

/// What a store begins with that has the rows of a load, once nobody asks for the rows themselves.
#[derive(Drop)]
struct LaidLoad {
    /// How the store is made.
    config: Config,
    /// The writes whose rows they are.
    load: Writes,
    /// Which leaf has which keys.
    index: LeafIndex,
    /// All words of the store, with those of its cells.
    words: Vec<u64>,
    /// How many rows a cell has, by its number.
    counts: Vec<u8>,
    /// Knows what the words say.
    first: Account,
}

impl Store {
    /// A store with the rows of a load, which is the journal's first commit. The rows are those that its writes leave,
    /// in rising order of their keys.
    pub fn filled(
        alloc: Global,
        config: Config,
        rows: Vec<Row>,
        load: Writes,
    ) -> Result<(Store, Passes), RoomRefusal>
        requires sized { too_large config ≡ false }
        requires rows { AreRowsOf config load rows.items }
        ensures full { IfErr result (λ refusal. IsFillRefusal config.leaves rows.items refusal) }
        ensures config { IfOk result (λ made. made.0.accounts.config ≡ config) }
        ensures passes { IfOk result (λ made. AreLoadedPasses load made.0.latches.table.shared.key
            made.0.latches.table.shared.table_id made.0.accounts.table.shared.table_id made.1.list.items) }
        ensures seats { IfOk result (λ made. AreIn made.0 made.1) }
    {
        let laid = lay_load(alloc, config, rows.as_slice(), load)?;
        // The words have them now, and are there twice while they are copied into the table.
        drop(rows);
        let made = fill_both(alloc, laid)?;
        Ok(made)
    }
}

/// What a store with these rows begins with.
fn lay_load(
    alloc: Global,
    config: Config,
    rows: &[Row],
    load: Writes,
) -> Result<LaidLoad, RoomRefusal>
    requires sized { too_large config ≡ false }
    requires rows { AreRowsOf config load rows.now }
    ensures full { IfErr result (λ refusal. IsFillRefusal config.leaves rows.now refusal) }
    ensures config { IfOk result (λ laid. laid.config ≡ config) }
    ensures load { IfOk result (λ laid. laid.load ≡ load) }
    ensures laid { IfOk result IsLaidLoad }
{
    // Which rows a cell has is told by slices of the load, so no row is copied before it stands in the words.
    let LoadedLeaves { index, ranges } = divide_rows(alloc, config.leaves, rows)?;
    let plan = Plan {
        config,
        load,
        index,
        ranges,
    };
    let laid = lay_plan(alloc, plan)?;
    Ok(laid)
}

/// What a store of this plan begins with.
fn lay_plan(alloc: Global, plan: Plan) -> Result<LaidLoad, NoMemory>
    requires sized { too_large plan.config ≡ false }
    requires laid { (rows : _) × AreRowsOf plan.config plan.load rows
        × AreLaid plan.config.leaves rows plan.index plan.ranges.items }
    ensures config { IfOk result (λ laid. laid.config ≡ plan.entry.config) }
    ensures load { IfOk result (λ laid. laid.load ≡ plan.entry.load) }
    ensures laid { IfOk result IsLaidLoad }
{
    let first = first_seat(alloc, &plan)?;
    let Plan {
        config,
        load,
        index,
        ranges,
    } = plan;
    let words = lay_words(alloc, &config, ranges.as_slice())?;
    let counts = count_rows(alloc, ranges.as_slice())?;
    Ok(LaidLoad {
        config,
        load,
        index,
        words,
        counts,
        first,
    })
}

/// A store that begins so.
fn fill_both(alloc: Global, laid: LaidLoad) -> Result<(Store, Passes), NoMemory>
    requires sized { too_large laid.config ≡ false }
    requires laid { IsLaidLoad laid }
    ensures config { IfOk result (λ made. made.0.accounts.config ≡ laid.config) }
    ensures passes { IfOk result (λ made. AreLoadedPasses laid.load made.0.latches.table.shared.key
        made.0.latches.table.shared.table_id made.0.accounts.table.shared.table_id made.1.list.items) }
    ensures seats { IfOk result (λ made. AreIn made.0 made.1) }
{
    let LaidLoad {
        config,
        load,
        index,
        words,
        counts,
        first,
    } = laid;
    let (accounts, seat) = Accounts::open_at(alloc, config, words.as_slice(), first)?;
    // The words take the most memory, so nothing is made beside them that may be made after them.
    drop(words);
    let resting = rest_cells(alloc, counts.as_slice())?;
    let journal = load_journal(alloc, load)?;
    let parts = Parts {
        resting,
        index,
        journal,
    };
    let made = deal_out(alloc, accounts, seat, parts)?;
    Ok(made)
}

/// A journal with the commit of a load.
fn load_journal(alloc: Global, load: Writes) -> Result<RoomyJournal, NoMemory>
    ensures { IfOk result (λ journal. journal.items ≡ load_commit load ∷ []) }
{
    let mut journal = RoomyJournal::new(alloc);
    journal.reserve(1)?;
    journal.push_within(Commit {
        stamp: 1,
        start: 0,
        by: TxnName { job: 0, number: 1 },
        writes: load,
    });
    Ok(journal)
}
