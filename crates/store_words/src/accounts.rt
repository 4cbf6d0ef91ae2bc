//! A new account table, with the words of a store without rows, and its end.
//!
//! 1. The first seat knows all words; passes get parts of what it knows.

ghost use Rattle.std.specs.Prelude.{◌≡◌, ◌<◌, ◌++◌, [], false, length, IfOk, OnOk};
ghost use Rattle.rule_model.specs.CellsModel.Indexed.{new_cell};
ghost use Rattle.rule_model.specs.EndSteps.{HasAll, first_sight, new_words, zeros};
ghost use Rattle.rule_model.specs.LastSteps.{IsLastStore};
ghost use Rattle.rule_model.specs.StoreRelation.Shared.{JournalState};
ghost use Rattle.store_words.specs.Opening.{Begin, empty_block};
ghost use Rattle.store_words.specs.Steps.{Knows, word_count};
ghost use Rattle.txn_manager.specs.Config.{too_large};

use crate::first::{Begins, first_seat};
use crate::rule::{Account, AccountRule, AccountSight, Beginning};
use atomic_table::Table;
use graph_model::{Key, NoMemory};
use std::alloc::Global;
use std::marker::Brand;
use txn_manager::Config;

/// The account table with its memory.
#[derive(Drop)]
pub struct Accounts {
    /// All words.
    pub table: Table<(), AccountSight, Beginning, AccountRule, Global>,
    /// How the store was made.
    pub config: Config,
    pub ghost key: { table.shared.key.config ≡ config },
    pub ghost sized: { too_large config ≡ false },
    pub ghost words: { table.shared.table_id.words ≡ word_count config },
    pub ghost slots: { table.shared.table_id.slots ≡ 0 },
}

impl Begins for Config {
    ghost use Rattle.rule_model.specs.EndSteps.{first_sight};

    ghost sight = { λ z. first_sight z };
}

impl Accounts {
    /// The words of a store without rows. The seat knows all of it.
    pub fn open(alloc: Global, config: Config) -> Result<(Accounts, Account), NoMemory>
        requires { too_large config ≡ false }
        ensures config { IfOk result (λ opened. opened.0.config ≡ config) }
        ensures table { IfOk result (λ opened. opened.1.table_id ≡ opened.0.table.shared.table_id) }
        ensures seat { IfOk result (λ opened. opened.1.me ≡ (first_sight config, [])) }
    {
        let words = words_of(alloc, &config)?;
        let first = first_seat(alloc, &config)?;
        Accounts::open_at(alloc, config, words.as_slice(), first)
    }

    /// A table that begins with these words, and with what this seat knows. Another seat knows it then.
    pub fn open_at(
        alloc: Global,
        config: Config,
        words: &[u64],
        first: Account,
    ) -> Result<(Accounts, Account), NoMemory>
        requires sized { too_large config ≡ false }
        requires count { length words.now ≡ word_count config }
        requires begins { Begin config words.now first.me.0 }
        ensures config { IfOk result (λ opened. opened.0.config ≡ config) }
        ensures table { IfOk result (λ opened. opened.1.table_id ≡ opened.0.table.shared.table_id) }
        ensures seat { IfOk result (λ opened. opened.1.me ≡ (first.me.0, [])) }
    {
        let beginning = Beginning { config, first };
        let (table, seat) = Table::of_words(alloc, words, &beginning)?;
        Ok((Accounts { table, config }, seat))
    }

    /// A look at a store's end. What a seat knows that has all of it is a closed store, with the rows of its cells.
    pub fn look_last(&self, seat: &mut Account)
        requires table { seat.old.table_id ≡ self.now.table.shared.table_id }
        ensures same { Knows seat.old seat.new seat.old.me.0 }
        ensures last { (j : JournalState) → HasAll self.now.config seat.old.me.0 j
            → IsLastStore self.now.config seat.old.me.0 j }
    {
        // Needs no order: nobody else steps on the table any more.
        let place = self.clock_place();
        self.load_as::<Brand, Config>(seat, place, &self.config);
    }
}

/// The words of a store without rows.
fn words_of(alloc: Global, config: &Config) -> Result<Vec<u64>, NoMemory>
    requires { too_large config.now ≡ false }
    ensures { IfOk result (λ words. words.items ≡ new_words config.now) }
{
    let passes = 16 + 16 * config.passes as usize;
    let cells = 8 * config.leaves as usize;
    let mut words = Vec::with_capacity(alloc, passes + 102 * cells)?;
    push_zeros(&mut words, passes)?;
    'cells: for cell in 0..cells {
        push_block(&mut words, low_of(cell))?;
    }
    Ok(words)
}

/// The low fence key of a cell of a new store: the first one covers all keys.
fn low_of(cell: usize) -> Key
    ensures { result ≡ (new_cell cell).low }
{
    if cell == 0 {
        Key { src: 0, second: 0 }
    } else {
        Key::END
    }
}

/// The block of a cell without rows, from its low fence key on.
fn push_block(words: &mut Vec<u64>, low: Key) -> Result<(), NoMemory>
    ensures { OnOk result (words.new.items ≡ words.old.items ++ empty_block low) }
{
    push_zeros(words, 2)?;
    words.push(low.src)?;
    words.push(low.second)?;
    words.push(Key::END.src)?;
    words.push(Key::END.second)?;
    push_zeros(words, 96)
}

fn push_zeros(words: &mut Vec<u64>, count: usize) -> Result<(), NoMemory>
    ensures { OnOk result (words.new.items ≡ words.old.items ++ zeros count) }
{
    'zeros: for _word in 0..count {
        words.push(0)?;
    }
    Ok(())
}
