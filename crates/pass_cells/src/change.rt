//! What a pass changes in the cells in hand.
//!
//! 1. All rows change first. Then one load of the clock makes the pass's view know all of them, with what it says of
//!    the pass itself.
//! 2. A change leaves the cells in hand, so several may be made before they are put back.

ghost use Rattle.std.specs.Prelude.{◌≡◌, ◌≤◌, OnOk, OnErr, [], ◌∷◌};
ghost use Rattle.row_writes.specs.Held.{AreHeld, HasTouchedNone, HaveRoom, HaveRows, Reserves};
ghost use Rattle.row_writes.specs.Written.{AreRows, all_keys, rows_of, touched_keys, written_keys};
ghost use Rattle.undo_chain.specs.declared.touched.Touched.TheVariants.{Never};
ghost use Rattle.pass_cells.specs.Changes.{AreStamped, IsUndone, IsWritten, MayMake, MayStamp, MayUndo, MissesFew, StampsRows, name_of};
ghost use Rattle.pass_cells.specs.Holding.{Holds};
ghost use Rattle.pass_cells.specs.Taken.{KeepsTaken, rows_come, rows_in};

use crate::own::PassCells;
use crate::taken::TakenCells;
use graph_model::{Key, NoMemory, TxnName, Write};
use row_writes::below::NOWHERE;
use row_writes::{Fingers, FoundRows, WrittenRows, lay};
use store_rule::{Change, Pass, Store};
use undo_chain::Touched;

/// The pass has made a write.
#[derive(Drop)]
struct Writing<'a> {
    /// The number of the pass.
    pass: u32,
    /// What it has made.
    write: Write,
    /// The cells in hand, with their rows as they are now.
    taken: &'a TakenCells,
}

impl Change for Writing<'_> {
    ghost use Rattle.store_rule.specs.RuleModel.Sight.{with_rows};
    ghost use Rattle.store_rule.specs.RuleModel.Steps.{Nothing};
    ghost use Rattle.store_rule.specs.StoreRelation.Steps.{written_by};
    ghost use Rattle.pass_cells.specs.Changes.{news_of, pass_of};

    ghost next = { λ c _ v. with_rows v c.pass (written_by (pass_of v c.pass) c.write)
        (news_of v c.taken.now.list.items) };

    ghost told = { λ _ n _. Nothing n };
}

/// It has taken its newest write back.
#[derive(Drop)]
struct Undoing<'a> {
    /// The number of the pass.
    pass: u32,
    /// The cells in hand, with their rows as they are now.
    taken: &'a TakenCells,
}

impl Change for Undoing<'_> {
    ghost use Rattle.store_rule.specs.RuleModel.Sight.{with_rows};
    ghost use Rattle.store_rule.specs.RuleModel.Steps.{Nothing};
    ghost use Rattle.store_rule.specs.StoreRelation.Steps.{taken_back};
    ghost use Rattle.pass_cells.specs.Changes.{but_newest, news_of, pass_of};

    ghost next = { λ c _ v. with_rows v c.pass
        (taken_back (pass_of v c.pass) (but_newest (pass_of v c.pass).laid))
        (news_of v c.taken.now.list.items) };

    ghost told = { λ _ n _. Nothing n };
}

/// Rows of its last commit have their stamps.
#[derive(Drop)]
struct Stamping<'a> {
    /// The number of the pass.
    pass: u32,
    /// Whose rows have their stamps.
    keys: &'a [Key],
    /// The cells in hand, with their rows as they are now.
    taken: &'a TakenCells,
}

impl Change for Stamping<'_> {
    ghost use Rattle.store_rule.specs.RuleModel.Sight.{with_rows};
    ghost use Rattle.store_rule.specs.RuleModel.Steps.{Nothing};
    ghost use Rattle.store_rule.specs.StoreRelation.Steps.{with_unstamped};
    ghost use Rattle.pass_cells.specs.Changes.{keys_beside, news_of, pass_of};

    ghost next = { λ c _ v. with_rows v c.pass
        (with_unstamped (pass_of v c.pass) (keys_beside c.keys.now (pass_of v c.pass).unstamped))
        (news_of v c.taken.now.list.items) };

    ghost told = { λ _ n _. Nothing n };
}

impl PassCells {
    /// Makes a write of the open transaction, for whose rows there is room. Where memory is refused nothing has changed
    /// but room for records.
    pub fn write(
        &mut self,
        store: &Store,
        pass: &mut Pass,
        by: TxnName,
        write: Write,
        found: &FoundRows<usize>,
        earlier: Touched,
    ) -> Result<(), NoMemory>
        requires holds { Holds store.now pass.old self.old.taken.list.items }
        requires may { MayMake store.now.accounts.config pass.old.account.me.0 pass.old.number write }
        requires name { by ≡ name_of pass.old }
        requires rows { (found.now.rows ≡ rows_of store.now.accounts.config.kind write) × AreRows found.now.rows }
        requires held { AreHeld (rows_in self.old.taken) (all_keys found.now.rows) }
        requires ends { HaveRows (rows_in self.old.taken) (touched_keys found.now.rows) }
        requires never { earlier ≡ Never → HasTouchedNone (rows_in self.old.taken) by }
        requires room { HaveRoom (rows_in self.old.taken) (written_keys found.now.rows) }
        requires few { MissesFew store.now.accounts.config.kind (rows_in self.old.taken) write }
        ensures holds { Holds store.now pass.new self.new.taken.list.items }
        ensures ok { OnOk result (IsWritten store.now.accounts.config write pass.old pass.new
            self.old.taken.list.items self.new.taken.list.items) }
        ensures err { OnErr result ((pass.new ≡ pass.old)
            × Reserves (rows_in self.old.taken) (rows_in self.new.taken)) }
    {
        // First the rows change in their cells, which nobody else sees while they are unpacked. Then one load of the
        // clock has the pass's view know it, so between the two the view is behind by this one write.
        lay(&mut self.taken, by, found, earlier)?;
        let planned = Writing {
            pass: pass.number,
            write,
            taken: &self.taken,
        };
        store.change(pass, &planned);
        self.taken.count_rows();
        Ok(())
    }

    /// Takes the newest write of a transaction that is being aborted back. Takes no memory.
    pub fn undo(&mut self, store: &Store, pass: &mut Pass, by: TxnName, write: Write)
        requires holds { Holds store.now pass.old self.old.taken.list.items }
        requires may { MayUndo pass.old.account.me.0 pass.old.number write }
        requires name { by ≡ name_of pass.old }
        requires held { AreHeld (rows_in self.old.taken) (all_keys (rows_of store.now.accounts.config.kind write)) }
        ensures holds { Holds store.now pass.new self.new.taken.list.items }
        ensures undone { IsUndone store.now.accounts.config write pass.old pass.new
            self.old.taken.list.items self.new.taken.list.items }
    {
        let found = FoundRows {
            rows: WrittenRows::of(store.config().kind, write),
            near: Fingers::alike(NOWHERE),
        };
        // Nobody noted where the rows of an older write stand, and they may have moved since: so they are searched for.
        row_writes::undo(&mut self.taken, by, &found);
        let planned = Undoing {
            pass: pass.number,
            taken: &self.taken,
        };
        store.change(pass, &planned);
        self.taken.count_rows();
    }

    /// Gives the records in the rows of these keys the stamp of the pass's last commit. Takes no memory.
    pub fn stamp(&mut self, store: &Store, pass: &mut Pass, by: TxnName, number: u64, keys: &[Key])
        requires holds { Holds store.now pass.old self.old.taken.list.items }
        requires may { MayStamp pass.old.account.me.0 pass.old.number number }
        requires name { by ≡ name_of pass.old }
        requires held { AreHeld (rows_in self.old.taken) keys.now }
        ensures holds { Holds store.now pass.new self.new.taken.list.items }
        ensures stamped { AreStamped number keys.now pass.old pass.new
            self.old.taken.list.items self.new.taken.list.items }
    {
        // A record that has its stamp already keeps it, so it does no harm that a key stands in two writes of the
        // transaction.
        stamp_rows(&mut self.taken, by, number, keys);
        let planned = Stamping {
            pass: pass.number,
            keys,
            taken: &self.taken,
        };
        store.change(pass, &planned);
        self.taken.count_rows();
    }
}

/// Stamps the rows of these keys.
fn stamp_rows(taken: &mut TakenCells, by: TxnName, number: u64, keys: &[Key])
    requires held { AreHeld (rows_in taken.old) keys.now }
    ensures stamped { StampsRows by number keys.now taken.old.list.items taken.new.list.items }
    ensures keeps { KeepsTaken taken.old taken.new }
    ensures count { rows_come taken.new.list.items ≤ rows_come taken.old.list.items }
{
    'keys: for place in 0..keys.len() {
        taken.stamp(keys[place], by, number);
    }
}
