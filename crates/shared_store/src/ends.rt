//! A store is made with its passes, and closed with all of them.
//!
//! 1. Room for whatever comes back at the end is made with the store, so the end takes no memory.
//! 2. A pass can't be let go alone: whoever has all passes of a store can close it, or let all of it go.

ghost use Rattle.std.specs.Prelude.{◌≡◌, ◌+◌, ◌≤◌, ◌↔◌, ◌++◌, Err, IfOk, [], ◌∷◌, true, length};
ghost use Rattle.std.specs.Vec.{vec_capacity};
ghost use Rattle.txn_manager.specs.Config.{too_large};
ghost use Rattle.txn_manager.specs.declared.config.StoreRefusal.TheVariants.{TooLarge};
ghost use Rattle.pass_writes.specs.StoreRule.Passes.{AreIn};
ghost use Rattle.graph_model.specs.History.{graph_at};
ghost use Rattle.shared_store.specs.Totals.{AreTotals};
ghost use Rattle.shared_store.specs.Ends.{AreEnds, AreIdle, AreNew, HasClosed, HaveBegunNothing, HaveNoCells, seats_of};

use crate::pass::Pass;
use crate::totals::totals_of;
use graph_model::{Journal, NoMemory};
use pass_writes::below::{
    Content, Pass as Seats, PassCells, Passes as Ends, Store, UnsettledCells,
};
use std::alloc::Global;
use txn_manager::{Config, StoreRefusal, Totals};

/// The passes of a store, in the order of their numbers, with what its end needs.
pub struct Passes {
    /// By number.
    pub list: Vec<Pass>,
    /// The seats that take passes back, and room for all that comes out of the store.
    pub(crate) ends: Ends,
}

/// What a store leaves behind. Nothing but `close` makes one.
#[derive(Drop)]
pub struct Closed {
    /// All commits.
    pub journal: Journal,
    /// Of the newest graph. No record is left, and no retired leaf.
    pub totals: Totals,
    closed: (),
}

/// A store without rows, and its passes, which have begun nothing.
pub fn new(alloc: Global, config: Config) -> Result<(Store, Passes), StoreRefusal>
    ensures too_large { (result ≡ Err TooLarge) ↔ (too_large config ≡ true) }
    ensures config { IfOk result (λ made. made.0.accounts.config ≡ config) }
    ensures passes { IfOk result (λ made. AreNew made.0 made.1.list.items) }
    ensures ends { IfOk result (λ made. AreEnds made.0 made.1.ends) }
{
    let (store, made) = match Store::make(alloc, config) {
        Ok(made) => made,
        Err(refused) => return Err(refused),
    };
    let passes = seated(alloc, &store, made)?;
    Ok((store, passes))
}

/// The passes of a store that was made, with what its end needs. They have begun nothing yet.
pub(crate) fn seated(alloc: Global, store: &Store, made: Ends) -> Result<Passes, NoMemory>
    requires seats { AreIn store.now made }
    requires count { length made.list.items ≡ store.now.accounts.config.passes }
    ensures seats { IfOk result (λ passes. seats_of passes.list.items ≡ made.list.items) }
    ensures fresh { IfOk result (λ passes. HaveBegunNothing passes.list.items) }
    ensures cells { IfOk result (λ passes. HaveNoCells passes.list.items) }
    ensures ends { IfOk result (λ passes. AreEnds store.now passes.ends) }
{
    let Ends {
        list: seats,
        latch,
        account,
        slots,
        cells,
    } = made;
    // The list in which the seats come back has its room from here on, so the end of a store takes no memory.
    let back = Vec::with_capacity(alloc, seats.len())?;
    let list = seat_all(alloc, store, seats)?;
    Ok(Passes {
        list,
        ends: Ends {
            list: back,
            latch,
            account,
            slots,
            cells,
        },
    })
}

/// A pass for each pair of seats, with room for the cells that it takes.
fn seat_all(alloc: Global, store: &Store, mut seats: Vec<Seats>) -> Result<Vec<Pass>, NoMemory>
    ensures seats { IfOk result (λ list. seats_of list.items ≡ seats.items) }
    ensures fresh { IfOk result (λ list. HaveBegunNothing list.items) }
    ensures cells { IfOk result (λ list. HaveNoCells list.items) }
{
    let cells = store.index_place();
    let mut list = Vec::with_capacity(alloc, seats.len())?;
    'seats: while !seats.is_empty() {
        match room_of_pass(alloc, cells) {
            Ok((own, unsettled)) => {
                put_last(&mut list, Pass::new(alloc, seats.remove(0), own, unsettled));
            }
            Err(NoMemory) => {
                // Cells that passes have room for can't be dropped: what is made already is taken apart again.
                give_up(list);
                return Err(NoMemory);
            }
        }
    }
    Ok(list)
}

/// What a pass keeps for so many cells.
fn room_of_pass(alloc: Global, cells: u32) -> Result<(PassCells, UnsettledCells), NoMemory>
    ensures { IfOk result (λ made. made.0.taken.list.items ≡ []) }
{
    let unsettled = UnsettledCells::new(alloc, cells)?;
    let own = PassCells::new(alloc, cells)?;
    Ok((own, unsettled))
}

/// Puts a pass at the end of a list that has room for it.
fn put_last(list: &mut Vec<Pass>, pass: Pass)
    requires { length list.old.items + 1 ≤ vec_capacity list.old }
    ensures items { list.new.items ≡ list.old.items ++ pass ∷ [] }
    ensures capacity { vec_capacity list.old ≤ vec_capacity list.new }
{
    match list.push(pass) {
        Ok(()) => {}
        Err(_) => unreachable!(),
    }
}

/// Gives the memory of passes back that have no cell in hand.
fn give_up(mut list: Vec<Pass>)
    requires { HaveNoCells list.items }
{
    'passes: while !list.is_empty() {
        list.remove(0).into_seats();
    }
    list.destroy_empty();
}

/// Closes a store with all its passes, none of which has a transaction, and counts the rows that are left. Takes no
/// memory, and waits for nobody.
pub fn close(store: Store, passes: Passes) -> Closed
    requires passes { AreIdle store passes.list.items }
    requires ends { AreEnds store passes.ends }
    ensures journal { HasClosed store.accounts.config passes.list.items result.journal }
    ensures totals { AreTotals store.accounts.config.kind
        (graph_at store.accounts.config.kind result.journal (length result.journal)) result.totals }
{
    let kind = store.config().kind;
    let Passes { list, mut ends } = passes;
    // All seats come back before the tables are taken apart: a table is closed only by whoever has all of it.
    take_back(list, &mut ends.list);
    let content = store.take_apart(ends);
    let Content {
        mut cells,
        index,
        journal,
    } = content;
    // By the words of the cells, so that none is unpacked, which would take memory.
    let totals = totals_of(kind, &mut cells, &index);
    Closed {
        journal: journal.into_items(),
        totals,
        closed: (),
    }
}

/// Lets a store go with all its passes, none of which has a transaction. Nothing comes out of it, and no row is looked
/// at.
pub fn let_go(store: Store, passes: Passes)
    requires { AreIdle store passes.list.items }
{
    let Passes { list, ends } = passes;
    give_up(list);
    drop(ends);
    drop(store);
}

/// Takes the seats of all passes back, in the order of their numbers.
fn take_back(mut list: Vec<Pass>, seats: &mut Vec<Seats>)
    requires cells { HaveNoCells list.items }
    requires room { (seats.old.items ≡ []) × (length list.items ≤ vec_capacity seats.old) }
    ensures { seats.new.items ≡ seats_of list.items }
{
    'passes: while !list.is_empty() {
        let seat = list.remove(0).into_seats();
        match seats.push(seat) {
            Ok(()) => {}
            Err(_) => unreachable!(),
        }
    }
    list.destroy_empty();
}
