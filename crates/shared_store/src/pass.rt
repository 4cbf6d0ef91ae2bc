//! Whoever runs transactions on a store, one after the other.
//!
//! 1. A pass is in one thread at a time; its fields are its own, and a store has none of them.

ghost use Rattle.std.specs.Prelude.{◌≡◌, [], IfOk};
ghost use Rattle.pass_writes.specs.PassSteps.Passes.{IsIdlePass};
ghost use Rattle.pass_writes.specs.StoreRelation.Passes.{number_of};
ghost use Rattle.pass_writes.specs.PassSteps.Passes.{state_of};
ghost use Rattle.shared_store.specs.Passes.{IsOpen};

use graph_model::{Begun, NoMemory, RoomyWrites, TxnName};
use items::RoomyItems;
use pass_writes::below::{Pass as Seats, PassCells, UnsettledCells};
use std::alloc::Global;

/// A pass of a store. It is in no transaction, or in an open one, of which it has the writes twice: one list goes into
/// the journal with the commit, and by the other its rows are stamped then. Its seats and cells are lent to calls that
/// move rows for it.
pub struct Pass {
    /// Its seats on both tables of the store.
    pub seats: Seats,
    /// The cells that it has in hand, and its guesses at others.
    pub cells: PassCells,
    /// Those that its commits have left with records.
    pub(crate) unsettled: UnsettledCells,
    pub alloc: Global,
    /// How many transactions it has begun.
    pub(crate) begun: u32,
    /// The start of the open one.
    pub(crate) start: u64,
    /// Those of the open transaction; the list goes into the journal.
    pub(crate) own: RoomyWrites,
    /// The same once more, by which their rows are stamped.
    pub(crate) changed: RoomyWrites,
}

impl Pass {
    /// A pass that has begun nothing, with its seats and room for cells.
    pub(crate) fn new(
        alloc: Global,
        seats: Seats,
        cells: PassCells,
        unsettled: UnsettledCells,
    ) -> Pass
        ensures seats { result.seats ≡ seats }
        ensures cells { result.cells ≡ cells }
        ensures begun { result.begun ≡ 0 }
        ensures own { (result.own.items ≡ []) × (result.changed.items ≡ []) }
    {
        Pass {
            seats,
            cells,
            unsettled,
            alloc,
            begun: 0,
            start: 0,
            own: RoomyItems::new(alloc),
            changed: RoomyItems::new(alloc),
        }
    }

    /// The number of the pass.
    pub fn number(&self) -> u32
        ensures { result ≡ self.now.seats.number }
    {
        self.seats.number
    }

    /// What `begin` has answered of its latest transaction.
    pub fn latest(&self) -> Begun
        ensures by { result.by ≡ record { job = self.now.seats.number; number = self.now.begun } }
        ensures start { result.start ≡ self.now.start }
    {
        Begun {
            by: TxnName {
                job: self.seats.number,
                number: self.begun,
            },
            start: self.start,
        }
    }

    /// Its seats, where it has no cell in hand. Gives its memory back.
    pub(crate) fn into_seats(self) -> Seats
        requires { self.cells.taken.list.items ≡ [] }
        ensures { result ≡ self.seats }
    {
        let Pass {
            seats,
            cells,
            unsettled: _,
            alloc: _,
            begun: _,
            start: _,
            own: _,
            changed: _,
        } = self;
        cells.close();
        seats
    }
}
