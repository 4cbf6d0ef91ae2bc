//! A reader is split off a pass with an open transaction, and joined with it.
//!
//! 1. The snapshot is copied once. It stays right, since the pass can't write while a reader is out.
//! 2. The pass that the reader was made of comes back with the account that it had.

ghost use Rattle.std.specs.Prelude.{◌≡◌};
ghost use Rattle.shared_store.specs.Passes.{IsIdle, account_of, view_in};
ghost use Rattle.shared_readers.specs.Readers.{IsLending, IsReader, Lends, TakesBack, job_of, own_account, seen_in};

use pass_readers::{join_reader as join_seats, split_reader as split_seats};
use shared_store::{Pass, Store};
use undo_chain::Snapshot;

/// Whoever reads by the account of a pass: another pass, which has no transaction of its own, with the snapshot of the
/// transaction that is read.
pub struct SnapshotReader {
    /// The pass that reads, with the account that it was lent.
    pub(crate) pass: Pass,
    /// When the transaction began, and its name, by which its own writes are seen.
    pub(crate) snapshot: Snapshot,
}

/// Makes a reader of the open transaction, of a pass that has none. Takes no memory, and waits for nobody.
pub fn split_reader(store: &Store, from: &mut Pass, to: Pass) -> SnapshotReader
    requires from { IsLending store.now from.old }
    requires to { IsIdle store.now to }
    ensures from { Lends store.now from.old from.new }
    ensures reader { IsReader store.now result }
    ensures reads { seen_in store.now result ≡ view_in store.now from.old }
    ensures job { job_of result ≡ from.old.seats.number }
    ensures own { own_account store.now result ≡ account_of store.now to }
{
    let begun = from.latest();
    let mut pass = to;
    // From here until the reader is joined the other pass neither writes nor ends its transaction.
    split_seats(store, &mut from.seats, &mut pass.seats);
    SnapshotReader {
        pass,
        snapshot: Snapshot {
            start: begun.start,
            own: begun.by,
        },
    }
}

/// Joins a reader with its pass, and gives back the pass that it was made of. Takes no memory, and waits for nobody.
pub fn join_reader(store: &Store, from: &mut Pass, reader: SnapshotReader) -> Pass
    requires from { IsLending store.now from.old }
    requires reader { IsReader store.now reader }
    requires job { job_of reader ≡ from.old.seats.number }
    ensures from { TakesBack store.now from.old from.new }
    ensures pass { IsIdle store.now result }
    ensures own { account_of store.now result ≡ own_account store.now reader }
{
    let SnapshotReader {
        mut pass,
        snapshot: _,
    } = reader;
    join_seats(store, &mut from.seats, &mut pass.seats);
    pass
}
