//! A store of leaves that has rows of vertices alone, each with one record of an open transaction.

ghost use Rattle.std.specs.Prelude.{◌≡◌, ◌≤◌, true, OnOk};
ghost use Rattle.graph_model.specs.Rows.{is_below, end_key};
ghost use Rattle.leaf_store.specs.Leaves.{room_at};

use graph_model::{Key, NoMemory, TxnName};
use leaf_store::below::RowChange;
use leaf_store::{Finger, LeafStore};
use txn_manager::RoomRefusal;

/// The transaction that puts all rows.
const WRITER: TxnName = TxnName { job: 1, number: 1 };

/// The stamp of leaves that are retired.
const STAMP: u64 = 7;

/// What the cases know a store by.
pub trait VertexStore {
    /// Puts the row of a vertex that has none. Makes room for it first.
    fn put(&mut self, id: u32) -> Result<(), RoomRefusal>;

    /// Takes the row of a vertex away again.
    fn take_back(&mut self, id: u32);

    /// Brings rows together once, and answers whether there was anything to bring together.
    fn merge_step(&mut self) -> Result<bool, NoMemory>;

    /// How many rows the vertex's segment has, and each of the next seven, without those that can have none, since
    /// their fence keys are equal.
    fn counts(&self, id: u32) -> [usize; 8];

    /// How many leaves are live, and how many are retired.
    fn leaves(&self) -> (u32, u32);
}

impl VertexStore for LeafStore {
    fn put(&mut self, id: u32) -> Result<(), RoomRefusal> {
        let key = vertex(id);
        make_some_room(self, key)?;
        self.reserve(key, Finger::nowhere())?;
        self.is_sound();
        self.change(
            key,
            Finger::nowhere(),
            WRITER,
            RowChange::Write { value: Some(0) },
        );
        Ok(())
    }

    fn take_back(&mut self, id: u32) {
        self.change(vertex(id), Finger::nowhere(), WRITER, RowChange::Undo);
    }

    fn merge_step(&mut self) -> Result<bool, NoMemory> {
        LeafStore::merge_step(self, STAMP)
    }

    fn counts(&self, id: u32) -> [usize; 8] {
        let mut counts = [0; 8];
        let mut key = vertex(id);
        'segments: for place in 0..8 {
            if key.is_below(Key::END) {
                let segment = self.segment(key, Finger::nowhere());
                counts[place] = segment.len();
                key = segment.high();
            }
        }
        counts
    }

    fn leaves(&self) -> (u32, u32) {
        (self.leaves_in_use(), self.retired_count())
    }
}

/// The key of a vertex.
fn vertex(id: u32) -> Key
    ensures { is_below result end_key ≡ true }
{
    Key {
        src: u64::from(id),
        second: 0,
    }
}

/// Makes room for one row in the key's cell, if there is none.
fn make_some_room(store: &mut LeafStore, key: Key) -> Result<(), RoomRefusal>
    requires { is_below key end_key ≡ true }
    ensures { OnOk result (1 ≤ room_at store.new key) }
{
    if store.segment(key, Finger::nowhere()).room() > 0 {
        return Ok(());
    }
    store.make_room(key, 1)
}
