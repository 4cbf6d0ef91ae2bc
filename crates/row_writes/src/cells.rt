//! Cells at hand.
//!
//! 1. An owner of a store holds all of its cells, a pass of many those whose latches it has taken.
//! 2. A change of one key changes no other key's row, and takes no memory.

ghost use Rattle.std.specs.Prelude.{◌≡◌, ◌≤◌, true, OnOk};
ghost use Rattle.version_segment.specs.Rows.{or_nothing};
ghost use Rattle.row_writes.specs.Held.{AllowsChange, Changes, HaveCells, HeldRows, Reserves};

use graph_model::{Key, NoMemory, TxnName};
use version_segment::{RowChange, RowView};

/// The cells that a writer holds. A finger says where a key was found: whoever is given one looks there first, and a
/// wrong one costs time alone.
pub trait HeldCells {
    type Finger: Copy;

    /// What is seen of them.
    ghost rows: { Self → HeldRows };

    /// What each call keeps beside that.
    ghost keeps: { Self → Self → Type 0 };

    /// A key whose cell is held lies in it.
    fn keys_lie_in_cells(&self)
        ensures { HaveCells (rows self.now) };

    /// Lends what a key has.
    fn row(&self, key: Key, near: Self::Finger) -> RowView<'_>
        requires { (rows self.now).holds key ≡ true }
        ensures { or_nothing result ≡ (rows self.now).versions key };

    /// Makes room in the key's cell for four records.
    fn reserve(&mut self, key: Key, near: Self::Finger) -> Result<(), NoMemory>
        requires { (rows self.old).holds key ≡ true }
        ensures ok { OnOk result (4 ≤ (rows self.new).spare key) }
        ensures reserves { Reserves (rows self.old) (rows self.new) }
        ensures keeps { keeps self.old self.new };

    /// Changes the key's row.
    fn change(&mut self, key: Key, near: Self::Finger, by: TxnName, change: RowChange)
        requires held { (rows self.old).holds key ≡ true }
        requires may { AllowsChange change by (rows self.old) key }
        ensures changed { Changes change by (rows self.old) (rows self.new) key }
        ensures keeps { keeps self.old self.new };

    ghost keeps_self: { (s : Self) → keeps s s };

    ghost keeps_chain: { (s t u : Self) → keeps s t → keeps t u → keeps s u };
}
