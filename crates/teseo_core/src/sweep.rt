//! Records that nobody can see any more are taken away while transactions run.
//!
//! 1. A sweep takes one leaf, and the next one goes on where it ended.
//! 2. No open transaction began below the horizon, so none sees what a sweep takes away.

ghost use Rattle.std.specs.Prelude.{◌≡◌, true};
ghost use Rattle.graph_model.specs.Rows.{is_below, end_key, first_key};
ghost use Rattle.teseo_core.specs.Sweeping.{Sweeps, from_first};

use crate::free::free_behind;
use crate::store::Core;
use graph_model::Key;

/// The key whose leaf the next sweep takes.
#[derive(Clone, Copy)]
pub(crate) struct SweepStart {
    /// The leaf that has it is the next one.
    pub(crate) key: Key,
    ghost within: { is_below key end_key ≡ true },
}

impl SweepStart {
    /// That of the first leaf.
    pub(crate) fn first() -> SweepStart
        ensures { result.key ≡ first_key }
    {
        SweepStart {
            key: Key::of_vertex(0),
        }
    }

    /// This key, or after the last leaf that of the first one.
    fn from_first(key: Key) -> SweepStart
        ensures { result.key ≡ from_first key }
    {
        if key.is_below(Key::end()) {
            SweepStart { key }
        } else {
            SweepStart::first()
        }
    }
}

impl Core {
    /// Takes away, in the rows of the next leaf, what no transaction can see any more, and answers whether a record
    /// went. After the last leaf the retired leaves are freed that can be, and the first one comes next. Takes no
    /// memory.
    pub fn sweep_step(&mut self) -> bool
        ensures { Sweeps self.old self.new result }
    {
        self.manager.is_managed();
        let horizon = self.manager.horizon();
        let pruned = self.rows.sweep_leaf(self.next.key, &self.manager, horizon);
        self.next = SweepStart::from_first(pruned.high);
        free_behind(&mut self.rows, &self.manager, pruned.high);
        pruned.records > 0
    }
}
