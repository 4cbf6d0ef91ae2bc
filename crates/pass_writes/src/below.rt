//! What crates above name of crates that they don't list.

pub use pass_prunes::below::{
    CellHints, Change, ClosedCells, Content, Leaf, LeafSwept, Pass, PassCells, Passes, RoomNeed,
    Store, SweepKey, SweepTurn, TakenCell, begin, commit, end, end_sweep, key_after, meet,
    see_later, stop, sweep_pins, sweep_step, unpin,
};
pub use pass_settles::UnsettledCells;
