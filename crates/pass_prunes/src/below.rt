//! What crates above name of crates that they don't list.

pub use pass_cells::below::{
    Change, ClosedCells, Content, EndKeys, Fingers, FoundRows, Leaf, NOWHERE, Pass, Passes, Rows32,
    Store, WrittenRows, check,
};
pub use pass_cells::{
    CellHints, PassCells, RoomNeed, TakenCell, TakenCells, rows_in_hand_are_known,
};
pub use pass_sweeps::below::{
    Asker, PassStates, begin, commit, end, learn, meet, name_holder, note_later, see_later, stop,
    unpin,
};
pub use pass_sweeps::{
    LeafSwept, SweepKey, SweepTurn, end_sweep, key_after, sweep_pins, sweep_step,
};
