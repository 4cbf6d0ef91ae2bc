//! The choice.
//!
//! 1. It looks at counts alone, so that the owner of a store and a pass with one leaf in hand choose alike.
//! 2. The smallest window that fits is taken, so that the fewest rows move.

ghost use Rattle.std.specs.Prelude.{◌≤◌, ◌<◌};
ghost use Rattle.room_choice.specs.Choice.{IsRoomChoice};

use density_tree::{Window, window_for_insert};
use graph_model::{LEAF_SEGMENTS, SEGMENT_ROWS};

/// How a segment comes by the free places that it needs.
#[derive(Clone, Copy, Debug, PartialEq, Eq)]
pub enum RoomChoice {
    /// It has them.
    Enough,
    /// The rows of this window are divided evenly among its segments.
    Spread { window: Window },
    /// The second half of the leaf's rows moves to a free leaf.
    Split,
    /// No window fits, and no leaf is free.
    Full,
}

/// Chooses how a segment of a leaf with these counts comes by so many free places, where so many leaves are free: by
/// the smallest window that has room for the rows needed, else by a split.
pub fn choose_room(counts: [u8; LEAF_SEGMENTS], segment: usize, need: u8, free: u32) -> RoomChoice
    requires segment { segment < LEAF_SEGMENTS }
    requires some { 1 ≤ need }
    requires few { need ≤ 2 }
    ensures { IsRoomChoice counts segment need free result }
{
    if usize::from(counts[segment]) + usize::from(need) <= SEGMENT_ROWS {
        return RoomChoice::Enough;
    }
    match window_for_insert(counts, segment, need) {
        Some(window) => RoomChoice::Spread { window },
        None if free > 0 => RoomChoice::Split,
        None => RoomChoice::Full,
    }
}
