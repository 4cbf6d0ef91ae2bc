//! Records that move to a neighbouring table with their rows.
//!
//! 1. While records move, places count through the rows of both.
//! 2. No call takes memory: there is room for what comes.

ghost use Rattle.std.specs.Prelude.{◌+◌, ◌++◌};
ghost use Rattle.row_table.specs.Moves.{CanHand, HandsPlace, HandsPlaces};

use graph_model::Row;
use head_map::below::{Chains, Link};
use head_map::{HeadMap, PackedHeads};

/// Moves the records and touches of the rows at these places to another table, which has room for them.
pub fn hand_each(
    from_heads: &mut HeadMap,
    from: &mut Chains,
    to_heads: &mut HeadMap,
    to: &mut Chains,
    left: &[Row],
    right: &[Row],
    place: usize,
    until: usize,
)
    requires { CanHand (left.now ++ right.now) place until from_heads.old from.old to_heads.old to.old }
    ensures { HandsPlaces (left.now ++ right.now) place until from_heads.old from_heads.new from.old from.new
        to_heads.old to_heads.new to.old to.new }
{
    if place == until {
        return;
    }
    hand_over(from_heads, from, to_heads, to, left, right, place);
    hand_each(
        from_heads,
        from,
        to_heads,
        to,
        left,
        right,
        place + 1,
        until,
    );
}

/// Moves the records and touches of one row to another table, which has room for them. The rows are only there
/// for the contract.
fn hand_over(
    from_heads: &mut HeadMap,
    from: &mut Chains,
    to_heads: &mut HeadMap,
    to: &mut Chains,
    left: &[Row],
    right: &[Row],
    place: usize,
)
    requires { CanHand (left.now ++ right.now) place (place + 1) from_heads.old from.old to_heads.old to.old }
    ensures { HandsPlace (left.now ++ right.now) place from_heads.old from_heads.new from.old from.new
        to_heads.old to_heads.new to.old to.new }
{
    let _ = left;
    let _ = right;
    let heads = from_heads.get(place);
    let undos = from.move_to(heads.undos, to);
    let touches = from.move_to(heads.touches, to);
    // The entry at the old place goes with the row.
    let settled = PackedHeads::new(true, Link::none(), Link::none());
    from_heads.put(place, settled);
    let moved = PackedHeads::new(heads.has_value, to.link(undos), to.link(touches));
    to_heads.put(place, moved);
}
