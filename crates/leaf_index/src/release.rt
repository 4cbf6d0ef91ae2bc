//! Retired leaves that are freed.
//!
//! The chain of retired leaves is turned around, and each leaf then goes to the free ones or back, the oldest first.

ghost use Rattle.std.specs.Prelude.{◌≡◌, ◌&&◌, length, take, nat_lt};
ghost use Rattle.leaf_index.specs.Idle.{AreLinked, idle_of, leaves_of, stamped};
ghost use Rattle.leaf_index.specs.Calls.{freed_idle, freed_of};

use crate::chain::Chain;

/// The free leaves and the retired ones afterwards, and how many were freed.
#[derive(Clone, Copy)]
pub struct Released {
    /// Those that were freed stand last.
    pub free: Chain,
    /// In the order that they had.
    pub retired: Chain,
    /// How many were freed.
    pub count: u32,
}

/// Moves those among the first retired leaves whose stamps are below the given one to the free leaves.
pub fn release(
    links: &mut Vec<u32>,
    stamps: &Vec<u64>,
    free: Chain,
    retired: Chain,
    until: u64,
    upto: usize,
) -> Released
    requires { AreLinked links.old.items stamps.now.items free retired }
    ensures linked { AreLinked links.new.items stamps.now.items result.free result.retired }
    ensures freed { idle_of links.new.items stamps.now.items result.free result.retired
        ≡ freed_idle until upto (idle_of links.old.items stamps.now.items free retired) }
    ensures count { result.count
        ≡ length (freed_of until (take upto (stamped stamps.now.items (leaves_of links.old.items retired)))) }
{
    // The first that were retired come first, so that the order of those that are kept stays.
    let mut waiting = retired.turned(links);
    let mut freed = free;
    let mut kept = Chain::empty();
    let mut count = 0;
    'retired: for place in 0..retired.count as usize {
        let leaf = waiting.last;
        waiting = waiting.without_last(links);
        if is_due(stamps[leaf as usize], place, until, upto) {
            freed = freed.with_last(links, leaf);
            count += 1;
        } else {
            kept = kept.with_last(links, leaf);
        }
    }
    Released {
        free: freed,
        retired: kept,
        count,
    }
}

/// Whether the retired leaf at the place, with the stamp, is to be freed.
fn is_due(stamp: u64, place: usize, until: u64, upto: usize) -> bool
    ensures { result ≡ (nat_lt place upto && nat_lt stamp until) }
{
    place < upto && stamp < until
}
