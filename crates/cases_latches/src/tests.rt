//! What two threads find and leave on one table of counters.

use crate::counting::{count_by_two, share_seven, want_by_two};
use crate::retired::reclaim_three_times;
use std::test::Fail;

#[test]
fn two_threads_lose_no_count(rt: HostRuntime) -> Result<(), Fail> {
    let counted = count_by_two(&rt, rt.alloc(), 20000)?;
    for counter in counted.iter() {
        assert_eq!(rt; counter.count, 40000);
    }
    Ok(())
}

#[test]
fn a_counter_that_another_pass_holds_is_busy_with_its_odd_word(
    rt: HostRuntime,
) -> Result<(), Fail> {
    assert_eq!(rt; want_by_two(&rt, rt.alloc())?, Some((Some(1), None, 2)));
    Ok(())
}

#[test]
fn two_counters_are_changed_and_given_back_together(rt: HostRuntime) -> Result<(), Fail> {
    assert_eq!(rt; share_seven(&rt, rt.alloc())?, (4, 3));
    Ok(())
}

#[test]
fn what_a_pass_may_read_is_held_back_until_it_unpins(rt: HostRuntime) -> Result<(), Fail> {
    assert_eq!(rt; reclaim_three_times(rt.alloc())?, [3, 2, 0]);
    Ok(())
}
