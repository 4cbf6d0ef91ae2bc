//! What the programs of the page end with.

use crate::first::{FirstPayment, pay_first};
use crate::held::{Holder, Party, Rival, pay_while_held};
use crate::limits::{Clerk, pay_by_two};
use crate::reads::{Seen, Survey, survey_three};
use std::sync::Barrier;
use std::test::Fail;
use teseo_store::{Closed, Refusal, RetryError};

#[test]
fn a_first_payment_is_the_first_commit(rt: HostRuntime) -> Result<(), Fail> {
    let mut payment = FirstPayment {
        stamp: None,
        refused: None,
    };
    let closed = pay_first(&rt, rt.alloc(), &mut payment)?;
    assert_eq!(rt; payment.refused, None);
    assert_eq!(rt; payment.stamp, Some(1));
    assert_eq!(rt; counts_of(&closed), (1, 2, 1));
    Ok(())
}

#[test]
fn two_clerks_pay_no_more_than_the_limit(rt: HostRuntime) -> Result<(), Fail> {
    let mut clerks = [0, 1].map(|_| Clerk {
        times: 100,
        paid: 0,
        given_up: 0,
    });
    let closed = pay_by_two(&rt, rt.alloc(), &mut clerks)?;
    let [one, two] = clerks;
    assert_eq!(rt; (one.given_up, two.given_up), (0, 0));
    assert_eq!(rt; one.paid.saturating_add(two.paid), 150);
    assert_eq!(rt; counts_of(&closed), (151, 2, 1));
    Ok(())
}

#[test]
fn a_change_meets_a_conflict_each_time_that_an_open_transaction_has_its_edge(
    rt: HostRuntime,
) -> Result<(), Fail> {
    let meeting = Barrier::new(2);
    let mut parties = [
        Party::Holder(Holder {
            rt: &rt,
            meeting: &meeting,
            wrote: None,
            stamp: None,
        }),
        Party::Rival(Rival {
            rt: &rt,
            meeting: &meeting,
            while_held: None,
            afterwards: None,
        }),
    ];
    let closed = pay_while_held(&rt, rt.alloc(), &mut parties)?;
    'parties: for party in parties.iter() {
        match party {
            Party::Holder(holder) => {
                assert_eq!(rt; holder.wrote, Some(Ok(())));
                assert_eq!(rt; holder.stamp, Some(2));
            }
            Party::Rival(rival) => {
                let conflicts = RetryError::Conflicts { tries: 3 };
                assert_eq!(rt; rival.while_held, Some(Err(conflicts)));
                assert_eq!(rt; rival.afterwards, Some(Ok(Some(3))));
            }
        }
    }
    assert_eq!(rt; counts_of(&closed), (3, 2, 1));
    Ok(())
}

#[test]
fn a_store_that_begins_with_a_graph_shows_it(rt: HostRuntime) -> Result<(), Fail> {
    let mut survey = Survey {
        alloc: rt.alloc(),
        seen: None,
        first_answer: None,
        stamp: None,
    };
    let (sessions, closed) = survey_three(&rt, rt.alloc(), &mut survey)?;
    let seen = Seen {
        commits: 1,
        is_there: true,
        payees: 2,
        paid: 350,
        rows: 5,
        accounts: 3,
    };
    assert_eq!(rt; sessions, 4);
    assert_eq!(rt; survey.seen, Some(seen));
    assert_eq!(rt; survey.first_answer, Some(Refusal::HasEdges));
    assert_eq!(rt; survey.stamp, Some(2));
    assert_eq!(rt; counts_of(&closed), (2, 2, 1));
    Ok(())
}

/// How many commits the journal has, and how many vertices and edges are left.
fn counts_of(closed: &Closed) -> (usize, u64, u64) {
    (
        closed.journal.len(),
        closed.totals.vertices,
        closed.totals.edges,
    )
}
