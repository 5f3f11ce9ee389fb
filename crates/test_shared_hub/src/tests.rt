use crate::audits::receipt_of;
use crate::runs::{Plan, run};
use crate::worker::{Ask, Row, Said};
use events::{Entry, Event, Outcome};
use permissions::Verdict;
use std::alloc::Global;
use std::hash::RandomState;
use std::test::Fail;
use test_samples::{Given, ready_of, sub};

const TALK_A: &[Row] = &[
    (Ask::Connect, Said::Connected),
    (Ask::Subs("a", 1), Said::Subscribed),
    (Ask::Pub("a"), Said::Published),
    (Ask::Take("a"), Said::Took),
];

const TALK_B: &[Row] = &[
    (Ask::Connect, Said::Connected),
    (Ask::Subs("b", 1), Said::Subscribed),
    (Ask::Pub("b"), Said::Published),
    (Ask::Take("b"), Said::Took),
];

#[test]
fn each_thread_takes_its_own_message(rt: HostRuntime) -> Result<(), Fail> {
    let keys = RandomState::new(&rt)?;
    let totals = run(&rt, rt.alloc(), keys, &[TALK_A, TALK_B], Plan::None)?;
    assert!(rt; totals.are(8, &[4, 4]));
    Ok(())
}

const SUBSCRIBE: &[Row] = &[
    (Ask::Connect, Said::Connected),
    (Ask::Subs("x", 99), Said::Subscribed),
];

const RELOAD: &[Row] = &[
    (Ask::Prepare(Given::All), Said::Prepared),
    (
        Ask::Reload,
        Said::InForce {
            epoch: 2,
            gone: 0,
            removed: 0,
        },
    ),
    (Ask::Rotate, Said::Rotated),
    (Ask::Prepare(Given::All), Said::Prepared),
    (
        Ask::Reload,
        Said::InForce {
            epoch: 3,
            gone: 0,
            removed: 0,
        },
    ),
    (Ask::Rotate, Said::Rotated),
    (Ask::Prepare(Given::All), Said::Prepared),
    (
        Ask::Reload,
        Said::InForce {
            epoch: 4,
            gone: 0,
            removed: 0,
        },
    ),
    (Ask::Rotate, Said::Rotated),
    (Ask::Prepare(Given::All), Said::Prepared),
    (
        Ask::Reload,
        Said::InForce {
            epoch: 5,
            gone: 0,
            removed: 0,
        },
    ),
    (Ask::Rotate, Said::Rotated),
    (Ask::Prepare(Given::All), Said::Prepared),
    (
        Ask::Reload,
        Said::InForce {
            epoch: 6,
            gone: 0,
            removed: 0,
        },
    ),
    (Ask::Rotate, Said::Rotated),
];

#[test]
fn four_threads_subscribe_while_one_reloads_and_rotates(rt: HostRuntime) -> Result<(), Fail> {
    let keys = RandomState::new(&rt)?;
    let jobs = [SUBSCRIBE, SUBSCRIBE, SUBSCRIBE, SUBSCRIBE, RELOAD];
    let totals = run(&rt, rt.alloc(), keys, &jobs, Plan::Forged(406))?;
    assert!(rt; totals.are(405, &[100, 100, 100, 100, 5]));
    Ok(())
}

// Both policies are prepared in epoch 1. Each comes into force as the whole that it is: the first ends the subscription that
// it doesn't allow, and the second, which allows all again, ends nothing and brings nothing back.
const FEWER_FIRST: &[Row] = &[
    (Ask::Connect, Said::Connected),
    (Ask::Subs("a", 1), Said::Subscribed),
    (Ask::Subs("b", 1), Said::Subscribed),
    (Ask::Prepare(Given::All), Said::Prepared),
    (Ask::Prepare(Given::Only("a")), Said::Prepared),
    (Ask::Rotate, Said::Rotated),
    (
        Ask::Reload,
        Said::InForce {
            epoch: 2,
            gone: 0,
            removed: 1,
        },
    ),
    (Ask::Rotate, Said::Rotated),
    (
        Ask::Reload,
        Said::InForce {
            epoch: 3,
            gone: 0,
            removed: 0,
        },
    ),
    (Ask::Pub("b"), Said::Published),
    (Ask::Pub("a"), Said::Published),
    (Ask::Take("a"), Said::Took),
    (Ask::Subs("b", 1), Said::Subscribed),
    (Ask::Pub("b"), Said::Published),
    (Ask::Take("b"), Said::Took),
];

#[test]
fn the_policy_with_fewer_subscriptions_comes_first(rt: HostRuntime) -> Result<(), Fail> {
    let keys = RandomState::new(&rt)?;
    let totals = run(&rt, rt.alloc(), keys, &[FEWER_FIRST], Plan::Gap(4))?;
    assert!(rt; totals.are(11, &[11]));
    Ok(())
}

// The same two in the other order.
const FEWER_LAST: &[Row] = &[
    (Ask::Connect, Said::Connected),
    (Ask::Subs("a", 1), Said::Subscribed),
    (Ask::Subs("b", 1), Said::Subscribed),
    (Ask::Prepare(Given::Only("a")), Said::Prepared),
    (Ask::Prepare(Given::All), Said::Prepared),
    (Ask::Rotate, Said::Rotated),
    (
        Ask::Reload,
        Said::InForce {
            epoch: 2,
            gone: 0,
            removed: 0,
        },
    ),
    (Ask::Rotate, Said::Rotated),
    (
        Ask::Reload,
        Said::InForce {
            epoch: 3,
            gone: 0,
            removed: 1,
        },
    ),
    (Ask::Subs("b", 1), Said::Denied),
    (Ask::Pub("b"), Said::Published),
    (Ask::Pub("a"), Said::Published),
    (Ask::Take("a"), Said::Took),
];

#[test]
fn the_policy_with_fewer_subscriptions_comes_last(rt: HostRuntime) -> Result<(), Fail> {
    let keys = RandomState::new(&rt)?;
    let totals = run(&rt, rt.alloc(), keys, &[FEWER_LAST], Plan::Gap(4))?;
    assert!(rt; totals.are(9, &[9]));
    Ok(())
}

const ONE_SEGMENT: &[Row] = &[
    (Ask::Connect, Said::Connected),
    (Ask::Subs("a", 1), Said::Subscribed),
    (Ask::Rotate, Said::Rotated),
    (Ask::Subs("b", 1), Said::Subscribed),
];

// The hub's own entry has number 3.
#[test]
fn a_segment_of_another_policy_does_not_join(rt: HostRuntime) -> Result<(), Fail> {
    let keys = RandomState::new(&rt)?;
    let totals = run(
        &rt,
        rt.alloc(),
        keys,
        &[ONE_SEGMENT],
        Plan::Foreign(keys, 3),
    )?;
    assert!(rt; totals.are(3, &[3]));
    Ok(())
}

const SUBMIT: &[Row] = &[
    (Ask::Connect, Said::Connected),
    (Ask::Outlive("x"), Said::Outlived),
];

const REMOVE: &[Row] = &[
    (Ask::Prepare(Given::Nobody), Said::Prepared),
    (Ask::Meet(0), Said::Met),
    (
        Ask::Reload,
        Said::InForce {
            epoch: 2,
            gone: 1,
            removed: 0,
        },
    ),
];

// The reload is the last entry: whatever the connection of the user that it removes submits later makes none.
#[test]
fn a_connection_whose_user_goes_enters_nothing_more(rt: HostRuntime) -> Result<(), Fail> {
    let keys = RandomState::new(&rt)?;
    let totals = run(&rt, rt.alloc(), keys, &[SUBMIT, REMOVE], Plan::None)?;
    assert!(rt; totals.end_with_last_receipt());
    Ok(())
}

// The first policy has no service, so the thread puts one in force that has it, as all have that are installed meanwhile.
const REQUEST: &[Row] = &[
    (Ask::Races(Given::Wide, Given::Wide, 1), Said::Raced),
    (Ask::Connect, Said::Connected),
    (Ask::Subs("in", 1), Said::Subscribed),
    (Ask::Serve, Said::Subscribed),
    (Ask::Requests(1_201), Said::Answered),
];

const CHAT: &[Row] = &[
    (Ask::Connect, Said::Connected),
    (Ask::Subs("x.*", 1), Said::Subscribed),
    (Ask::Subs("t.>", 1), Said::Subscribed),
    (Ask::Chat(958), Said::Chatted),
];

const RACE: &[Row] = &[(Ask::Races(Given::Wide, Given::Narrow, 198), Said::Raced)];

// The response routes of all requests stand to the end, through reloads that move their import row, so the worlds that the audit
// compares have them. The two policies differ in a deny list and in what may be published: a mark, a verdict or a receiver that
// outlived a reload would show in a receipt.
#[test]
fn two_threads_serve_and_chat_while_two_reload_and_rotate(rt: HostRuntime) -> Result<(), Fail> {
    let keys = RandomState::new(&rt)?;
    let jobs = [REQUEST, CHAT, RACE, RACE];
    let totals = run(&rt, rt.alloc(), keys, &jobs, Plan::None)?;
    assert!(rt; totals.are(10_000, &[4_811, 4_793, 198, 198]));
    Ok(())
}

#[test]
fn a_receipt_has_a_verdict_of_its_policy(rt: HostRuntime) -> Result<(), Fail> {
    let cases = [
        (Given::All, Outcome::Subscribed, true),
        (Given::All, Outcome::Denied(Verdict::NoAllow), false),
        (Given::Only("a"), Outcome::Subscribed, false),
        (Given::Only("a"), Outcome::Denied(Verdict::NoAllow), true),
        (
            Given::Only("a"),
            Outcome::Denied(Verdict::DeniedBy(0)),
            false,
        ),
        (Given::Nobody, Outcome::Subscribed, false),
        (Given::Nobody, Outcome::Denied(Verdict::NoAllow), false),
    ];
    for (given, outcome, is_made) in cases {
        let made = makes_receipt(rt.alloc(), given, outcome).ok_or("memory lacked")?;
        assert_eq!(rt; made, is_made);
    }
    Ok(())
}

/// Whether there is a receipt of a Sub to `b` with this outcome, under a policy.
fn makes_receipt(alloc: Global, given: Given, outcome: Outcome) -> Option<bool> {
    let ready = ready_of(alloc, given)?;
    let entry = Entry {
        number: 1,
        epoch: 1,
        outcome,
        event: Event {
            now: 0,
            what: sub(alloc, 1, "b", 1)?,
        },
    };
    Some(receipt_of(alloc, entry, ready).is_some())
}
