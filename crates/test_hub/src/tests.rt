use base::NoMemory;
use hub::{Answer, Caps, Command, CompiledPolicy, Event, Hub, HubRefusal, Segment};
use policy_doc::Policy;
use std::alloc::Global;
use std::hash::RandomState;
use std::test::Fail;
use test_samples::{connect, publish, sub};

/// What a test asks of a hub, all but the last two for connection 1.
#[derive(Clone, Copy)]
enum Ask {
    Connect,
    Sub,
    Pub,
    Rotate,
    /// A Take and a Close of a connection without a session.
    StrangeTake,
    StrangeClose,
}

/// What it is told.
#[derive(Clone, Copy, Debug, PartialEq, Eq)]
enum Told {
    /// The number of the entry.
    Entry(u64),
    Refused(HubRefusal),
    /// The first number of the segment, and how many entries it has.
    Segment(u64, usize),
}

const FULL: Told = Told::Refused(HubRefusal::HistoryFull);

/// The built-in policy. It has no clause, so that the prover knows nothing of its text.
fn ready(alloc: Global) -> Option<CompiledPolicy> {
    CompiledPolicy::of(alloc, Policy::builtin(alloc).ok()?).ok()
}

/// A hub over the built-in policy, whose history holds two entries.
fn opened(alloc: Global, keys: RandomState) -> Option<Hub> {
    let ready = ready(alloc)?;
    let caps = Caps {
        outbox: 16,
        history: 2,
    };
    Hub::new(alloc, ready, caps, keys).ok()
}

fn event(alloc: Global, ask: Ask) -> Option<Event> {
    let what = match ask {
        Ask::Connect => connect(alloc, 1)?,
        Ask::Sub => sub(alloc, 1, "foo", 1)?,
        Ask::Pub => publish(alloc, 1, "foo")?,
        Ask::StrangeTake => Command::Take { conn: 9, most: 1 },
        Ask::StrangeClose => Command::Close { conn: 9 },
        Ask::Rotate => return None,
    };
    Some(Event { now: 0, what })
}

fn told_of(answer: &Result<Answer, (Event, HubRefusal)>) -> Told {
    match answer {
        Ok(answer) => Told::Entry(answer.get().number),
        Err((_, refusal)) => Told::Refused(*refusal),
    }
}

// A step, a run and a rotation without their clauses: what a test asserts, it computes.
fn step(hub: &mut Hub, event: Event) -> Told {
    told_of(&hub.step(event))
}

fn run(hub: &mut Hub, events: Vec<Event>) -> Option<Vec<Result<Answer, (Event, HubRefusal)>>> {
    hub.run(events).ok()
}

fn rotate(hub: &mut Hub) -> Result<Segment, NoMemory> {
    hub.rotate()
}

fn told_segment(segment: &Segment) -> Told {
    Told::Segment(segment.first_number(), segment.entries().len())
}

/// What a hub tells of one ask.
fn told_by(alloc: Global, hub: &mut Hub, ask: Ask) -> Option<Told> {
    match ask {
        Ask::Rotate => Some(told_segment(&rotate(hub).ok()?)),
        _ => Some(step(hub, event(alloc, ask)?)),
    }
}

/// What a hub tells of each ask, in turn.
fn stepped(alloc: Global, hub: &mut Hub, asks: &[Ask]) -> Option<Vec<Told>> {
    let mut all = Vec::new(alloc);
    for ask in asks {
        all.push(told_by(alloc, hub, *ask)?).ok()?;
    }
    Some(all)
}

fn add_event(alloc: Global, all: &mut Vec<Event>, ask: Ask) -> bool {
    match event(alloc, ask) {
        Some(event) => all.push(event).is_ok(),
        None => false,
    }
}

fn events(alloc: Global, asks: &[Ask]) -> Option<Vec<Event>> {
    let mut all = Vec::new(alloc);
    let mut has_all = true;
    for ask in asks {
        has_all = add_event(alloc, &mut all, *ask) && has_all;
    }
    if has_all { Some(all) } else { None }
}

fn told_of_all(
    alloc: Global,
    answers: &[Result<Answer, (Event, HubRefusal)>],
) -> Option<Vec<Told>> {
    let mut all = Vec::new(alloc);
    for answer in answers {
        all.push(told_of(answer)).ok()?;
    }
    Some(all)
}

/// What a hub tells of all asks in one run.
fn ran(alloc: Global, hub: &mut Hub, asks: &[Ask]) -> Option<Vec<Told>> {
    let events = events(alloc, asks)?;
    let answers = run(hub, events)?;
    told_of_all(alloc, answers.as_slice())
}

/// What a hub has told of all asks, how many subscriptions stand then, and what waits for connection 1.
#[derive(Drop)]
struct Shown {
    told: Vec<Told>,
    standing: usize,
    waiting: Option<(usize, bool)>,
}

/// Shows what a hub tells of asks, in one run or one by one.
fn show(alloc: Global, hub: &mut Hub, asks: &[Ask], in_one_run: bool) -> Option<Shown> {
    let told = if in_one_run {
        ran(alloc, hub, asks)?
    } else {
        stepped(alloc, hub, asks)?
    };
    Some(Shown {
        told,
        standing: hub.standing().ok()?.len(),
        waiting: hub.waiting(1),
    })
}

/// Shows the same of a new hub, which is dropped in one place.
fn show_new(alloc: Global, keys: RandomState, asks: &[Ask], in_one_run: bool) -> Option<Shown> {
    let mut hub = opened(alloc, keys)?;
    let shown = show(alloc, &mut hub, asks, in_one_run);
    drop(hub);
    shown
}

/// The number of the entry of a new hub's first event.
fn first_number(
    alloc: Global,
    ready: CompiledPolicy,
    event: Event,
    keys: RandomState,
) -> Option<u64> {
    let caps = Caps {
        outbox: 16,
        history: 2,
    };
    let mut hub = Hub::new(alloc, ready, caps, keys).ok()?;
    let answer = hub.step(event).ok()?;
    Some(answer.get().number)
}

#[test]
fn numbers_begin_at_one(rt: HostRuntime) -> Result<(), Fail> {
    let keys = RandomState::new(&rt)?;
    let ready = ready(rt.alloc()).ok_or("memory lacked")?;
    let event = event(rt.alloc(), Ask::Connect).ok_or("memory lacked")?;
    assert_eq!(rt; first_number(rt.alloc(), ready, event, keys), Some(1));
    Ok(())
}

#[test]
fn a_run_changes_nothing_once_the_history_is_full(rt: HostRuntime) -> Result<(), Fail> {
    let keys = RandomState::new(&rt)?;
    let asks = [
        Ask::Connect,
        Ask::Sub,
        Ask::Pub,
        Ask::StrangeTake,
        Ask::StrangeClose,
    ];
    let shown = show_new(rt.alloc(), keys, &asks, true).ok_or("memory lacked")?;
    let want = [Told::Entry(1), Told::Entry(2), FULL, FULL, FULL];
    assert_eq!(rt; shown.told.as_slice(), want.as_slice());
    assert_eq!(rt; shown.waiting, Some((0, false)));
    assert_eq!(rt; shown.standing, 1);
    Ok(())
}

// What is refused in between, with room, takes no number.
#[test]
fn a_rotation_makes_room_and_numbers_go_on(rt: HostRuntime) -> Result<(), Fail> {
    let keys = RandomState::new(&rt)?;
    let asks = [
        Ask::Connect,
        Ask::Sub,
        Ask::Pub,
        Ask::Rotate,
        Ask::StrangeTake,
        Ask::Connect,
        Ask::Pub,
        Ask::Rotate,
        Ask::Rotate,
    ];
    let shown = show_new(rt.alloc(), keys, &asks, false).ok_or("memory lacked")?;
    let want = [
        Told::Entry(1),
        Told::Entry(2),
        FULL,
        Told::Segment(1, 2),
        Told::Refused(HubRefusal::NoSession),
        Told::Refused(HubRefusal::SessionTaken),
        Told::Entry(3),
        Told::Segment(3, 1),
        Told::Segment(4, 0),
    ];
    assert_eq!(rt; shown.told.as_slice(), want.as_slice());
    assert_eq!(rt; shown.standing, 1);
    Ok(())
}
