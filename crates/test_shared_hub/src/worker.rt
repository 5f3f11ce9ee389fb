//! What the threads of the tests do.
use crate::services::{chat, make_requests, serve};
use events::{Command, Entry, Event, HubRefusal, Outcome, Port, Waiting};
use policy_ready::CompiledPolicy;
use shared_hub::{Receipt, Run, Seat, Segment, SharedHub, SharedPort};
use std::alloc::Global;
use std::sync::Wait;
use std::time::{Clock, Duration};
use test_samples::{Given, connect, publish, ready_of, sub};

/// What a thread does with its seat, on a connection of its own.
#[derive(Clone, Copy)]
pub(crate) enum Ask {
    /// A Connect of user demo.
    Connect,
    /// As many subscriptions to a subject, each under an id of its own.
    Subs(&'static str, u64),
    /// A message whose payload is its subject.
    Pub(&'static str),
    /// A Take, which is to give one message, with this payload.
    Take(&'static str),
    /// Preparing a policy, which is laid on those that were prepared before.
    Prepare(Given),
    /// A reload of the policy that lies on top.
    Reload,
    /// A rotation.
    Rotate,
    /// A Connect of user serve and its subscription to the service `ask`, on another connection.
    Serve,
    /// As many requests to that service, each of which is answered, and one more answer to the first.
    Requests(u64),
    /// As many times two messages on each of two subjects, which may be denied, and a Take, which may give any of them.
    Chat(u64),
    /// As many times, by turns, one of these policies and a reload of it, which ends nothing; behind each tenth a rotation.
    Races(Given, Given, u64),
    /// Takes for a connection until it has a session.
    Meet(u64),
    /// Subscriptions to a subject under one id until the session is gone, and then some more, each of which is refused.
    Outlive(&'static str),
}

/// How often a thread waits for another. It rests so long each time that this is ten seconds or more.
const LOOKS: u64 = 100_000;

/// How many subscriptions a thread asks for before it rests behind each.
const QUICK: u64 = 1_000;

/// How many it asks for at most, so that all fit the history.
const MOST: u64 = 9_000;

/// What the thread is told.
#[derive(Clone, Copy, PartialEq, Eq)]
pub(crate) enum Said {
    Connected,
    Subscribed,
    Published,
    Took,
    /// A Take that gave none, several, or another message.
    TookOthers,
    Prepared,
    /// The policy of this epoch is in force. It closed and ended as many sessions and subscriptions.
    InForce {
        epoch: u64,
        gone: usize,
        removed: usize,
    },
    Rotated,
    Answered,
    Chatted,
    Raced,
    Met,
    Outlived,
    Denied,
    SameSid,
    NoSession,
    /// Anything else, or that there was no memory.
    Otherwise,
}

/// An ask, and what the thread should be told.
pub(crate) type Row = (Ask, Said);

/// Where workers work. What starts their threads knows no more of it, so that its closure captures one thing.
pub(crate) trait Site<W> {
    fn work(&self, worker: &mut W);
}

/// The hub that all workers share.
#[derive(Drop)]
pub(crate) struct Place<'a, L: Run, R> {
    pub(crate) rt: &'a R,
    pub(crate) alloc: Global,
    pub(crate) lock: &'a SharedHub<L>,
}

impl<L: Run, R: Wait + Clock> Site<Worker<L>> for Place<'_, L, R> {
    fn work(&self, worker: &mut Worker<L>) {
        worker.work(self.rt, self.alloc, self.lock);
    }
}

/// A thread: its rows, its connection and its seat; and in the end what it has.
#[derive(Drop)]
pub(crate) struct Worker<L: Run> {
    pub(crate) rows: &'static [Row],
    pub(crate) conn: u64,
    pub(crate) seat: Option<Seat<L>>,
    pub(crate) receipts: Vec<Receipt>,
    pub(crate) stock: Stock,
    /// Whether it was told what its rows say.
    pub(crate) is_right: bool,
}

/// The policies that a thread has prepared, and the segments that it has rotated out.
#[derive(Drop)]
pub(crate) struct Stock {
    pub(crate) policies: Vec<CompiledPolicy>,
    pub(crate) segments: Vec<Segment>,
}

impl<L: Run> Worker<L> {
    /// Does what its rows ask, through a port.
    fn work<R: Wait + Clock>(&mut self, rt: &R, alloc: Global, lock: &SharedHub<L>) {
        let Some(seat) = self.seat.take() else {
            return;
        };
        let mut desk = Seated {
            rt,
            port: SharedPort::new(rt, alloc, lock, seat),
        };
        self.is_right = is_right(&mut desk, alloc, self.conn, self.rows, &mut self.stock);
        let (seat, receipts) = desk.port.into_parts();
        self.seat = Some(seat);
        self.receipts = receipts;
    }
}

/// A thread's port, and the clock by which it rests.
#[derive(Drop)]
struct Seated<'a, L: Run, R: Wait> {
    rt: &'a R,
    port: SharedPort<'a, L, R>,
}

/// What a thread needs of its port. Its users have no clause of the port's to look through.
pub(crate) trait Desk {
    /// Submits a command. A Take is to give this payload.
    fn submit(&mut self, what: Command, payload: &str) -> Said;

    fn rotate(&mut self) -> Option<Segment>;

    /// Rests for a tenth of a millisecond.
    fn rest(&self);
}

impl<L: Run, R: Wait + Clock> Desk for Seated<'_, L, R> {
    fn submit(&mut self, what: Command, payload: &str) -> Said {
        match Port::submit(&mut self.port, Event { now: 0, what }) {
            Ok(answer) => said_of(answer.get(), payload),
            Err((_, HubRefusal::NoSession)) => Said::NoSession,
            Err(_) => Said::Otherwise,
        }
    }

    fn rotate(&mut self) -> Option<Segment> {
        self.port.rotate().ok()
    }

    fn rest(&self) {
        self.rt.sleep(Duration::from_micros(100));
    }
}

/// Runs the rows; true if each was told as it says. It stops at the first that wasn't.
fn is_right<D: Desk>(
    desk: &mut D,
    alloc: Global,
    conn: u64,
    rows: &[Row],
    stock: &mut Stock,
) -> bool {
    for (ask, said) in rows {
        if told(desk, alloc, conn, *ask, stock) != *said {
            return false;
        }
    }
    true
}

fn told<D: Desk>(desk: &mut D, alloc: Global, conn: u64, ask: Ask, stock: &mut Stock) -> Said {
    match ask {
        Ask::Connect => submit(desk, connect(alloc, conn), ""),
        Ask::Subs(subject, count) => subscribe(desk, alloc, conn, subject, count),
        Ask::Pub(subject) => submit(desk, publish(alloc, conn, subject), ""),
        Ask::Take(payload) => desk.submit(Command::Take { conn, most: 5 }, payload),
        Ask::Prepare(given) => prepare(alloc, given, &mut stock.policies),
        Ask::Reload => submit(desk, reload(&mut stock.policies), ""),
        Ask::Rotate => keep(desk.rotate(), &mut stock.segments),
        Ask::Serve => serve(desk, alloc, conn),
        Ask::Requests(times) => make_requests(desk, alloc, conn, times),
        Ask::Chat(times) => chat(desk, alloc, conn, times),
        Ask::Races(one, other, times) => race(desk, alloc, [one, other], times, stock),
        Ask::Meet(other) => meet(desk, other),
        Ask::Outlive(subject) => outlive(desk, alloc, conn, subject),
    }
}

fn race<D: Desk>(
    desk: &mut D,
    alloc: Global,
    policies: [Given; 2],
    times: u64,
    stock: &mut Stock,
) -> Said {
    for time in 0..times {
        let given = policies[if time % 2 == 0 { 0 } else { 1 }];
        if !ends_nothing(desk, alloc, given, stock) {
            return Said::Otherwise;
        }
        if time % 10 == 0 && keep(desk.rotate(), &mut stock.segments) != Said::Rotated {
            return Said::Otherwise;
        }
    }
    Said::Raced
}

/// Whether a policy comes into force, and closes and ends nothing.
fn ends_nothing<D: Desk>(desk: &mut D, alloc: Global, given: Given, stock: &mut Stock) -> bool {
    if prepare(alloc, given, &mut stock.policies) != Said::Prepared {
        return false;
    }
    match submit(desk, reload(&mut stock.policies), "") {
        Said::InForce { gone, removed, .. } => gone == 0 && removed == 0,
        _ => false,
    }
}

fn meet<D: Desk>(desk: &mut D, other: u64) -> Said {
    for _ in 0..LOOKS {
        match desk.submit(
            Command::Take {
                conn: other,
                most: 5,
            },
            "",
        ) {
            Said::NoSession => desk.rest(),
            Said::TookOthers => return Said::Met,
            _ => return Said::Otherwise,
        }
    }
    Said::Otherwise
}

fn outlive<D: Desk>(desk: &mut D, alloc: Global, conn: u64, subject: &str) -> Said {
    for asked in 0..MOST {
        match submit(desk, sub(alloc, conn, subject, 0), "") {
            Said::Subscribed | Said::SameSid => {}
            Said::NoSession => return stay_gone(desk, alloc, conn, subject),
            _ => return Said::Otherwise,
        }
        if asked >= QUICK {
            desk.rest();
        }
    }
    Said::Otherwise
}

/// Whether some more subscriptions are each refused, since there is no session.
fn stay_gone<D: Desk>(desk: &mut D, alloc: Global, conn: u64, subject: &str) -> Said {
    for _ in 0..QUICK {
        if submit(desk, sub(alloc, conn, subject, 0), "") != Said::NoSession {
            return Said::Otherwise;
        }
    }
    Said::Outlived
}

pub(crate) fn submit<D: Desk>(desk: &mut D, what: Option<Command>, payload: &str) -> Said {
    match what {
        None => Said::Otherwise,
        Some(what) => desk.submit(what, payload),
    }
}

fn subscribe<D: Desk>(desk: &mut D, alloc: Global, conn: u64, subject: &str, count: u64) -> Said {
    for sid in 0..count {
        let said = submit(desk, sub(alloc, conn, subject, sid), "");
        if said != Said::Subscribed {
            return said;
        }
    }
    Said::Subscribed
}

fn prepare(alloc: Global, given: Given, policies: &mut Vec<CompiledPolicy>) -> Said {
    match ready_of(alloc, given) {
        None => Said::Otherwise,
        Some(ready) => {
            if policies.push(ready).is_ok() {
                Said::Prepared
            } else {
                Said::Otherwise
            }
        }
    }
}

fn keep(segment: Option<Segment>, segments: &mut Vec<Segment>) -> Said {
    match segment {
        None => Said::Otherwise,
        Some(segment) => {
            if segments.push(segment).is_ok() {
                Said::Rotated
            } else {
                Said::Otherwise
            }
        }
    }
}

fn said_of(entry: &Entry, payload: &str) -> Said {
    match &entry.outcome {
        Outcome::Connected => Said::Connected,
        Outcome::Subscribed => Said::Subscribed,
        Outcome::Published(_, _) => Said::Published,
        Outcome::Taken(deliveries, missed) => {
            if !*missed && is_one(deliveries.as_slice(), payload) {
                Said::Took
            } else {
                Said::TookOthers
            }
        }
        Outcome::Reloaded { gone, removed } => Said::InForce {
            epoch: u64::try_from(entry.epoch).unwrap_or(0),
            gone: gone.len(),
            removed: removed.len(),
        },
        Outcome::Denied(_) => Said::Denied,
        Outcome::SameSid => Said::SameSid,
        _ => Said::Otherwise,
    }
}

/// Whether it is one delivery, with this payload.
fn is_one(deliveries: &[Waiting], payload: &str) -> bool {
    match deliveries {
        [Waiting::One(one)] => one.message.payload() == payload.as_bytes(),
        _ => false,
    }
}

fn reload(policies: &mut Vec<CompiledPolicy>) -> Option<Command> {
    Some(Command::Reload(policies.pop()?))
}
