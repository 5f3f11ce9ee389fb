//! What a command comes to is decided first, and then done.
use base::Boxed;
use events::{Outcome, Sid};
use permissions::deny_marks::DenyMarks;
use policy_ready::{CompiledPolicy, User};
use std::collections::VecDeque;
use world_routing::{Deliveries, Routing};
use world_sessions::Session;
use world_subscriptions::NewSubscription;

/// What is to be done for a command. All memory that it takes is had, but for the growth of a new session,
/// subscription or response route, which comes first. What is large has a block of its own, since a change is handed on several times for
/// each message.
#[derive(Drop)]
pub(crate) enum Change {
    /// Nothing changes.
    Nothing,
    /// A session is opened.
    Open(Boxed<Session>),
    /// A subscription stands.
    Stand(Boxed<NewSubscription>),
    /// A subscription takes a limit.
    Limit {
        conn: u64,
        sid: Sid,
        most: Option<u64>,
    },
    /// Deliveries are handed over.
    Deliver(Deliveries),
    /// Deliveries are handed over of a message by which response routes may change.
    Route(Boxed<Routing>),
    /// Deliveries leave an outbox.
    Drain {
        conn: u64,
        most: usize,
    },
    /// A session goes with its subscriptions.
    Leave {
        conn: u64,
    },
    /// A policy comes into force, with the users of the sessions that stay, session by session, the ids of the
    /// subscriptions that go, oldest first, and the marks of those that stay.
    Install {
        ready: CompiledPolicy,
        users: VecDeque<User>,
        lost: Vec<u64>,
        marks: DenyMarks,
    },
}

/// What a command comes to: what is told of it, and what is to be done.
#[derive(Drop)]
pub(crate) struct Decided {
    pub outcome: Outcome,
    pub change: Change,
}
