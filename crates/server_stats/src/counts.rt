ghost use Rattle.std.specs.Prelude.{◌≡◌};
ghost use Rattle.server_stats.specs.Counts.{added, no_counts, no_others, no_turn, plus, since_start};

use bytes::Bytes;
use events::Answer;

/// What is counted of an account.
#[derive(Clone, Copy, Debug, PartialEq, Eq)]
pub struct AccountCounts {
    /// How many sessions stand, and how many subscriptions of theirs.
    pub sessions: u64,
    pub subscriptions: u64,
    /// How many messages wait in the outboxes of these sessions.
    pub waiting: u64,
    /// How many messages were accepted from its clients since the start, and how many handed to them. Each stays at 2^64 - 1.
    pub received: u64,
    pub sent: u64,
    /// How many of its clients were closed since the start for being slow.
    pub slow: u64,
}

/// An account with what is counted of it.
#[derive(Drop)]
pub struct Account {
    pub name: Bytes,
    pub counts: AccountCounts,
}

/// What is counted of a worker's connections that is no account's.
#[derive(Clone, Copy, Debug, PartialEq, Eq)]
pub struct WorkerCounts {
    /// How many connections have frames that wait for a receiver.
    pub held: u64,
    /// How many bytes wait for the connections' sockets: texts that a socket hasn't taken, and about those of the messages in
    /// outboxes.
    pub bytes: u64,
}

/// What is counted in a turn of a connection.
#[derive(Drop)]
pub struct TurnCounts {
    /// How many messages of its client were published.
    pub received: u64,
    /// How many deliveries Takes have given.
    pub sent: u64,
    /// How many Takes said that the client had missed a message.
    pub slow: u64,
    /// The answer to the last CONNECT that was accepted.
    pub connected: Option<Answer>,
}

impl AccountCounts {
    /// Returns the counts of an account of which nothing is counted.
    pub fn none() -> AccountCounts
        ensures { result ≡ no_counts }
    {
        AccountCounts {
            sessions: 0,
            subscriptions: 0,
            waiting: 0,
            received: 0,
            sent: 0,
            slow: 0,
        }
    }

    /// Returns what is counted since the start, without what stands.
    pub(crate) fn since_start(self) -> AccountCounts
        ensures { result ≡ since_start self }
    {
        AccountCounts {
            sessions: 0,
            subscriptions: 0,
            waiting: 0,
            received: self.received,
            sent: self.sent,
            slow: self.slow,
        }
    }

    /// Returns both counts together.
    pub fn plus(self, more: AccountCounts) -> AccountCounts
        ensures { result ≡ plus self more }
    {
        AccountCounts {
            sessions: self.sessions.saturating_add(more.sessions),
            subscriptions: self.subscriptions.saturating_add(more.subscriptions),
            waiting: self.waiting.saturating_add(more.waiting),
            received: self.received.saturating_add(more.received),
            sent: self.sent.saturating_add(more.sent),
            slow: self.slow.saturating_add(more.slow),
        }
    }
}

impl WorkerCounts {
    /// Returns the counts of a worker of whose connections nothing is counted.
    pub fn none() -> WorkerCounts
        ensures { result ≡ no_others }
    {
        WorkerCounts { held: 0, bytes: 0 }
    }

    /// Returns both counts together.
    pub fn plus(self, more: WorkerCounts) -> WorkerCounts
        ensures { result ≡ added self more }
    {
        WorkerCounts {
            held: self.held.saturating_add(more.held),
            bytes: self.bytes.saturating_add(more.bytes),
        }
    }
}

impl TurnCounts {
    /// Returns the counts of a turn in which nothing has happened.
    pub fn none() -> TurnCounts
        ensures { result ≡ no_turn }
    {
        TurnCounts {
            received: 0,
            sent: 0,
            slow: 0,
            connected: None,
        }
    }
}
