use crate::history::Kept;
use crate::mail::mailbox::Mailbox;
use crate::mail::ways::Way;
use mio::{Poll, Token};
use server_log::ServerLog;
use server_stats::{Shared, Stats};
use std::alloc::Global;
use std::hash::RandomState;
use std::io;
use std::net::Net;
use std::sync::Mutex;
use std::sync::atomic::{AtomicU64, Ordering};
use std::time::Clock;

/// What a server keeps to.
#[derive(Clone, Copy)]
pub struct Limits {
    /// How many deliveries may wait for a session, as its hub has it.
    pub outbox: usize,
    /// How many entries its hub holds at most.
    pub history: usize,
    /// How many bytes the entries of the history may keep.
    pub history_bytes: u64,
    /// How many connections may be open.
    pub connections: u64,
    /// Whether clients are told of their subscriptions that a reload removes.
    pub tells_removed: bool,
    /// The keys of hash maps, which clients can't know.
    pub keys: RandomState,
}

/// What any thread of a server may change.
#[derive(Drop)]
pub struct Flags {
    /// Not 0 once the server is to stop.
    stops: AtomicU64,
    /// How many workers read no more.
    finished: AtomicU64,
    /// How many sockets of clients are open.
    open: AtomicU64,
    /// Held by whoever opens a descriptor, or lets one go to have it again.
    descriptors: Mutex<()>,
    /// How many bytes the history's entries keep.
    kept: Kept,
}

/// The state that all threads of a server share.
#[derive(Drop)]
pub struct ServerState<'a> {
    pub mailboxes: &'a [Mailbox],
    pub limits: Limits,
    /// What the server tells its operator by.
    pub log: &'a ServerLog<'a>,
    /// The moment of the start, in milliseconds.
    start: u64,
    flags: &'a Flags,
    /// What the workers count for its operator, if they do.
    stats: Option<&'a Stats<'a>>,
}

/// Returns the milliseconds of the system's clock, or 0 where it has none.
pub fn millis<R: Clock>(rt: &R) -> u64 {
    match rt.monotonic() {
        Ok(time) => u64::try_from(time.as_millis()).unwrap_or(u64::MAX),
        Err(_) => 0,
    }
}

impl Flags {
    /// Returns the flags of a server that has just begun, with these limits.
    pub fn new(limits: Limits) -> Flags {
        Flags {
            stops: AtomicU64::new(0),
            finished: AtomicU64::new(0),
            open: AtomicU64::new(0),
            descriptors: Mutex::new(()),
            kept: Kept::new(limits.history_bytes),
        }
    }
}

impl<'a> ServerState<'a> {
    ghost use Rattle.std.specs.Prelude.{◌≡◌, None};

    /// Returns the state of a server that begins at the moment `start`.
    pub fn new(
        mailboxes: &'a [Mailbox],
        limits: Limits,
        start: u64,
        flags: &'a Flags,
        log: &'a ServerLog<'a>,
    ) -> ServerState<'a>
        ensures mailboxes { result.mailboxes ≡ mailboxes.entry }
        ensures limits { result.limits ≡ limits }
        ensures start { result.start ≡ start }
        ensures flags { result.flags ≡ flags.entry }
        ensures log { result.log ≡ log.entry }
        ensures stats { result.stats ≡ None }
    {
        ServerState {
            mailboxes,
            limits,
            log,
            start,
            flags,
            stats: None,
        }
    }

    /// Returns the state of a server whose workers count for its operator, if there are stats.
    pub fn counting(self, stats: Option<&'a Stats<'a>>) -> ServerState<'a>
        ensures { result ≡ record self.entry { stats = stats.entry } }
    {
        ServerState { stats, ..self }
    }

    /// Returns what the workers count for the server's operator, if they do.
    pub fn stats(&self) -> Option<&'a Stats<'a>>
        ensures { result ≡ self.now.stats }
    {
        self.stats
    }

    /// Returns what is told of what the threads share.
    pub fn shared(&self) -> Shared {
        Shared {
            connections: self.open(),
            history_bytes: self.kept().bytes(),
            rotations: self.kept().rotations(),
        }
    }

    /// Returns how many sockets of clients are open.
    fn open(&self) -> u64 {
        self.flags.open.load(Ordering::SeqCst)
    }

    /// Returns how many milliseconds have passed since the start.
    pub fn now<R: Clock>(&self, rt: &R) -> u64 {
        millis(rt).saturating_sub(self.start)
    }

    /// Returns the lock under which descriptors are opened, so that nobody takes one that another has let go for a moment.
    pub fn descriptors(&self) -> &Mutex<()>
        ensures { result.now ≡ self.now.flags.now.descriptors }
    {
        &self.flags.descriptors
    }

    /// Returns what is counted of the bytes that the history's entries keep.
    pub fn kept(&self) -> &'a Kept
        ensures { result.now ≡ self.now.flags.now.kept }
    {
        &self.flags.kept
    }

    /// Notes that a client's socket was accepted.
    pub fn note_open(&self) {
        let _ = self.flags.open.fetch_add(1, Ordering::SeqCst);
    }

    /// Notes that a client's socket was closed.
    pub fn note_closed(&self) {
        let _ = self.flags.open.fetch_sub(1, Ordering::SeqCst);
    }

    /// Returns whether as many sockets of clients are open as may be.
    pub fn is_full(&self) -> bool {
        self.flags.open.load(Ordering::SeqCst) >= self.limits.connections
    }

    /// Asks a connection to give way to a new one: one that lingers, else the one that has waited longest without an accepted
    /// CONNECT. Returns whether there is one.
    pub fn ask_way(&self) -> bool {
        self.ask_first(Way::Lingering) || self.ask_first(Way::Fresh)
    }

    /// Asks the first of such connections to give way. Returns whether there is one.
    fn ask_first(&self, way: Way) -> bool {
        let mut least = u64::MAX;
        let mut first = None;
        for mailbox in self.mailboxes {
            let shown = mailbox.ways.shown(way);
            if shown < least {
                least = shown;
                first = Some(mailbox);
            }
        }
        match first {
            None => false,
            Some(mailbox) => {
                mailbox.ask_way();
                true
            }
        }
    }

    /// Makes all workers stop.
    pub fn stop(&self) {
        self.flags.stops.store(1, Ordering::SeqCst);
        for mailbox in self.mailboxes {
            mailbox.wake();
        }
    }

    /// Returns whether the server is to stop.
    pub fn stops(&self) -> bool {
        self.flags.stops.load(Ordering::SeqCst) != 0
    }

    /// Notes that a worker reads no more.
    pub fn note_finished(&self) {
        let _ = self.flags.finished.fetch_add(1, Ordering::SeqCst);
    }

    /// Returns whether all workers read no more.
    pub fn have_finished(&self) -> bool {
        self.flags.finished.load(Ordering::SeqCst) >= self.mailboxes.len() as u64
    }
}

/// Makes a worker's mailbox, and the poll by which it waits for its sockets and for mail; mail has this token. The error is
/// the system's, which refuses either.
pub fn open_mailbox<R: Net>(rt: &R, alloc: Global, token: Token) -> io::Result<(Mailbox, Poll)> {
    let poll = Poll::new(rt)?;
    let mailbox = Mailbox::new(alloc, poll.registry(), token)?;
    Ok((mailbox, poll))
}
