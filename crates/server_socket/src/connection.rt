ghost use Rattle.std.specs.Prelude.{◌≡◌, ◌≢◌};

use crate::blocked::Blocked;
use crate::pacing::Due;
use crate::turns::Client;
use mio::net::TcpStream;
use mio::{Interest, Registry, Token};
use server_log::Party;

/// The marks of a connection: which of its worker's queues it is in.
#[derive(Clone, Copy, Debug)]
pub struct Queued {
    /// Among those with something to read,
    pub ready: bool,
    /// those that were cut short,
    pub cut: bool,
    /// those to be written to,
    pub flush: bool,
    /// those among them to be written to soon,
    pub pressing: bool,
    /// and those whose frames wait for a receiver.
    pub held: bool,
}

/// A connection of a worker: its client with its socket, and what is to be done about it.
pub struct Connection {
    pub client: Client,
    pub socket: TcpStream,
    /// What the server's log knows of it.
    pub party: Party,
    /// What is known to be due to it.
    pub due: Due,
    /// For how long its socket takes nothing.
    pub blocked: Blocked,
    /// Whether its socket may have more to read.
    pub readable: bool,
    /// Until when its frames wait, since a receiver has no room; and whether they may go on, and couldn't yet.
    pub held_until: Option<u64>,
    pub is_let_on: bool,
    pub queued: Queued,
    /// Whether it has had what waited for it before what it is told next.
    pub has_passed: bool,
    /// Whether the connection is over, and its session is still to be closed.
    pub is_over: bool,
    /// Whether its socket is to linger then, and does.
    pub is_to_linger: bool,
    pub lingers: bool,
}

impl Drop for Connection {
    fn drop(self) {
        let Self {
            client: _,
            socket: _,
            party: _,
            due: _,
            blocked: _,
            readable: _,
            held_until: _,
            is_let_on: _,
            queued: _,
            has_passed: _,
            is_over: _,
            is_to_linger: _,
            lingers: _,
        } = self;
    }
}

impl Queued {
    ghost use Rattle.server_socket.specs.Connections.{not_queued};

    /// Returns the marks of a connection in no queue.
    fn none() -> Queued
        ensures { result ≡ not_queued }
    {
        Queued {
            ready: false,
            cut: false,
            flush: false,
            pressing: false,
            held: false,
        }
    }
}

impl Connection {
    ghost use Rattle.std.specs.Prelude.{[], None, is_some, false, true};
    ghost use Rattle.server_socket.specs.Blocked.{not_blocked, written};
    ghost use Rattle.server_socket.specs.Connections.{is_due, is_set_aside, is_stuck, let_on, may_not_last, may_read, not_queued};
    ghost use Rattle.server_socket.specs.pacing.Due.{nothing};

    /// Returns a connection to which nothing has happened. Its socket may have something to read.
    pub fn new(client: Client, socket: TcpStream, party: Party) -> Connection
        ensures { result ≡ record { client = client; socket = socket; party = party; due = nothing; blocked = not_blocked; readable = true; held_until = None; is_let_on = false; queued = not_queued; has_passed = false; is_over = false; is_to_linger = false; lingers = false } }
    {
        Connection {
            client,
            socket,
            party,
            due: Due::nothing(),
            blocked: Blocked::new(),
            readable: true,
            held_until: None,
            is_let_on: false,
            queued: Queued::none(),
            has_passed: false,
            is_over: false,
            is_to_linger: false,
            lingers: false,
        }
    }

    /// Returns its number.
    pub fn number(&self) -> u64
        ensures { result ≡ self.now.client.conn.conn }
    {
        self.client.conn().number()
    }

    /// Registers its socket under this token, and returns whether the system could.
    pub fn watch(&mut self, registry: &Registry, token: Token) -> bool {
        let both = Interest::READABLE | Interest::WRITABLE;
        registry.register(&mut self.socket, token, both).is_ok()
    }

    /// Notes after a write whether its socket has taken all.
    pub(crate) fn note_written(&mut self, now: u64)
        ensures waits { self.old.client.kept ≢ [] → self.new ≡ record self.old { blocked = written true now self.old.blocked } }
        ensures all { self.old.client.kept ≡ [] → self.new ≡ record self.old { blocked = written false now self.old.blocked } }
    {
        self.blocked = self.blocked.written(self.client.waits(), now);
    }

    /// Returns whether it may be read, or its frames go on; or whether what its client sends is to be dropped.
    pub fn may_read(&self) -> bool
        ensures { result ≡ may_read self.now }
    {
        self.readable && (self.lingers || !self.is_set_aside() && !self.is_over)
    }

    /// Returns whether it isn't read meanwhile: it is held, was cut short, or is to have deliveries first.
    fn is_set_aside(&self) -> bool
        ensures { result ≡ is_set_aside self.now }
    {
        self.held_until.is_some() || self.queued.cut || self.due.is_barred()
    }

    /// Returns whether it is ended where its socket takes nothing: it is to be closed, or its frames could go on, and others may
    /// wait for it meanwhile.
    pub(crate) fn may_not_last(&self) -> bool
        ensures { result ≡ may_not_last self.now }
    {
        self.due.must_drain() || self.is_let_on || self.client.conn().stage().is_closed()
    }

    /// Returns whether its client holds itself up: it reads nothing, and what it sends isn't read before it does. Two that publish
    /// to each other hold each other up so.
    pub fn is_stuck(&self, now: u64) -> bool
        ensures { result ≡ is_stuck now self.now }
    {
        self.readable && !self.is_over && self.blocked.is_past(now)
    }

    /// Returns whether a Take is due.
    pub fn is_due(&self) -> bool
        ensures { result ≡ is_due self.now }
    {
        self.due.is_due(self.client.conn().stage().is_connected())
    }

    /// Lets its frames go on, if they wait for a receiver. Returns whether they did.
    pub fn let_on(&mut self) -> bool
        ensures waited { result ≡ is_some self.old.held_until }
        ensures goes_on { self.new ≡ let_on self.old }
    {
        match self.held_until.take() {
            None => false,
            Some(_) => {
                self.is_let_on = true;
                true
            }
        }
    }
}
