use mio::net::{TcpListener, TcpStream};
use mio::{Interest, Registry, Token};
use server_log::What;
use server_state::mail::{Arrival, ServerState, owner_of};
use std::io;
use std::io::ErrorKind;
use std::sync::Wait;
use std::time::Clock;

/// The token of the socket that listens. Connections have those of their keys.
pub const LISTENER: Token = Token(usize::MAX - 1);

/// After how long accepting is tried again where the system has refused it, in milliseconds.
const RETRY: u64 = 100;

/// After how long it is tried again where somebody was asked to give way, in milliseconds.
const WAY: u64 = 10;

/// The system's numbers of the errors by which it says that it has no descriptor left, for this process or for all.
const EMFILE: i32 = 24;

const ENFILE: i32 = 23;

/// What is told where as many sockets are open as may be.
const OPEN: &[u8] = b"connections";

/// What came of an attempt to accept a connection.
#[derive(Drop)]
pub enum Accepted {
    /// One of one's own.
    Own(Arrival),
    /// One that was left for another worker.
    Left,
    /// None, for now.
    Nobody,
}

/// What the system said to an attempt to accept a connection.
#[derive(Drop)]
enum Said {
    Socket(TcpStream),
    /// Nobody waits to be accepted.
    Nobody,
    /// There is no room for one more: the system has no descriptor left, or as many sockets are open as may be.
    Full(Lack),
    /// It has refused it for another reason.
    Refused,
}

/// What there is no room for.
#[derive(Clone, Copy)]
enum Lack {
    Descriptors,
    Connections,
}

/// What a worker accepts connections with, if it does: it deals them out to all workers, round-robin.
pub struct Acceptor {
    /// Which worker it is.
    index: usize,
    listener: Option<TcpListener>,
    next_conn: u64,
    /// From when on connections are to be accepted.
    accept_at: Option<u64>,
    /// Whether there was no room for one more, and the system is to tell whether somebody waits for it.
    is_full: bool,
    /// Whether that was told since all were accepted.
    has_told: bool,
}

impl Drop for Acceptor {
    fn drop(self) {
        let Self {
            index: _,
            listener: _,
            next_conn: _,
            accept_at: _,
            is_full: _,
            has_told: _,
        } = self;
    }
}

/// Returns whether an error says that no descriptor is left.
fn is_full(error: &io::Error) -> bool {
    matches!(error.raw_os_error(), Some(EMFILE | ENFILE))
}

impl Acceptor {
    ghost use Rattle.std.specs.Prelude.{◌≡◌, ◌≤◌, ℕ, None, Some, false, true, unwrap_or};

    /// Returns what the worker of this number accepts with. It accepts if it has a listener.
    pub fn new(index: usize, listener: Option<TcpListener>) -> Acceptor
        ensures { result.accept_at ≡ Some 0 }
    {
        Acceptor {
            index,
            listener,
            next_conn: 1,
            accept_at: Some(0),
            is_full: false,
            has_told: false,
        }
    }

    /// Registers the socket that listens, if there is one. The error is the system's.
    pub fn listen(&mut self, registry: &Registry) -> io::Result<()> {
        match &mut self.listener {
            None => Ok(()),
            Some(listener) => registry.register(listener, LISTENER, Interest::READABLE),
        }
    }

    /// Notes that somebody waits to be accepted.
    pub fn note_waiting(&mut self, now: u64)
        ensures { self.new.accept_at ≡ Some (unwrap_or self.old.accept_at now) }
    {
        self.accept_at = self.accept_at.or(Some(now));
    }

    /// Returns from when on connections are to be accepted, if they are.
    pub fn due_at(&self) -> Option<u64>
        ensures { result ≡ self.now.accept_at }
    {
        self.accept_at
    }

    /// Begins to accept, if that is due at a moment, and returns whether it is.
    pub fn begin(&mut self, now: u64) -> bool
        ensures due { result ≡ true → (at : ℕ) × (self.old.accept_at ≡ Some at) × (at ≤ now) × (self.new.accept_at ≡ None) }
        ensures same { result ≡ false → self.new.accept_at ≡ self.old.accept_at }
    {
        match self.accept_at {
            Some(at) if at <= now => {
                self.accept_at = None;
                true
            }
            _ => false,
        }
    }

    /// Lets accepting go on at a moment.
    pub fn go_on(&mut self, at: u64)
        ensures { self.new.accept_at ≡ Some at }
    {
        self.accept_at = Some(at);
    }

    /// Accepts a connection, if there is room. One of another worker is left in its mailbox. Where none can be had, this also
    /// settles when it is tried again.
    pub fn accept<R: Wait + Clock>(
        &mut self,
        rt: &R,
        state: &ServerState<'_>,
        registry: &Registry,
        now: u64,
    ) -> Accepted {
        match self.accept_one(rt, state) {
            Said::Socket(socket) => self.hand_over(rt, state, socket),
            Said::Nobody => {
                self.has_told = false;
                Accepted::Nobody
            }
            Said::Full(lack) => {
                self.make_way(state, registry, now);
                self.tell_full(rt, state, lack);
                Accepted::Nobody
            }
            Said::Refused => {
                self.accept_at = Some(now.saturating_add(RETRY));
                Accepted::Nobody
            }
        }
    }

    /// Accepts a connection. Nobody else opens a descriptor meanwhile.
    fn accept_one<R: Wait>(&mut self, rt: &R, state: &ServerState<'_>) -> Said {
        let Some(listener) = &self.listener else {
            return Said::Nobody;
        };
        if state.is_full() {
            return Said::Full(Lack::Connections);
        }
        let guard = state.descriptors().lock(rt);
        let accepted = listener.accept();
        drop(guard);
        match accepted {
            Ok((socket, _)) => {
                self.is_full = false;
                Said::Socket(socket)
            }
            Err(error) if is_full(&error) => Said::Full(Lack::Descriptors),
            Err(error) if error.kind() == ErrorKind::WouldBlock => Said::Nobody,
            Err(_) => Said::Refused,
        }
    }

    /// Settles what comes next where there is no room for one more. If somebody waits for it, another is asked to give way;
    /// else the system is to tell once somebody does.
    fn make_way(&mut self, state: &ServerState<'_>, registry: &Registry, now: u64) {
        if !self.is_full {
            self.is_full = true;
            self.listen_again(registry, now);
            return;
        }
        self.is_full = false;
        let wait = if state.ask_way() { WAY } else { RETRY };
        self.accept_at = Some(now.saturating_add(wait));
    }

    /// Tells that there is no room for one more who waits, once until all were accepted.
    fn tell_full<R: Wait + Clock>(&mut self, rt: &R, state: &ServerState<'_>, lack: Lack) {
        if self.is_full || self.has_told {
            return;
        }
        self.has_told = true;
        state.log.tell(
            rt,
            match lack {
                Lack::Descriptors => What::NoDescriptors,
                Lack::Connections => What::Limit(OPEN),
            },
        );
    }

    /// Asks the system to tell whether somebody waits to be accepted. Where it can't, that is tried later.
    fn listen_again(&mut self, registry: &Registry, now: u64) {
        let Some(listener) = &mut self.listener else {
            return;
        };
        if registry
            .reregister(listener, LISTENER, Interest::READABLE)
            .is_err()
        {
            self.accept_at = Some(now.saturating_add(RETRY));
        }
    }

    /// Numbers a socket that was accepted, and leaves it for its owner if that is another worker.
    fn hand_over<R: Wait>(
        &mut self,
        rt: &R,
        state: &ServerState<'_>,
        socket: TcpStream,
    ) -> Accepted {
        let conn = self.next_conn;
        self.next_conn = conn.saturating_add(1);
        state.note_open();
        drop(socket.set_nodelay(true));
        let owner = owner_of(conn, state.mailboxes.len());
        if owner == self.index {
            return Accepted::Own(Arrival { conn, socket });
        }
        if let Some(mailbox) = state.mailboxes.get(owner) {
            if !mailbox.leave_socket(rt, Arrival { conn, socket }) {
                state.note_closed();
            }
        }
        Accepted::Left
    }
}
