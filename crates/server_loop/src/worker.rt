use crate::accepting::Acceptor;
use mio::net::TcpListener;
use mio::{Poll, Token};
use server_connections::Connections;
use server_socket::pacing::{PIECE, Slice};
use server_state::mail::{Mail, ServerState};
use server_stats::Tally;
use session_conn::Words;
use std::alloc::Global;
use std::sync::Wait;
use worker_port::WorkerPort;

/// The token of a worker's waker. Connections have those of their keys.
pub const WAKER: Token = Token(usize::MAX);

/// What a worker begins with: its number, where the words of its messages come from, its way to wait for sockets, and the
/// listener if it accepts connections.
#[derive(Drop)]
pub struct Start<W: Drop> {
    pub index: usize,
    pub words: W,
    pub poll: Poll,
    pub listener: Option<TcpListener>,
}

/// One worker: its connections, and its port to the hub.
pub struct Worker<'a, P: WorkerPort + Drop, R: Wait, W: Words + Drop> {
    pub(crate) rt: &'a R,
    pub(crate) alloc: Global,
    pub(crate) index: usize,
    pub(crate) state: &'a ServerState<'a>,
    pub(crate) poll: Poll,
    pub(crate) acceptor: Acceptor,
    pub(crate) port: P,
    pub(crate) words: W,
    pub(crate) connections: Connections,
    /// What may still be drained before the sockets are looked at again.
    pub(crate) slice: Slice,
    /// Mail that was read, whose memory is used again: that of others, and one's own.
    pub(crate) spare: Mail,
    pub(crate) own_spare: Mail,
    pub(crate) buf: Vec<u8>,
    /// The errors that a client was told in its turn.
    pub(crate) errors: Vec<u8>,
    pub(crate) now: u64,
    /// From when on turns that could not be ended are tried again.
    pub(crate) try_at: u64,
    /// Whether others know that it sleeps, and will wake it.
    pub(crate) sleeps: bool,
    /// What it counts for the server's operator.
    pub(crate) tally: Tally,
}

impl<'a, P: WorkerPort + Drop, R: Wait, W: Words + Drop> Drop for Worker<'a, P, R, W> {
    fn drop(self) {
        let Self {
            rt: _,
            alloc: _,
            index: _,
            state: _,
            poll: _,
            acceptor: _,
            port: _,
            words: _,
            connections: _,
            slice: _,
            spare: _,
            own_spare: _,
            buf: _,
            errors: _,
            now: _,
            try_at: _,
            sleeps: _,
            tally: _,
        } = self;
    }
}

/// Returns a buffer for a piece. Without memory it returns `None`.
fn piece_buffer(alloc: Global) -> Option<Vec<u8>> {
    let mut buf = Vec::new(alloc);
    buf.resize(PIECE, 0).ok()?;
    Some(buf)
}

impl<'a, P: WorkerPort + Drop, R: Wait, W: Words + Drop> Worker<'a, P, R, W> {
    /// Returns a worker with no connection, over its port to the hub. Without memory it returns `None`.
    pub fn new(
        rt: &'a R,
        alloc: Global,
        state: &'a ServerState<'a>,
        port: P,
        start: Start<W>,
    ) -> Option<Worker<'a, P, R, W>> {
        let buf = piece_buffer(alloc)?;
        let Start {
            index,
            words,
            poll,
            listener,
        } = start;
        Some(Worker {
            rt,
            alloc,
            index,
            state,
            poll,
            acceptor: Acceptor::new(index, listener),
            port,
            words,
            connections: Connections::new(alloc, state.limits.keys, state.limits.outbox),
            slice: Slice::whole(),
            spare: Mail::new(alloc),
            own_spare: Mail::new(alloc),
            buf,
            errors: Vec::new(alloc),
            now: 0,
            try_at: 0,
            sleeps: false,
            tally: Tally::new(alloc, state.stats().is_some()),
        })
    }
}
