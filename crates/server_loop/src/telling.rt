//! What a worker tells the server's operator.
use crate::worker::Worker;
use server_log::{Slowness, What};
use server_socket::turns::Turn;
use session_conn::Words;
use std::sync::Wait;
use std::time::Clock;
use worker_port::WorkerPort;

impl<'a, P: WorkerPort + Drop, R: Wait + Clock, W: Words + Drop> Worker<'a, P, R, W> {
    /// Tells what a connection's turn had that is to be told, if it had such.
    #[inline(always)]
    pub(crate) fn tell_turn(&mut self, key: usize) {
        if !self.port.noted().is_empty() || !self.errors.is_empty() {
            self.tell_all(key);
        }
    }

    /// Tells the answers that the port has noted, and the errors that the client was told.
    #[inline(never)]
    fn tell_all(&mut self, key: usize) {
        let noted = self.port.noted().take();
        let log = self.state.log;
        if let Some(it) = self.connections.slab.get_mut(key) {
            let has_failed = log.tell_noted(self.rt, &mut it.party, noted, &self.port);
            log.tell_errors(self.rt, &mut it.party, self.errors.as_slice(), has_failed);
        }
        self.errors.clear();
    }

    /// Tells something of a connection.
    pub(crate) fn tell_of(&mut self, key: usize, what: What<'_>) {
        let log = self.state.log;
        if let Some(it) = self.connections.slab.get_mut(key) {
            log.tell_of(self.rt, &mut it.party, what);
        }
    }

    /// Tells that a connection is closed since its socket takes nothing, if its turn has ended so.
    pub(crate) fn tell_blocked(&mut self, key: usize, turn: Turn) {
        if turn != Turn::Failed {
            return;
        }
        let Some(it) = self.connections.slab.get(key) else {
            return;
        };
        let is_out = matches!(it.blocked.end_at, Some(at) if at <= self.now);
        if is_out && !it.client.conn().stage().is_closed() {
            let why = if it.due.must_drain() {
                Slowness::OutboxFull
            } else {
                Slowness::TakesNothing
            };
            self.tell_slow(key, why);
        }
    }

    /// Keeps the count of lines that were left out of a connection that is let go.
    pub(crate) fn forget_party(&mut self, key: usize) {
        if let Some(it) = self.connections.slab.get(key) {
            self.state.log.forget(self.rt, &it.party);
        }
    }
}
