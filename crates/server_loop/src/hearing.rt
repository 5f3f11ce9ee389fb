//! What a worker hears of a client's program, and of a session's end, for the log.
use crate::worker::Worker;
use server_log::{Ending, LogLevel};
use server_socket::turns::Turn;
use session_conn::Words;
use std::sync::Wait;
use std::time::Clock;
use worker_port::WorkerPort;

/// Returns why a session ends whose connection's turn is over.
fn ending_of(turn: Turn) -> Ending {
    match turn {
        Turn::Ended => Ending::ClientLeft,
        Turn::Closed => Ending::ErrorSent,
        Turn::Lost => Ending::NoMemory,
        _ => Ending::SocketFailed,
    }
}

impl<'a, P: WorkerPort + Drop, R: Wait + Clock, W: Words + Drop> Worker<'a, P, R, W> {
    /// Hears the piece that was just read of a client without an accepted CONNECT: so many bytes of the worker's
    /// buffer.
    #[inline(never)]
    pub(crate) fn hear_client(&mut self, key: usize, read: usize) {
        if self.state.log.level() == LogLevel::None {
            return;
        }
        let Some(it) = self.connections.slab.get_mut(key) else {
            return;
        };
        if let Some(piece) = self.buf.as_slice().get(..read) {
            it.party.hear(self.alloc, piece);
        }
    }

    /// Notes why a connection's session ends, for the line of its end.
    pub(crate) fn note_ending(&mut self, key: usize, turn: Turn) {
        if let Some(it) = self.connections.slab.get_mut(key) {
            it.party.note_ending(ending_of(turn));
        }
    }
}
