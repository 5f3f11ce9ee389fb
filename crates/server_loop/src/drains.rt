//! What is written to connections, and when.
use crate::worker::Worker;
use server_connections::Drained;
use server_socket::turns::Turn;
use server_stats::Counting;
use session_conn::Words;
use std::sync::Wait;
use std::time::Clock;
use worker_port::WorkerPort;

/// How many Takes a connection has before others are looked at.
const TAKES: usize = 16;

impl<'a, P: WorkerPort + Drop, R: Wait + Clock, W: Words + Drop> Worker<'a, P, R, W> {
    /// Drains a slice of the connections that are to be written to, in the order in which they came to be.
    pub(crate) fn drain_queued(&mut self) {
        for _ in 0..self.connections.flush.len() {
            if self.slice.is_spent() {
                return;
            }
            let Some(key) = self.connections.next_flush() else {
                return;
            };
            self.drain_one(key);
        }
    }

    /// Drains those for which so much waits that publishers might soon wait for them.
    pub(crate) fn drain_pressing(&mut self) {
        for _ in 0..self.connections.pressing.len() {
            if self.slice.is_spent() {
                return;
            }
            let Some(key) = self.connections.next_pressing() else {
                return;
            };
            self.drain_one(key);
        }
    }

    /// Drains a connection by some Takes, as far as its socket takes them. Publishers that they let on are told at once.
    pub(crate) fn drain_one(&mut self, key: usize) {
        self.slice = self.slice.less(0, 0);
        self.now = self.state.now(self.rt);
        for _ in 0..TAKES {
            match self.drain_once(key) {
                Drained::More => {}
                Drained::Stops => return self.leave_freed(),
                Drained::Ends(turn) => {
                    self.tell_blocked(key, turn);
                    self.after(key, turn);
                    return self.leave_freed();
                }
            }
        }
        self.connections.queue_flush(key);
        self.leave_freed();
    }

    /// Writes what is kept for a client, and then what one Take gives.
    fn drain_once(&mut self, key: usize) -> Drained {
        match self.connections.write_kept(key, self.now) {
            Drained::More => self.take_one(key),
            Drained::Stops => Drained::Stops,
            Drained::Ends(turn) => Drained::Ends(turn),
        }
    }

    /// Makes one Take of a connection, once all before is written.
    fn take_one(&mut self, key: usize) -> Drained {
        let Some(it) = self.connections.slab.get_mut(key) else {
            return Drained::Stops;
        };
        let most = it.due.next_take();
        self.port.begin_take(it.blocked.millis);
        let turn = if self.tally.is_on() {
            let mut port = Counting::new(&mut self.port);
            let turn = it.drain(&mut port, most, self.now);
            self.tally.keep_turn(port.into_counts());
            turn
        } else {
            it.drain(&mut self.port, most, self.now)
        };
        if turn == Turn::Waits {
            self.now = self.state.now(self.rt);
        }
        it.note_drained(self.port.untold(), self.now);
        if turn == Turn::Done || turn == Turn::Waits {
            let had = it.due.note_taken(most);
            self.slice = self.slice.less(had.count, had.bytes);
            if let Some(rest) = self.port.take_rest() {
                it.due.note_left(rest);
            }
        }
        self.count_turn(key);
        self.tell_turn(key);
        if turn == Turn::Done {
            Drained::More
        } else {
            Drained::Ends(turn)
        }
    }
}
