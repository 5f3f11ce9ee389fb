//! How connections begin, and which of them give way to new ones.
use crate::accepting::Accepted;
use crate::worker::Worker;
use server_connections::GivesWay;
use server_state::mail::Arrival;
use session_conn::Words;
use std::sync::Wait;
use std::time::Clock;
use worker_port::WorkerPort;

/// How many connections are accepted before others are looked at.
const ARRIVALS: usize = 256;

impl<'a, P: WorkerPort + Drop, R: Wait + Clock, W: Words + Drop> Worker<'a, P, R, W> {
    /// Accepts what has come, as far as there is room, and deals the sockets out.
    pub(crate) fn accept(&mut self) {
        if !self.acceptor.begin(self.now) {
            return;
        }
        for _ in 0..ARRIVALS {
            let registry = self.poll.registry();
            match self
                .acceptor
                .accept(self.rt, self.state, registry, self.now)
            {
                Accepted::Own(arrival) => self.open(arrival),
                Accepted::Left => {}
                Accepted::Nobody => return,
            }
        }
        self.acceptor.go_on(self.now);
    }

    /// Opens a connection. Without memory, or where the system refuses to watch it, its socket is closed.
    pub(crate) fn open(&mut self, arrival: Arrival) {
        let Arrival { conn, socket } = arrival;
        let registry = self.poll.registry();
        let Some(key) = self.connections.add(conn, socket, registry) else {
            self.state.note_closed();
            return;
        };
        self.tally.forget(key);
        if let Some(turn) = self.connections.open(key) {
            self.after(key, turn);
        }
    }

    /// Shows others which connections would give way here, and lets the first give way where that was asked.
    pub(crate) fn give_way(&mut self) {
        let mailboxes = self.state.mailboxes;
        let Some(mailbox) = mailboxes.get(self.index) else {
            return;
        };
        if mailbox.ways.is_asked() {
            self.go_first();
        }
        let lingering = match self.connections.first_lingering() {
            None => None,
            Some(it) => Some(it.until),
        };
        let fresh = match self.connections.first_fresh() {
            None => None,
            Some(it) => Some(it.conn),
        };
        mailbox.ways.show(lingering, fresh);
    }

    /// Removes the connection that has lingered longest, else ends the one that has waited longest without an accepted CONNECT.
    fn go_first(&mut self) {
        match self.connections.first_to_go() {
            None => {}
            Some(GivesWay::Lingering(key)) => self.remove(key),
            Some(GivesWay::Fresh(key)) => self.end(key),
        }
    }
}
