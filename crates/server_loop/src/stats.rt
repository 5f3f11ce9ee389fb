//! What a worker counts for the server's operator.
use crate::worker::Worker;
use server_log::{Slowness, What};
use server_stats::TurnCounts;
use session_conn::Words;
use std::sync::Wait;
use std::time::Clock;
use worker_port::WorkerPort;

impl<'a, P: WorkerPort + Drop, R: Wait + Clock, W: Words + Drop> Worker<'a, P, R, W> {
    /// Counts what a connection's last turn had, where something is counted.
    #[inline(always)]
    pub(crate) fn count_turn(&mut self, key: usize) {
        if self.tally.is_on() {
            self.add_turn(key);
        }
    }

    #[inline(never)]
    fn add_turn(&mut self, key: usize) {
        let turn = self.tally.take_turn();
        self.note_account(key, &turn);
        self.tally.count_turn(key, &turn);
    }

    /// Notes whose account a connection's is, if its CONNECT was accepted in this turn.
    fn note_account(&mut self, key: usize, turn: &TurnCounts) {
        let (Some(stats), Some(answer)) = (self.state.stats(), &turn.connected) else {
            return;
        };
        let Some(account) = self.state.log.account_of_connect(self.rt, answer.get()) else {
            return;
        };
        if let Some(place) = stats.board().place_of(self.rt, account) {
            self.tally.note_account(key, place);
        }
    }

    /// Tells that a connection is closed for being slow, and counts that.
    pub(crate) fn tell_slow(&mut self, key: usize, why: Slowness) {
        self.tally.count_slow(key);
        self.tell_of(key, What::SlowConsumer(why));
    }

    /// Counts what stands, and adds it to what others count, if that is due. The last worker that does so tells all of it.
    #[inline(always)]
    pub(crate) fn tell_stats(&mut self) {
        if self.tally.due_at() <= self.now {
            self.tell_counts();
        }
    }

    #[inline(never)]
    fn tell_counts(&mut self) {
        let Some(stats) = self.state.stats() else {
            return;
        };
        self.tally.tell_at(stats.next_at(self.now));
        self.count_standing();
        if let Some(sums) = stats.board().add(self.rt, &mut self.tally) {
            stats.tell(
                self.rt,
                self.state.log,
                self.state.shared(),
                self.port.look(),
                &sums,
            );
        }
    }

    /// Counts the connections that stand, and their sessions.
    fn count_standing(&mut self) {
        self.tally.begin_look();
        for key in 0..self.connections.slab.capacity() {
            self.count_connection(key);
        }
    }

    fn count_connection(&mut self, key: usize) {
        let Some(it) = self.connections.slab.get(key) else {
            return;
        };
        let bytes = it.client.waiting().saturating_add(it.due.bytes());
        self.tally
            .count_connection(it.held_until.is_some(), bytes as u64);
        if let Some(session) = self.port.look_at(it.number()) {
            self.tally.count_session(key, session);
        }
    }
}
