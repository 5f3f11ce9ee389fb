//! What is told of the subscriptions that a reload has removed.
use crate::worker::Worker;
use events::{Answer, Outcome, Removed};
use session_conn::Words;
use std::sync::Wait;
use std::time::Clock;
use wire_write::ServerError;
use worker_port::WorkerPort;

impl<'a, P: WorkerPort + Drop, R: Wait + Clock, W: Words + Drop> Worker<'a, P, R, W> {
    /// Tells which subscriptions of the worker's connections were removed by these reloads.
    pub(crate) fn tell_reloads(&mut self, reloads: Vec<Answer>) {
        for answer in reloads.as_slice() {
            self.tell_removed(answer);
        }
    }

    fn tell_removed(&mut self, answer: &Answer) {
        let entry = answer.get();
        let Outcome::Reloaded { removed, .. } = &entry.outcome else {
            return;
        };
        let log = self.state.log;
        for one in removed.as_slice() {
            let Some(key) = self.connections.key_of(one.conn) else {
                continue;
            };
            if let Some(it) = self.connections.slab.get_mut(key) {
                log.tell_removed(self.rt, &mut it.party, entry.epoch, one);
            }
            if self.state.limits.tells_removed {
                self.tell_client(key, one);
            }
        }
    }

    /// Tells a client that it may have a subscription no more, as if it asked for it now.
    fn tell_client(&mut self, key: usize, removed: &Removed) {
        let Some(it) = self.connections.slab.get_mut(key) else {
            return;
        };
        let error = ServerError::SubscriptionDenied {
            subject: removed.subject.get().bytes(),
            queue: match &removed.queue {
                None => None,
                Some(queue) => Some(queue.bytes()),
            },
        };
        let turn = it.tell_error(self.alloc, error, self.now);
        if turn.is_over() {
            self.close(key, turn);
        }
    }
}
