//! The rounds of a worker, from its start to its end.
use crate::accepting::LISTENER;
use crate::worker::{WAKER, Worker};
use mio::Events;
use mio::event::Event;
use server_socket::pacing::Slice;
use session_conn::Words;
use std::io;
use std::sync::Wait;
use std::time::{Clock, Duration};
use worker_port::WorkerPort;
use worker_port::fault::ServeFault;

/// How many events of sockets one wait tells.
const EVENTS: usize = 1024;

/// How many old entries of the history a worker that would sleep drops before it looks for work again.
const SHED: usize = 1024;

impl<'a, P: WorkerPort + Drop, R: Wait + Clock, W: Words + Drop> Worker<'a, P, R, W> {
    /// Works until the server stops.
    pub fn run(&mut self) -> Option<ServeFault> {
        let Ok(mut events) = Events::with_capacity(self.alloc, EVENTS) else {
            return Some(ServeFault::NoMemory);
        };
        if let Err(error) = self.acceptor.listen(self.poll.registry()) {
            return Some(self.poll_failed(&error));
        }
        for _ in self.rt.forever() {
            if self.state.stops() {
                break;
            }
            if let Err(error) = self.round(&mut events) {
                return Some(self.poll_failed(&error));
            }
            if self.port.is_spent() {
                return Some(ServeFault::GateClosed);
            }
        }
        self.finish(&mut events);
        None
    }

    /// Tells why the system gives no way to wait for sockets, and returns the fault.
    fn poll_failed(&self, error: &io::Error) -> ServeFault {
        self.state.log.tell_failed(self.rt, "poll", error);
        ServeFault::PollFailed
    }

    /// Works for one round: what was left in the mailbox, a slice of what is to be written, what the sockets tell, and some
    /// turns. The error is the system's, which can't tell of sockets.
    fn round(&mut self, events: &mut Events) -> io::Result<()> {
        self.connections.begin_round();
        self.take_in();
        self.give_way();
        self.slice = Slice::whole();
        self.drain_queued();
        self.wait(events)?;
        self.end_lingering();
        self.end_stuck();
        self.tell_stats();
        self.connections.look_after_held(self.now);
        self.try_again();
        self.accept();
        self.take_turns();
        Ok(())
    }

    /// Returns how long to wait for sockets: not at all where there is work.
    fn patience(&self) -> Duration {
        let accepts = matches!(self.acceptor.due_at(), Some(at) if at <= self.now);
        if accepts || !self.sleeps {
            Duration::ZERO
        } else if !self.connections.stalled.is_empty() {
            Duration::from_millis(10)
        } else {
            let until = self.next_look();
            Duration::from_millis(until.saturating_sub(self.now).max(1).min(1000))
        }
    }

    /// Returns when something is to be looked at that no socket tells of.
    fn next_look(&self) -> u64 {
        let held = self.connections.next_look().unwrap_or(u64::MAX);
        let accepts = self.acceptor.due_at().unwrap_or(u64::MAX);
        held.min(accepts)
            .min(self.connections.lingers_until())
            .min(self.tally.due_at())
    }

    /// Waits for sockets, and notes what they tell. The error is the system's, which can't tell.
    fn wait(&mut self, events: &mut Events) -> io::Result<()> {
        let mut patience = self.patience();
        if patience > Duration::ZERO && self.port.shed(SHED) {
            patience = Duration::ZERO;
        }
        let told = self.poll.poll(events, Some(patience));
        self.now = self.state.now(self.rt);
        self.note_events(events);
        told
    }

    /// Notes what the sockets told.
    pub(crate) fn note_events(&mut self, events: &Events) {
        for event in events.iter() {
            self.note_event(event);
        }
    }

    fn note_event(&mut self, event: &Event) {
        let token = event.token();
        if token == LISTENER {
            self.acceptor.note_waiting(self.now);
        } else if token != WAKER {
            self.connections
                .note_socket(token.0, event.is_readable(), event.is_writable());
        }
    }
}
