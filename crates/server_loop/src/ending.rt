//! How connections end, and how a worker does.
ghost use Rattle.std.specs.Prelude.{◌≡◌};

use crate::worker::Worker;
use mio::Events;
use server_connections::Stalled;
use server_log::Slowness;
use server_socket::pacing::Slice;
use server_socket::turns::Turn;
use server_state::mail::millis;
use session_conn::Words;
use std::sync::Wait;
use std::time::{Clock, Duration};
use wire_write::ServerError;
use worker_port::WorkerPort;

/// How long the end of a server may take, in milliseconds.
const GRACE: u64 = 2000;

/// What came of the end of a connection.
#[derive(Clone, Copy)]
pub(crate) enum Ended {
    /// The worker has no such connection.
    Nobody,
    /// Its session can't be closed yet: that is tried again.
    Later(Stalled),
    /// Its session is closed, and its socket is let go or lingers.
    Closed,
}

/// Why a worker writes no more.
#[derive(Clone, Copy)]
pub(crate) enum WrittenOut {
    /// All is written.
    All,
    /// It has taken so many milliseconds.
    Late(u64),
}

impl<'a, P: WorkerPort + Drop, R: Wait + Clock, W: Words + Drop> Worker<'a, P, R, W> {
    ghost use Rattle.std.specs.Prelude.{None, true};
    ghost use Rattle.slab.specs.Slab.{get};
    ghost use Rattle.server_loop.specs.Ending.{is_let_go, IsEnded, IsWrittenOut};

    /// Closes a connection whose turn is over. Where the server closes it, its socket is to linger.
    pub(crate) fn close(&mut self, key: usize, turn: Turn) {
        if let Some(it) = self.connections.slab.get_mut(key) {
            it.is_to_linger = matches!(turn, Turn::Closed | Turn::Lost);
        }
        self.note_ending(key, turn);
        self.end(key);
    }

    /// Closes a slow consumer, if it isn't over yet. What waits for it is lost.
    pub(crate) fn end_slow(&mut self, conn: u64) {
        let Some(key) = self.connections.key_of(conn) else {
            return;
        };
        let Some(it) = self.connections.slab.get(key) else {
            return;
        };
        if !it.is_over {
            it.tell_last(self.alloc, ServerError::SlowConsumer);
            self.tell_slow(key, Slowness::TooMuchWaits);
            self.close(key, Turn::Closed);
        }
    }

    /// Ends a connection whose client reads nothing, and waits to be read, for ten seconds, if there is one.
    pub(crate) fn end_stuck(&mut self) {
        if let Some(key) = self.connections.next_stuck(self.now) {
            self.tell_slow(key, Slowness::ReadsNothing);
            self.close(key, Turn::Failed);
        }
    }

    /// Ends a connection: its session is closed, and then its socket. Where the session can't be closed yet, it is tried
    /// again.
    pub(crate) fn end(&mut self, key: usize) {
        if let Ended::Closed = self.end_session(key) {
            self.leave_freed();
        }
    }

    /// Closes a connection's session, and then its socket, which is let go or lingers. Where the session can't be closed yet, the
    /// connection is among those whose turn could not be ended.
    fn end_session(&mut self, key: usize) -> Ended
        ensures { IsEnded key (get self.old.connections.slab key) result (get self.new.connections.slab key) }
    {
        let Some(it) = self.connections.slab.get_mut(key) else {
            return Ended::Nobody;
        };
        let conn = it.number();
        let is_to_linger = it.is_to_linger;
        it.is_over = true;
        let stall = it.client.end(&mut self.port, self.now);
        self.tell_turn(key);
        if stall.is_some() {
            let stalled = self.connections.stall(key);
            return Ended::Later(stalled);
        }
        self.connections.forget(conn);
        self.let_go(key, is_to_linger);
        Ended::Closed
    }

    /// Lets a connection linger where it is to, else lets it go.
    fn let_go(&mut self, key: usize, is_to_linger: bool)
        ensures { is_let_go (get self.new.connections.slab key) ≡ true }
    {
        if is_to_linger && self.connections.linger(key, self.now) {
            return;
        }
        self.remove(key);
    }

    /// Lets a connection go, and its socket.
    pub(crate) fn remove(&mut self, key: usize)
        ensures { get self.new.connections.slab key ≡ None }
    {
        self.forget_party(key);
        if self.connections.remove(key) {
            self.state.note_closed();
        }
    }

    /// Drops some input of a connection that lingers.
    pub(crate) fn drop_input(&mut self, key: usize) {
        if self.connections.drop_input(key, self.buf.as_mut_slice()) {
            self.remove(key);
        }
    }

    /// Lets go of those that have lingered for long enough.
    pub(crate) fn end_lingering(&mut self) {
        for _ in 0..self.connections.lingering.len() {
            match self.connections.has_lingered(self.now) {
                None => return,
                Some(key) => self.remove(key),
            }
        }
    }

    /// Ends the worker: nothing more is read, what was accepted is written out, and then is to arrive.
    pub(crate) fn finish(&mut self, events: &mut Events) {
        self.state.note_finished();
        let _ = self.write_out(events);
        self.linger_all();
        self.see_off(events);
    }

    /// Writes out what was accepted, for two seconds at most.
    fn write_out(&mut self, events: &mut Events) -> WrittenOut
        ensures { IsWrittenOut result self.new.connections.slab }
    {
        let begin = millis(self.rt);
        for _ in self.rt.forever() {
            let have_finished = self.state.have_finished();
            self.connections.read_no_more();
            self.take_in();
            self.slice = Slice::whole();
            self.drain_queued();
            if have_finished {
                if !self.connections.has_unwritten() {
                    return WrittenOut::All;
                }
            }
            let taken = millis(self.rt).saturating_sub(begin);
            if taken > GRACE {
                return WrittenOut::Late(taken);
            }
            let may_wait = self.connections.flush.is_empty();
            self.look(events, may_wait);
        }
        WrittenOut::Late(u64::MAX)
    }

    /// Notes what sockets tell at once, or within five milliseconds.
    fn look(&mut self, events: &mut Events, may_wait: bool) {
        let patience = Duration::from_millis(if may_wait { 5 } else { 0 });
        drop(self.poll.poll(events, Some(patience)));
        self.note_events(events);
    }

    /// Lets all connections linger: what was written to them is to arrive, for two seconds at most.
    fn linger_all(&mut self) {
        self.now = self.state.now(self.rt);
        self.connections.ready.clear();
        for key in 0..self.connections.slab.capacity() {
            if !self.connections.shut(key, self.now) {
                self.remove(key);
            }
        }
    }

    /// Waits until no connection is left that lingers.
    fn see_off(&mut self, events: &mut Events) {
        for _ in self.rt.forever() {
            self.drop_inputs();
            self.end_lingering();
            if self.connections.slab.is_empty() {
                return;
            }
            let may_wait = self.connections.ready.is_empty();
            self.look(events, may_wait);
            self.now = self.state.now(self.rt);
        }
    }

    /// Drops some input of each connection that has some, all of which linger.
    fn drop_inputs(&mut self) {
        for _ in 0..self.connections.ready.len() {
            let Some(key) = self.connections.ready.next() else {
                return;
            };
            if let Some(it) = self.connections.slab.get_mut(key) {
                it.queued.ready = false;
            }
            self.drop_input(key);
        }
    }
}
