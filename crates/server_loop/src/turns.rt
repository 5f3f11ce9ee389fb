//! The turns of connections: which comes next, what it gives, and where its frames wait.
ghost use Rattle.std.specs.Prelude.{◌≡◌};
ghost use Rattle.server_loop.specs.Turns.{is_kept, kept_by};

use crate::mail::LeftSlow;
use crate::worker::Worker;
use server_connections::Reads;
use server_log::What;
use server_socket::pacing::{Slice, batch};
use server_socket::turns::Turn;
use server_socket::{ConnectionTurn, is_fresh};
use server_stats::Counting;
use session_conn::{Stall, Words};
use std::mem;
use std::sync::Wait;
use std::time::Clock;
use worker_port::{Why, WorkerPort};

/// How many turns connections with something to read have in a round, and those that were cut short at most.
const TURNS: usize = 16;

const CUT_TURNS: usize = 64;

/// How many deliveries may enter in a round, and how many of them are kept for those that were cut short.
const SHARE: usize = 4096;

const LEAST: usize = 1024;

/// After how long a message is offered again whose receiver is to be closed, in milliseconds, if that isn't told before.
const CLOSING: u64 = 100;

/// What a client is told that sends too much before its CONNECT.
const TOO_MUCH: &[u8] = b"Authorization Violation";

/// After how long a turn that could not be ended is tried again, in milliseconds.
const RETRY: u64 = 10;

/// Where a connection stays whose frame is held back.
#[derive(Clone, Copy)]
pub(crate) enum Aside {
    /// It waits for a receiver, or for a moment.
    Held,
    /// It waits until a slow consumer is closed, whose worker is asked to close it.
    Slow(LeftSlow),
    /// It waits for its share of another round.
    Cut,
    /// It waits until it has had what waits for it.
    Barred,
}

/// Returns whether a turn has its entries keep what was read: frames of it were entered, or will be.
fn is_kept(served: ConnectionTurn, has_entered: bool) -> bool
    ensures { result ≡ is_kept served has_entered }
{
    served.read > 0 && (served.frames_wait || has_entered)
}

/// Returns how many bytes a turn has its entries keep beside their own: a piece that was read, and what was buffered before it,
/// since the history keeps both. 0 where it has them keep nothing.
fn kept_of(served: ConnectionTurn, has_entered: bool) -> usize
    ensures { result ≡ kept_by (is_kept served has_entered) served.buffered served.read }
{
    if is_kept(served, has_entered) {
        served.buffered.saturating_add(served.read)
    } else {
        0
    }
}

impl<'a, P: WorkerPort + Drop, R: Wait + Clock, W: Words + Drop> Worker<'a, P, R, W> {
    ghost use Rattle.std.specs.Prelude.{IfSome, false};
    ghost use Rattle.slab.specs.Slab.{get};
    ghost use Rattle.server_socket.specs.Fresh.{IsBounded};
    ghost use Rattle.server_socket.specs.turns.Turns.{is_over};
    ghost use Rattle.server_loop.specs.Turns.{IsAside};

    /// Gives connections their turns of a round: first those with something to read, as far as the round's share of deliveries
    /// goes, and then those that were cut short, at least one. So who does little never waits for those who do much.
    pub(crate) fn take_turns(&mut self) {
        self.slice = Slice::whole();
        self.port.allow(SHARE);
        self.serve_each_ready();
        self.port.allow(LEAST);
        self.serve_each_cut();
        self.leave_mail();
    }

    /// Gives turns to connections with something to read.
    fn serve_each_ready(&mut self) {
        for _ in 0..TURNS {
            if self.port.has_no_share() {
                break;
            }
            let Some(key) = self.connections.ready.next() else {
                break;
            };
            match self.connections.begin_ready(key) {
                Reads::Serve => self.give_turn(key),
                Reads::Drop => self.drop_input(key),
                Reads::Nothing => {}
            }
            self.take_in();
            self.drain_pressing();
        }
    }

    /// Gives turns to connections that were cut short.
    fn serve_each_cut(&mut self) {
        for _ in 0..self.connections.cut.len().min(CUT_TURNS) {
            if self.port.has_no_share() {
                break;
            }
            let Some(key) = self.connections.cut.next() else {
                break;
            };
            if self.connections.begin_cut(key) {
                self.give_turn(key);
            }
            self.take_in();
            self.drain_pressing();
        }
    }

    /// Gives a connection one turn, and follows how it ended.
    fn give_turn(&mut self, key: usize) {
        match self.serve(key) {
            None => {}
            Some(Turn::Stalled(Stall::Held)) => {
                let _ = self.follow_held(key);
            }
            Some(turn) => self.after(key, turn),
        }
    }

    /// Gives a connection one turn, if the worker has it, and returns how it ended. Mail is left about what it made pending. Where
    /// the turn isn't over, its client has an accepted CONNECT, or no more than 8,192 bytes of it are kept.
    fn serve(&mut self, key: usize) -> Option<Turn>
        ensures bounded { IfSome result (λ turn. is_over turn ≡ false → IfSome (get self.new.connections.slab key) (λ it. IsBounded it.client.conn)) }
    {
        self.now = self.state.now(self.rt);
        let Some(served) = self.serve_turn(key) else {
            return None;
        };
        self.count_turn(key);
        self.connections.follow_writes(key);
        self.keep(served);
        self.tell_pending();
        self.tell_turn(key);
        let turn = self.connections.close_if_beyond(key, served.turn);
        if turn != served.turn {
            self.tell_of(key, What::Limit(TOO_MUCH));
            return Some(Turn::Closed);
        }
        Some(turn)
    }

    /// Gives a connection one turn: frames that wait go on, or a piece is read.
    fn serve_turn(&mut self, key: usize) -> Option<ConnectionTurn> {
        let it = self.connections.slab.get_mut(key)?;
        let buf = self.buf.as_mut_slice();
        if buf.is_empty() {
            return None;
        }
        let was_fresh = is_fresh(it.client.conn());
        let has_passed = mem::replace(&mut it.has_passed, false);
        self.port.begin_turn(has_passed);
        let (words, errors) = (&mut self.words, &mut self.errors);
        let served = if self.tally.is_on() {
            let mut port = Counting::new(&mut self.port);
            let served = it.serve(&mut port, words, buf, errors, self.now);
            self.tally.keep_turn(port.into_counts());
            served
        } else {
            it.serve(&mut self.port, words, buf, errors, self.now)
        };
        if was_fresh {
            self.hear_client(key, served.read);
        }
        Some(served)
    }

    /// Counts a piece that was read, and what was buffered before it, where frames of it were entered or will be: the history
    /// keeps both then.
    fn keep(&mut self, served: ConnectionTurn) {
        let bytes = kept_of(served, self.port.has_entered());
        if bytes > 0 {
            self.port.keep(bytes);
        }
    }

    /// Follows the worker's own mail at once, and leaves that of other workers once many deliveries are pending for one
    /// connection.
    fn tell_pending(&mut self) {
        self.follow_own_mail();
        let most = self.port.outgoing().most();
        if most > 0 && most >= batch(self.state.limits.outbox, self.state.mailboxes.len()) {
            self.leave_mail();
        }
    }

    /// Sets a connection aside whose frame is held back: it waits for a receiver, for its share of another round, or until it
    /// has had what waits for it. The worker of a slow receiver is asked to close it.
    fn follow_held(&mut self, key: usize) -> Aside
        ensures aside { IsAside (P.course self.old.port).why result }
    {
        match self.port.why() {
            Some(Why::Receiver(until)) => {
                self.hold(key, until);
                Aside::Held
            }
            Some(Why::Slow(conn)) => {
                let left = self.leave_slow(conn);
                self.hold(key, self.now.saturating_add(CLOSING));
                Aside::Slow(left)
            }
            Some(Why::Share) => {
                self.connections.queue_cut(key);
                Aside::Cut
            }
            None => {
                self.bar(key);
                Aside::Barred
            }
        }
    }

    /// Holds a connection's frames until a receiver has room, or until a moment. Mail is left at once, so that the receiver is
    /// drained.
    fn hold(&mut self, key: usize, until: u64) {
        self.leave_mail();
        self.connections.hold(key, until);
    }

    /// Lets a connection have what waits for it before what it is told next.
    fn bar(&mut self, key: usize) {
        let Some(it) = self.connections.slab.get(key) else {
            return;
        };
        let count = self.port.waiting(it.number());
        self.connections.bar(key, count);
        self.drain_one(key);
    }

    /// Closes a connection whose turn is over, or queues it again.
    pub(crate) fn after(&mut self, key: usize, turn: Turn) {
        if turn.is_over() {
            self.close(key, turn);
        } else {
            self.connections.follow_turn(key, turn);
        }
    }

    /// Queues those again whose turn could not be ended, each 10 milliseconds.
    pub(crate) fn try_again(&mut self) {
        if self.now < self.try_at {
            return;
        }
        self.try_at = self.now.saturating_add(RETRY);
        for _ in 0..self.connections.stalled.len() {
            let Some(key) = self.connections.stalled.next() else {
                return;
            };
            if self.connections.try_again(key) {
                self.end(key);
            }
        }
    }
}
