//! What workers leave in each other's mailboxes.
ghost use Rattle.std.specs.Prelude.{◌≡◌, length};
ghost use Rattle.server_state.specs.mail.Owners.{owner};

use crate::worker::Worker;
use server_state::mail::{Arrival, Intake, Mail, Mailbox, owner_of};
use session_conn::Words;
use std::mem;
use std::sync::Wait;
use std::time::Clock;
use worker_port::WorkerPort;

/// That a slow consumer's number was left with its worker, which is to close it. Who leaves it makes this, and nobody else.
#[derive(Clone, Copy)]
pub(crate) struct LeftSlow {
    conn: u64,
    worker: usize,
}

/// Asks the worker of a slow consumer to close it.
fn leave_slow<R: Wait>(rt: &R, mailboxes: &[Mailbox], conn: u64) -> LeftSlow
    ensures { result ≡ record { conn = conn; worker = owner conn (length mailboxes.now) } }
{
    let worker = owner_of(conn, mailboxes.len());
    if let Some(mailbox) = mailboxes.get(worker) {
        mailbox.leave_slow(rt, conn);
    }
    LeftSlow { conn, worker }
}

impl<'a, P: WorkerPort + Drop, R: Wait + Clock, W: Words + Drop> Worker<'a, P, R, W> {
    /// Empties the worker's mailbox, and follows what was in it.
    pub(crate) fn take_in(&mut self) {
        let mailboxes = self.state.mailboxes;
        let Some(mailbox) = mailboxes.get(self.index) else {
            return;
        };
        let is_idle = self.connections.are_idle();
        let spare = mem::replace(&mut self.spare, Mail::new(self.alloc));
        let Intake {
            arrivals,
            mail,
            slow,
            reloads,
            sleeps,
        } = mailbox.take_in(self.rt, is_idle, spare);
        self.sleeps = sleeps;
        self.connections.follow(&mail);
        self.spare = mail;
        self.tell_reloads(reloads);
        for conn in slow {
            self.end_slow(conn);
        }
        self.open_all(arrivals);
    }

    /// Opens the connections whose sockets another worker has accepted.
    fn open_all(&mut self, arrivals: Vec<Arrival>) {
        for arrival in arrivals {
            self.open(arrival);
        }
    }

    /// Follows what the worker's own answers make pending for its own connections.
    pub(crate) fn follow_own_mail(&mut self) {
        let spare = mem::replace(&mut self.own_spare, Mail::new(self.alloc));
        let mut mail = self.port.outgoing().take(self.index, spare);
        self.connections.follow(&mail);
        mail.clear();
        self.own_spare = mail;
    }

    /// Leaves mail in the mailboxes of other workers.
    pub(crate) fn leave_mail(&mut self) {
        let mailboxes = self.state.mailboxes;
        self.port.outgoing().leave_others(self.rt, mailboxes);
    }

    /// Asks the worker of a slow consumer to close it.
    pub(crate) fn leave_slow(&mut self, conn: u64) -> LeftSlow
        ensures { result.conn ≡ conn }
    {
        leave_slow(self.rt, self.state.mailboxes, conn)
    }

    /// Leaves all mail where publishers were let on.
    pub(crate) fn leave_freed(&mut self) {
        if self.port.outgoing().has_freed() {
            self.follow_own_mail();
            self.leave_mail();
        }
    }
}
