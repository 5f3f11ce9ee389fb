use crate::mail::pending::Pending;
use crate::mail::ways::Ways;
use events::Answer;
use mio::net::TcpStream;
use mio::{Registry, Token, Waker};
use std::alloc::Global;
use std::sync::{Mutex, MutexGuard, Wait};
use std::{io, mem};

/// An accepted socket, with its connection's number.
#[derive(Drop)]
pub struct Arrival {
    pub conn: u64,
    pub socket: TcpStream,
}

/// What a worker is to do about its connections.
#[derive(Drop)]
pub struct Mail {
    /// Those for which something is pending.
    pub pending: Vec<Pending>,
    /// Publishers whose receivers have made room.
    pub freed: Vec<u64>,
    /// Whether an entry was lost, since there was no memory: each connection is to be drained then, and each publisher let on.
    pub all: bool,
}

/// What a worker takes out of its mailbox.
#[derive(Drop)]
pub struct Intake {
    pub arrivals: Vec<Arrival>,
    pub mail: Mail,
    /// Slow consumers, which are to be closed.
    pub slow: Vec<u64>,
    /// Reloads that have removed subscriptions.
    pub reloads: Vec<Answer>,
    /// Whether the mailbox was empty and the worker is noted to sleep.
    pub sleeps: bool,
}

/// What a mailbox holds, behind its lock.
#[derive(Drop)]
struct Contents {
    alloc: Global,
    intake: Intake,
}

/// A worker's mailbox: what others leave for it.
#[derive(Drop)]
pub struct Mailbox {
    contents: Mutex<Contents>,
    waker: Waker,
    /// Which of its worker's connections would give way to a new one.
    pub ways: Ways,
}

impl Mail {
    ghost use Rattle.std.specs.Prelude.{◌≡◌, is_some, true};
    ghost use Rattle.std.specs.Prelude.{IsTrue};
    ghost use Rattle.server_state.specs.mail.Mails.{IsMore, IsSaid, TellsNothing, frees};

    /// Returns empty mail. It takes no memory.
    pub fn new(alloc: Global) -> Mail
        ensures { TellsNothing result }
    {
        Mail {
            pending: Vec::new(alloc),
            freed: Vec::new(alloc),
            all: false,
        }
    }

    /// Adds to the entry at an index if it is that connection's. Returns how many deliveries are pending for the connection then.
    #[inline(always)]
    pub(crate) fn add_at(&mut self, index: usize, more: Pending) -> Option<usize>
        ensures more { IsMore self.old self.new }
        ensures said { is_some result ≡ true → IsSaid more self.new }
    {
        match self.pending.get_mut(index) {
            Some(pending) if pending.conn == more.conn => {
                pending.entered = pending.entered.saturating_add(more.entered);
                pending.bytes = pending.bytes.saturating_add(more.bytes);
                pending.drain = pending.drain || more.drain;
                Some(pending.entered)
            }
            _ => None,
        }
    }

    /// Adds an entry behind the others. Without memory `all` is set.
    pub(crate) fn add_pending(&mut self, pending: Pending)
        ensures more { IsMore self.old self.new }
        ensures said { IsSaid pending self.new }
    {
        if self.pending.push(pending).is_err() {
            self.all = true;
        }
    }

    /// Adds a publisher that is let on. Without memory `all` is set.
    pub(crate) fn add_freed(&mut self, conn: u64)
        ensures more { IsMore self.old self.new }
        ensures freed { frees conn self.new ≡ true }
    {
        if self.freed.push(conn).is_err() {
            self.all = true;
        }
    }

    /// Returns whether there is nothing to do.
    pub(crate) fn is_empty(&self) -> bool
        ensures { IsTrue result → TellsNothing self.now }
    {
        self.pending.is_empty() && self.freed.is_empty() && !self.all
    }

    /// Adds a copy of other mail. Without memory `all` is set.
    fn add(&mut self, other: &Mail)
        ensures kept { IsMore self.old self.new }
        ensures added { IsMore other.now self.new }
    {
        let pending = self.pending.extend_from_slice(other.pending.as_slice());
        let freed = self.freed.extend_from_slice(other.freed.as_slice());
        self.all = self.all || other.all || pending.is_err() || freed.is_err();
    }

    /// Empties the mail, and keeps its memory.
    pub fn clear(&mut self)
        ensures { TellsNothing self.new }
    {
        self.pending.clear();
        self.freed.clear();
        self.all = false;
    }
}

impl Contents {
    ghost use Rattle.std.specs.Prelude.{◌≡◌, IsTrue, [], true};
    ghost use Rattle.server_state.specs.mail.Mails.{TellsNothing};

    /// Takes out all, and leaves `spare` for the next mail. A worker with nothing else to do that finds nothing is noted to
    /// sleep.
    fn take(&mut self, is_idle: bool, spare: Mail) -> Intake
        ensures arrivals { result.arrivals ≡ self.old.intake.arrivals }
        ensures mail { result.mail ≡ self.old.intake.mail }
        ensures slow { result.slow ≡ self.old.intake.slow }
        ensures reloads { result.reloads ≡ self.old.intake.reloads }
        ensures left { self.new.intake.mail ≡ spare }
        ensures sleeps { self.new.intake.sleeps ≡ result.sleeps }
        ensures idle { IsTrue result.sleeps → is_idle ≡ true }
        ensures none { IsTrue result.sleeps → TellsNothing self.old.intake.mail × (self.old.intake.arrivals.items ≡ []) }
    {
        let Intake {
            arrivals,
            mail,
            slow,
            reloads,
            sleeps: _,
        } = &self.intake;
        let is_empty = arrivals.is_empty() && mail.is_empty() && slow.is_empty();
        let sleeps = is_idle && is_empty && reloads.is_empty();
        let empty = Intake {
            arrivals: Vec::new(self.alloc),
            mail: spare,
            slow: Vec::new(self.alloc),
            reloads: Vec::new(self.alloc),
            sleeps,
        };
        let mut taken = mem::replace(&mut self.intake, empty);
        taken.sleeps = sleeps;
        taken
    }
}

impl Mailbox {
    /// Makes the mailbox of a worker that waits by this registry. It fails where the system makes no waker.
    pub(crate) fn new(alloc: Global, registry: &Registry, token: Token) -> io::Result<Mailbox> {
        let waker = Waker::new(registry, token)?;
        let intake = Intake {
            arrivals: Vec::new(alloc),
            mail: Mail::new(alloc),
            slow: Vec::new(alloc),
            reloads: Vec::new(alloc),
            sleeps: false,
        };
        Ok(Mailbox {
            contents: Mutex::new(Contents { alloc, intake }),
            waker,
            ways: Ways::new(),
        })
    }

    /// Wakes the worker.
    pub(crate) fn wake(&self) {
        drop(self.waker.wake());
    }

    /// Ends the leaving of something, and wakes the worker if it sleeps.
    fn leave(&self, mut contents: MutexGuard<'_, Contents>) {
        let sleeps = mem::replace(&mut contents.intake.sleeps, false);
        drop(contents);
        if sleeps {
            self.wake();
        }
    }

    /// Leaves a socket, and returns whether it could. Without memory the socket is dropped, and so closed.
    pub fn leave_socket<R: Wait>(&self, rt: &R, arrival: Arrival) -> bool {
        let mut contents = self.contents.lock(rt);
        let is_left = contents.intake.arrivals.push(arrival).is_ok();
        self.leave(contents);
        is_left
    }

    /// Asks the worker's first connection that would give way to do so.
    pub(crate) fn ask_way(&self) {
        self.ways.ask();
        self.wake();
    }

    /// Leaves a copy of some mail.
    pub(crate) fn leave_mail<R: Wait>(&self, rt: &R, mail: &Mail) {
        let mut contents = self.contents.lock(rt);
        contents.intake.mail.add(mail);
        self.leave(contents);
    }

    /// Leaves the number of a slow consumer, which is to be closed. Without memory it is lost.
    pub fn leave_slow<R: Wait>(&self, rt: &R, conn: u64) {
        let mut contents = self.contents.lock(rt);
        drop(contents.intake.slow.push(conn));
        self.leave(contents);
    }

    /// Leaves the answer of a reload that has removed subscriptions. Without memory it is lost.
    pub fn leave_reload<R: Wait>(&self, rt: &R, answer: Answer) {
        let mut contents = self.contents.lock(rt);
        drop(contents.intake.reloads.push(answer));
        self.leave(contents);
    }

    /// Takes out all that others have left. `spare` is mail that was taken before, and its vectors hold the next: so no
    /// vector is freed by another thread than has made it.
    pub fn take_in<R: Wait>(&self, rt: &R, is_idle: bool, mut spare: Mail) -> Intake {
        spare.clear();
        let mut contents = self.contents.lock(rt);
        let taken = contents.take(is_idle, spare);
        drop(contents);
        taken
    }
}
