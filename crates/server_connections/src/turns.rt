// What a connection's turn is, and what follows from it.
ghost use Rattle.std.specs.Prelude.{◌≡◌, ◌≢◌};

use crate::connections::Connections;
use server_socket::turns::Turn;
use std::mem;

/// What is to be done with what a connection's client sends.
#[derive(Clone, Copy, Debug)]
pub enum Reads {
    /// The connection has a turn.
    Serve,
    /// It is read and dropped, since the connection lingers.
    Drop,
    /// Nothing, now.
    Nothing,
}

impl Connections {
    ghost use Rattle.std.specs.Prelude.{ℕ, false, option_map, true};
    ghost use Rattle.slab.specs.Slab.{get};
    ghost use Rattle.server_connections.specs.Work.{barred_by, goes_on, is_to_end, mark_cut, mark_ready, marked, reads_of, IsFlushed};

    /// Takes a connection out of those with something to read, and returns what is to be done with that.
    pub fn begin_ready(&mut self, key: usize) -> Reads
        ensures reads { result ≡ reads_of (get self.old.slab key) }
        ensures taken { get self.new.slab key ≡ option_map (marked (mark_ready false)) (get self.old.slab key) }
        ensures rest { self.new ≡ record self.old { slab = self.new.slab } }
        ensures others { (other : ℕ) → other ≢ key → get self.new.slab other ≡ get self.old.slab other }
    {
        let Some(it) = self.slab.get_mut(key) else {
            return Reads::Nothing;
        };
        it.queued.ready = false;
        if !it.may_read() {
            Reads::Nothing
        } else if it.lingers {
            Reads::Drop
        } else {
            Reads::Serve
        }
    }

    /// Takes a connection out of those that were cut short, and returns whether it has a turn.
    pub fn begin_cut(&mut self, key: usize) -> bool
        ensures goes_on { result ≡ goes_on (get self.old.slab key) }
        ensures taken { get self.new.slab key ≡ option_map (marked (mark_cut false)) (get self.old.slab key) }
        ensures rest { self.new ≡ record self.old { slab = self.new.slab } }
        ensures others { (other : ℕ) → other ≢ key → get self.new.slab other ≡ get self.old.slab other }
    {
        match self.slab.get_mut(key) {
            None => false,
            Some(it) => mem::replace(&mut it.queued.cut, false) && !it.is_over,
        }
    }

    /// Queues a connection after a turn that has written, or whose socket hasn't taken all.
    pub fn follow_writes(&mut self, key: usize) {
        let Some(it) = self.slab.get(key) else {
            return;
        };
        let is_let_on = it.is_let_on;
        let is_due = it.is_due() && !it.client.waits();
        if is_let_on {
            // (what its socket doesn't take is looked after)
            let _ = self.stalled.add(key);
        }
        if is_due {
            // (what its socket hadn't taken may be written now, and then nobody tells that it takes more)
            self.queue_flush(key);
        }
    }

    /// Queues a connection after a turn that isn't over.
    pub fn follow_turn(&mut self, key: usize, turn: Turn) {
        let Some(it) = self.slab.get_mut(key) else {
            return;
        };
        match turn {
            Turn::Idle => it.readable = false,
            Turn::Waits => {
                if it.client.conn().stage().is_closed() {
                    // (it is looked after until its closing text is written)
                    self.queue_flush(key);
                }
            }
            Turn::Stalled(_) => {
                let _ = self.stalled.add(key);
            }
            _ => self.queue_ready(key),
        }
    }

    /// Queues a connection again whose turn could not be ended. Returns whether its session is still to be closed instead.
    pub fn try_again(&mut self, key: usize) -> bool
        ensures ends { result ≡ is_to_end (get self.old.slab key) }
        ensures same { result ≡ true → self.new ≡ self.old }
        ensures queued { result ≡ false → IsFlushed key (get self.old.slab key) self.old.flush self.new.flush }
    {
        let is_over = matches!(self.slab.get(key), Some(it) if it.is_over && !it.lingers);
        if !is_over {
            self.queue_flush(key);
            self.queue_ready(key);
        }
        is_over
    }

    /// Puts so many deliveries, which wait, before what the client is told next.
    pub fn bar(&mut self, key: usize, count: usize)
        ensures barred { get self.new.slab key ≡ option_map (barred_by count) (get self.old.slab key) }
        ensures rest { self.new ≡ record self.old { slab = self.new.slab } }
        ensures others { (other : ℕ) → other ≢ key → get self.new.slab other ≡ get self.old.slab other }
    {
        if let Some(it) = self.slab.get_mut(key) {
            it.due.bar(count);
        }
    }
}
