// Which connections have work, and which kind.
ghost use Rattle.std.specs.Prelude.{◌≡◌, ◌≢◌};

use crate::connections::Connections;

/// How many rounds without work a worker looks for some before it sleeps, some hundred microseconds: to wake it takes longer
/// than most work takes to come.
const LOOKS: u32 = 100;

impl Connections {
    ghost use Rattle.std.specs.Prelude.{◌-◌, ℕ, []};
    ghost use Rattle.slab.specs.Slab.{get};
    ghost use Rattle.server_connections.specs.Work.{are_idle, has_input, hears_input, is_pressing, is_readable, lingers_of, mark_cut, mark_flush, mark_pressing, mark_ready, IsQueued, IsQueuedIf};

    /// Begins a round.
    pub fn begin_round(&mut self)
        ensures { self.new ≡ record self.old { looks = self.old.looks - 1 } }
    {
        self.looks = self.looks.saturating_sub(1);
    }

    /// Returns whether the worker may sleep: no connection has something to read, to be written or to go on with, and work was looked
    /// for long enough. What has stalled is tried again after a sleep.
    pub fn are_idle(&self) -> bool
        ensures { result ≡ are_idle self.now }
    {
        let may_sleep = self.looks == 0 || !self.stalled.is_empty();
        may_sleep && self.ready.is_empty() && self.cut.is_empty() && self.flush.is_empty()
    }

    /// Notes what the system tells of a socket.
    pub fn note_socket(&mut self, key: usize, readable: bool, writable: bool)
        ensures input { has_input (get self.new.slab key) ≡ hears_input readable (get self.old.slab key) }
        ensures rest { self.new ≡ record self.old { looks = self.new.looks; slab = self.new.slab; ready = self.new.ready; flush = self.new.flush } }
        ensures others { (other : ℕ) → other ≢ key → get self.new.slab other ≡ get self.old.slab other }
    {
        let Some(it) = self.slab.get_mut(key) else {
            return;
        };
        it.readable = it.readable || readable;
        if writable && (it.client.waits() || it.is_due()) {
            self.queue_flush(key);
        }
        self.queue_ready(key);
    }

    /// Puts a connection among those with something to read, where it may be read.
    pub(crate) fn queue_ready(&mut self, key: usize)
        ensures queue { IsQueuedIf (is_readable (get self.old.slab key)) (λ q. q.ready) mark_ready key (get self.old.slab key) self.old.ready (get self.new.slab key) self.new.ready }
        ensures rest { self.new ≡ record self.old { looks = 100; slab = self.new.slab; ready = self.new.ready } }
        ensures input { has_input (get self.new.slab key) ≡ has_input (get self.old.slab key) }
        ensures lingers { lingers_of (get self.new.slab key) ≡ lingers_of (get self.old.slab key) }
        ensures others { (other : ℕ) → other ≢ key → get self.new.slab other ≡ get self.old.slab other }
    {
        self.looks = LOOKS;
        if let Some(it) = self.slab.get_mut(key) {
            if it.may_read() {
                self.ready.put(key, &mut it.queued.ready);
            }
        }
    }

    /// Puts a connection among those to be written to.
    pub fn queue_flush(&mut self, key: usize)
        ensures queue { IsQueued (λ q. q.flush) mark_flush key (get self.old.slab key) self.old.flush (get self.new.slab key) self.new.flush }
        ensures rest { self.new ≡ record self.old { looks = 100; slab = self.new.slab; flush = self.new.flush } }
        ensures input { has_input (get self.new.slab key) ≡ has_input (get self.old.slab key) }
        ensures others { (other : ℕ) → other ≢ key → get self.new.slab other ≡ get self.old.slab other }
    {
        self.looks = LOOKS;
        if let Some(it) = self.slab.get_mut(key) {
            self.flush.put(key, &mut it.queued.flush);
        }
    }

    /// Puts a connection behind those that were cut short.
    pub fn queue_cut(&mut self, key: usize)
        ensures queue { IsQueued (λ q. q.cut) mark_cut key (get self.old.slab key) self.old.cut (get self.new.slab key) self.new.cut }
        ensures rest { self.new ≡ record self.old { looks = 100; slab = self.new.slab; cut = self.new.cut } }
        ensures others { (other : ℕ) → other ≢ key → get self.new.slab other ≡ get self.old.slab other }
    {
        self.looks = LOOKS;
        if let Some(it) = self.slab.get_mut(key) {
            self.cut.put(key, &mut it.queued.cut);
        }
    }

    /// Puts a connection among those to be written to soon, if so much waits for it that publishers might soon wait too.
    pub(crate) fn queue_pressing(&mut self, key: usize)
        ensures queue { IsQueuedIf (is_pressing self.old.many (get self.old.slab key)) (λ q. q.pressing) mark_pressing key (get self.old.slab key) self.old.pressing (get self.new.slab key) self.new.pressing }
        ensures rest { self.new ≡ record self.old { slab = self.new.slab; pressing = self.new.pressing } }
        ensures others { (other : ℕ) → other ≢ key → get self.new.slab other ≡ get self.old.slab other }
    {
        if let Some(it) = self.slab.get_mut(key) {
            if !it.due.may_wait(self.many) {
                self.pressing.put(key, &mut it.queued.pressing);
            }
        }
    }

    /// Stops reading: no connection is read, and no frames go on.
    pub fn read_no_more(&mut self)
        ensures { self.new ≡ record self.old { ready = []; cut = [] } }
    {
        self.ready.clear();
        self.cut.clear();
    }
}
