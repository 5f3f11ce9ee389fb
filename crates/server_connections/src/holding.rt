// Connections whose frames wait for a receiver.
ghost use Rattle.std.specs.Prelude.{◌≡◌, ◌≢◌};

use crate::connections::Connections;

impl Connections {
    ghost use Rattle.std.specs.Prelude.{ℕ, Some, false, option_map, true};
    ghost use Rattle.slab.specs.Slab.{get};
    ghost use Rattle.server_socket.specs.Connections.{let_on};
    ghost use Rattle.server_connections.specs.Work.{mark_cut, sooner, waits, IsQueued};

    /// Holds a connection's frames until a receiver has room, or until a moment. Without memory they go on, since nobody would
    /// look after them.
    pub fn hold(&mut self, key: usize, until: u64) {
        let Some(it) = self.slab.get_mut(key) else {
            return;
        };
        it.held_until = Some(until);
        self.held.put(key, &mut it.queued.held);
        if it.queued.held {
            self.look_by(until);
        } else {
            self.resume(key);
        }
    }

    /// Fixes a moment at which those that are held are looked after at the latest.
    fn look_by(&mut self, until: u64)
        ensures { self.new ≡ record self.old { look_at = Some (sooner self.old.look_at until) } }
    {
        self.look_at = Some(self.look_at.unwrap_or(until).min(until));
    }

    /// Returns when those that are held are looked after, if some are.
    pub fn next_look(&self) -> Option<u64>
        ensures { result ≡ self.now.look_at }
    {
        self.look_at
    }

    /// Lets a connection's frames go on, if they wait for a receiver.
    fn resume(&mut self, key: usize)
        ensures same { waits (get self.old.slab key) ≡ false → self.new ≡ self.old }
        ensures queue { waits (get self.old.slab key) ≡ true → IsQueued (λ q. q.cut) mark_cut key (option_map let_on (get self.old.slab key)) self.old.cut (get self.new.slab key) self.new.cut }
        ensures rest { self.new ≡ record self.old { looks = self.new.looks; slab = self.new.slab; cut = self.new.cut } }
        ensures others { (other : ℕ) → other ≢ key → get self.new.slab other ≡ get self.old.slab other }
    {
        let Some(it) = self.slab.get_mut(key) else {
            return;
        };
        if it.let_on() {
            self.queue_cut(key);
        }
    }

    /// Lets a publisher's frames go on whose receiver has made room.
    pub(crate) fn let_on(&mut self, conn: u64) {
        if let Some(key) = self.key_of(conn) {
            self.resume(key);
        }
    }

    /// Lets all go on that were held for long enough at a moment. It walks over those that are held.
    pub fn look_after_held(&mut self, now: u64) {
        match self.look_at {
            Some(at) if at <= now => {}
            _ => return,
        }
        self.look_at = None;
        for _ in 0..self.held.len() {
            let Some(key) = self.held.next() else {
                return;
            };
            self.look_after(key, now);
        }
    }

    /// Lets one go on that was held for long enough. If it is still held, it is looked after later.
    fn look_after(&mut self, key: usize, now: u64) {
        let Some(it) = self.slab.get_mut(key) else {
            return;
        };
        it.queued.held = false;
        match it.held_until {
            Some(until) if until > now => self.hold(key, until),
            _ => self.resume(key),
        }
    }

    /// Lets all go on that are held, since it isn't known whose receiver has made room. It walks over them.
    pub(crate) fn resume_all(&mut self) {
        for _ in 0..self.held.len() {
            let Some(key) = self.held.next() else {
                return;
            };
            if let Some(it) = self.slab.get_mut(key) {
                it.queued.held = false;
            }
            self.resume(key);
        }
    }
}
