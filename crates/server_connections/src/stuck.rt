// Connections whose clients hold themselves up.
ghost use Rattle.std.specs.Prelude.{◌≡◌, ◌≤◌};

use crate::connections::Connections;

/// How often all connections are looked over, in milliseconds.
const SWEEP: u64 = 1000;

impl Connections {
    ghost use Rattle.std.specs.Prelude.{IfSome, None, true};
    ghost use Rattle.slab.specs.Slab.{get};
    ghost use Rattle.server_connections.specs.Work.{is_stuck_of, IsNoneStuck};

    /// Returns the key of a connection that is stuck at a moment, if there is one and all are to be looked over. Once none is
    /// found they are looked over a second later.
    pub fn next_stuck(&mut self, now: u64) -> Option<usize>
        ensures stuck { IfSome result (λ key. is_stuck_of now (get self.new.slab key) ≡ true) }
        ensures none { result ≡ None → self.old.sweep_at ≤ now → IsNoneStuck now self.old.slab }
        ensures rest { self.new ≡ record self.old { sweep_at = self.new.sweep_at } }
    {
        if now < self.sweep_at {
            return None;
        }
        let found = self.find_stuck(now);
        if found.is_none() {
            self.sweep_at = now.saturating_add(SWEEP);
        }
        found
    }

    /// Looks over all connections, and returns the key of the first that is stuck at a moment.
    fn find_stuck(&self, now: u64) -> Option<usize>
        ensures stuck { IfSome result (λ key. is_stuck_of now (get self.now.slab key) ≡ true) }
        ensures none { result ≡ None → IsNoneStuck now self.now.slab }
    {
        for key in 0..self.slab.capacity() {
            if matches!(self.slab.get(key), Some(it) if it.is_stuck(now)) {
                return Some(key);
            }
        }
        None
    }
}
