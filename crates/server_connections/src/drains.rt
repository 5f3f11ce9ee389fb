// Which connections are written to, and what is written first.
ghost use Rattle.std.specs.Prelude.{◌≡◌, ◌≢◌};

use crate::connections::Connections;
use server_socket::Written;
use server_socket::turns::Turn;

/// What became of a connection that is written to.
#[derive(Clone, Copy, Debug)]
pub enum Drained {
    /// All is written, and a Take is due, or more may be.
    More,
    /// Nothing more is due, or can be written now.
    Stops,
    /// The turn of the connection has ended so.
    Ends(Turn),
}

impl Connections {
    ghost use Rattle.std.specs.Prelude.{ℕ, Some, IfSome, false, option_map};
    ghost use Rattle.slab.specs.Slab.{get};
    ghost use Rattle.server_socket.specs.Queues.{IsFirst};
    ghost use Rattle.server_connections.specs.Work.{mark_flush, mark_pressing, marked};

    /// Takes out the first of those to be written to, if there is one.
    pub fn next_flush(&mut self) -> Option<usize>
        ensures first { IsFirst self.old.flush result self.new.flush }
        ensures taken { IfSome result (λ key. get self.new.slab key ≡ option_map (marked (mark_flush false)) (get self.old.slab key)) }
        ensures others { (other : ℕ) → result ≢ Some other → get self.new.slab other ≡ get self.old.slab other }
        ensures rest { self.new ≡ record self.old { slab = self.new.slab; flush = self.new.flush } }
    {
        let Some(key) = self.flush.next() else {
            return None;
        };
        if let Some(it) = self.slab.get_mut(key) {
            it.queued.flush = false;
        }
        Some(key)
    }

    /// Takes out the first of those to be written to soon, if there is one.
    pub fn next_pressing(&mut self) -> Option<usize>
        ensures first { IsFirst self.old.pressing result self.new.pressing }
        ensures taken { IfSome result (λ key. get self.new.slab key ≡ option_map (marked (mark_pressing false)) (get self.old.slab key)) }
        ensures others { (other : ℕ) → result ≢ Some other → get self.new.slab other ≡ get self.old.slab other }
        ensures rest { self.new ≡ record self.old { slab = self.new.slab; pressing = self.new.pressing } }
    {
        let Some(key) = self.pressing.next() else {
            return None;
        };
        if let Some(it) = self.slab.get_mut(key) {
            it.queued.pressing = false;
        }
        Some(key)
    }

    /// Writes what is kept for a connection's client, as far as its socket takes it at this moment.
    pub fn write_kept(&mut self, key: usize, now: u64) -> Drained {
        let Some(it) = self.slab.get_mut(key) else {
            return Drained::Stops;
        };
        match it.write_kept(now) {
            Written::Take => Drained::More,
            Written::Passed => {
                self.queue_flush(key);
                Drained::Ends(Turn::Done)
            }
            Written::Stops => Drained::Stops,
            Written::Later => {
                let _ = self.stalled.add(key);
                Drained::Stops
            }
            Written::Ends(turn) => Drained::Ends(turn),
        }
    }
}
