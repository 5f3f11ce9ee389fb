// Fresh clients, of which no CONNECT was accepted: how much of theirs is kept, and which of them gives way to others.
ghost use Rattle.std.specs.Prelude.{◌≡◌, false};

use crate::connections::Connections;
use crate::giving::GivesWay;
use server_socket::is_fresh;
use server_socket::turns::Turn;

/// By how many the entries of `fresh` may be more than twice the connections.
const SPARE: usize = 64;

/// A connection without an accepted CONNECT, when it was noted.
#[derive(Clone, Copy, Debug)]
pub struct Fresh {
    pub key: usize,
    pub conn: u64,
}

impl Connections {
    ghost use Rattle.std.specs.Prelude.{IfSome, Some, true};
    ghost use Rattle.slab.specs.Slab.{get};
    ghost use Rattle.server_socket.specs.turns.Turns.{is_over};
    ghost use Rattle.server_socket.specs.Fresh.{IsBounded, is_fresh};
    ghost use Rattle.server_socket.specs.declared.connection.Connection.{Connection};
    ghost use Rattle.server_connections.specs.Work.{first_fresh, first_lingering, first_to_go, is_still_fresh};

    /// Returns a connection's turn. Where too much is kept of a client without an accepted CONNECT, it writes the client an
    /// error and returns `Closed`.
    pub fn close_if_beyond(&self, key: usize, turn: Turn) -> Turn
        ensures bounded { is_over result ≡ false → IfSome (get self.entry.now.slab key) (λ it. IsBounded it.client.conn) }
        ensures fresh { (it : Connection) → get self.entry.now.slab key ≡ Some it → is_fresh it.client.conn.stage ≡ false → result ≡ turn }
    {
        match self.slab.get(key) {
            None => turn,
            Some(it) => it.close_if_beyond(self.alloc, turn),
        }
    }

    /// Notes a connection that begins. Without memory it never gives way.
    pub(crate) fn note_fresh(&mut self, key: usize, conn: u64) {
        if self.fresh.len() > self.slab.len().saturating_mul(2).saturating_add(SPARE) {
            self.drop_connected();
        }
        drop(self.fresh.push_back(Fresh { key, conn }));
    }

    /// Drops the entries of those whose CONNECT was accepted, or that are gone.
    fn drop_connected(&mut self) {
        for _ in 0..self.fresh.len() {
            let Some(it) = self.fresh.pop_front() else {
                return;
            };
            if self.is_still_fresh(it) {
                drop(self.fresh.push_back(it));
            }
        }
    }

    /// Returns whether an entry's connection still stands, isn't closed, and has no accepted CONNECT.
    fn is_still_fresh(&self, entry: Fresh) -> bool
        ensures { result ≡ is_still_fresh entry (get self.now.slab entry.key) }
    {
        match self.slab.get(entry.key) {
            None => false,
            Some(it) => it.number() == entry.conn && is_fresh(it.client.conn()),
        }
    }

    /// Returns the one that has waited longest without an accepted CONNECT, if there is one. Others before it are dropped.
    pub fn first_fresh(&mut self) -> Option<Fresh>
        ensures stands { IfSome result (λ entry. is_still_fresh entry (get self.new.slab entry.key) ≡ true) }
        ensures first { result ≡ first_fresh self.old.slab self.old.fresh.items }
        ensures rest { self.new ≡ record self.old { fresh = self.new.fresh } }
    {
        for _ in 0..self.fresh.len() {
            let first = self.fresh.front().copied()?;
            if self.is_still_fresh(first) {
                return Some(first);
            }
            drop(self.fresh.pop_front());
        }
        None
    }

    /// Returns which connection gives way to a new one: that which has lingered longest, else that which has waited longest
    /// without an accepted CONNECT.
    pub fn first_to_go(&mut self) -> Option<GivesWay>
        ensures first { result ≡ first_to_go (first_lingering self.old.slab self.old.lingering.items) (first_fresh self.old.slab self.old.fresh.items) }
        ensures rest { self.new ≡ record self.old { lingering = self.new.lingering; fresh = self.new.fresh } }
    {
        match self.first_lingering() {
            Some(it) => Some(GivesWay::Lingering(it.key)),
            None => match self.first_fresh() {
                Some(it) => Some(GivesWay::Fresh(it.key)),
                None => None,
            },
        }
    }
}
