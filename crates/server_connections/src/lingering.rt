// Sockets that the server closes. They stay for a while, so that what was written to them arrives: a socket that is let go
// with input that wasn't read is reset, and its peer loses what it hasn't read.
ghost use Rattle.std.specs.Prelude.{◌≡◌};

use crate::connections::Connections;
use server_socket::Input;

/// How long such a socket stays at most, in milliseconds.
const LINGER: u64 = 2000;

/// A connection whose socket was shut down, and until when it stays.
#[derive(Clone, Copy, Debug)]
pub struct Lingering {
    pub key: usize,
    pub conn: u64,
    pub until: u64,
}

impl Connections {
    ghost use Rattle.std.specs.Prelude.{IfSome, true};
    ghost use Rattle.slab.specs.Slab.{get};
    ghost use Rattle.server_connections.specs.Work.{first_lingering, is_lingering, lingers_of};

    /// Ends the writing to a connection that is over, and lets its socket linger. It stays until the peer has ended or failed,
    /// for two seconds at most, and what comes meanwhile is read and dropped. Returns whether it stays: without memory, or
    /// where its socket has failed, it is to be removed.
    pub fn linger(&mut self, key: usize, now: u64) -> bool
        ensures stays { result ≡ true → lingers_of (get self.new.slab key) ≡ true }
    {
        let until = now.saturating_add(LINGER);
        let Some(it) = self.slab.get_mut(key) else {
            return false;
        };
        let conn = it.number();
        let is_shut = it.shut();
        it.is_over = true;
        it.lingers = is_shut
            && self
                .lingering
                .push_back(Lingering { key, conn, until })
                .is_ok();
        if !it.lingers {
            return false;
        }
        it.queued.ready = false;
        self.queue_ready(key);
        true
    }

    /// Lets a connection linger, or go on lingering. Returns whether it does.
    pub fn shut(&mut self, key: usize, now: u64) -> bool {
        match self.slab.get_mut(key) {
            Some(it) if it.lingers => it.queued.ready = false,
            _ => return self.linger(key, now),
        }
        self.queue_ready(key);
        true
    }

    /// Reads some of what the peer of a connection sends that lingers, and drops it. Returns whether the peer has ended.
    pub fn drop_input(&mut self, key: usize, buf: &mut [u8]) -> bool {
        let Some(it) = self.slab.get_mut(key) else {
            return false;
        };
        match it.drop_input(buf) {
            Input::More => {
                self.queue_ready(key);
                false
            }
            Input::Later => {
                it.readable = false;
                false
            }
            Input::Over => true,
        }
    }

    /// Returns the one that has lingered longest, if one lingers. Those that are gone are dropped.
    pub fn first_lingering(&mut self) -> Option<Lingering>
        ensures stands { IfSome result (λ entry. is_lingering entry (get self.new.slab entry.key) ≡ true) }
        ensures first { result ≡ first_lingering self.old.slab self.old.lingering.items }
        ensures rest { self.new ≡ record self.old { lingering = self.new.lingering } }
    {
        for _ in 0..self.lingering.len() {
            let first = self.lingering.front().copied()?;
            if self.does_linger(first) {
                return Some(first);
            }
            drop(self.lingering.pop_front());
        }
        None
    }

    /// Returns whether an entry is that of a connection that still lingers.
    fn does_linger(&self, entry: Lingering) -> bool
        ensures { result ≡ is_lingering entry (get self.now.slab entry.key) }
    {
        match self.slab.get(entry.key) {
            None => false,
            Some(it) => it.lingers && it.number() == entry.conn,
        }
    }

    /// Returns until when the first stays that may linger, or the greatest number.
    pub fn lingers_until(&self) -> u64 {
        match self.lingering.front() {
            None => u64::MAX,
            Some(first) => first.until,
        }
    }

    /// Returns one that has lingered for long enough at a moment, if there is one.
    pub fn has_lingered(&mut self, now: u64) -> Option<usize> {
        match self.first_lingering() {
            Some(first) if first.until <= now => Some(first.key),
            _ => None,
        }
    }
}
