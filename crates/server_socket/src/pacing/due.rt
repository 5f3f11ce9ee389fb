// What is due to a connection, and when.
ghost use Rattle.std.specs.Prelude.{◌≡◌, is_some};
ghost use Rattle.server_socket.specs.pacing.Awaited.{had};
ghost use Rattle.server_socket.specs.pacing.Due.{barred, is_due, is_nothing, left_by_take, mail_lost, may_wait, more_pending, next_take, nothing, passed, taken};

use crate::pacing::awaited::Awaited;
use server_state::mail::Pending;

/// How many deliveries are taken at a time where nothing is known of their size.
const FEW: usize = 16;

/// What is due to a connection: the deliveries that are known to wait in its outbox, and what it is told behind them.
#[derive(Clone, Copy)]
pub struct Due {
    /// What is known to wait in its outbox.
    awaited: Awaited,
    /// How many deliveries are to be taken before it is told what waits behind them, while Takes leave some. `None` where
    /// nothing waits behind.
    ahead: Option<usize>,
    /// Whether it is to be drained whatever waits.
    drain: bool,
}

impl Due {
    /// Returns what is due to a connection whose client has sent nothing: nothing.
    pub fn nothing() -> Due
        ensures { result ≡ nothing }
    {
        Due {
            awaited: Awaited { count: 0, bytes: 0 },
            ahead: None,
            drain: false,
        }
    }

    /// Adds what is pending for the connection.
    pub fn note_pending(&mut self, pending: Pending)
        ensures { self.new ≡ more_pending self.old pending }
    {
        self.awaited = self.awaited.more(pending.entered, pending.bytes);
        self.drain = self.drain || pending.drain;
    }

    /// Notes that mail about the connection may be lost: something may wait.
    pub fn note_mail_lost(&mut self)
        ensures { self.new ≡ mail_lost self.old }
    {
        self.awaited = Awaited {
            count: self.awaited.count.max(1),
            bytes: self.awaited.bytes,
        };
    }

    /// Notes that a Take has asked for `most` deliveries, and returns what it has had, by the mean size.
    pub fn note_taken(&mut self, most: usize) -> Awaited
        ensures had { result ≡ had self.old.awaited self.new.awaited }
        ensures taken { self.new ≡ taken self.old most }
    {
        let before = self.awaited;
        self.awaited = before.fewer(most);
        self.ahead = match self.ahead {
            None => None,
            Some(ahead) => Some(ahead.saturating_sub(most)),
        };
        self.drain = false;
        Awaited {
            count: before.count.saturating_sub(self.awaited.count),
            bytes: before.bytes.saturating_sub(self.awaited.bytes),
        }
    }

    /// Notes how many deliveries a Take has left. Where it has left none, what waits behind comes next.
    pub fn note_left(&mut self, rest: usize)
        ensures { self.new ≡ left_by_take self.old rest }
    {
        self.ahead = match self.ahead {
            None => None,
            Some(ahead) => Some(ahead.min(rest)),
        };
        let bytes = if rest == 0 { 0 } else { self.awaited.bytes };
        self.awaited = Awaited { count: rest, bytes };
    }

    /// Puts `count` deliveries, which wait, before what the client is told next.
    pub fn bar(&mut self, count: usize)
        ensures { self.new ≡ barred self.old count }
    {
        self.awaited = Awaited {
            count: self.awaited.count.max(count),
            bytes: self.awaited.bytes,
        };
        self.ahead = Some(count);
    }

    /// Notes that the client is told what had to wait until earlier deliveries were taken.
    pub fn pass(&mut self)
        ensures { self.new ≡ passed self.old }
    {
        self.ahead = None;
    }

    /// Returns whether a Take is due: one is only if the client is connected.
    pub fn is_due(self, is_connected: bool) -> bool
        ensures { result ≡ is_due self is_connected }
    {
        (self.awaited.count > 0 || self.drain || self.ahead.unwrap_or(0) > 0) && is_connected
    }

    /// Returns how many deliveries the next Take is to ask for: few where nothing is known of their size.
    pub fn next_take(self) -> usize
        ensures { result ≡ next_take self }
    {
        if self.awaited.count == 0 && !self.drain {
            return FEW;
        }
        self.awaited.next_take()
    }

    /// Returns how many bytes are known to wait in its outbox, about.
    pub fn bytes(self) -> usize
        ensures { result ≡ self.awaited.bytes }
    {
        self.awaited.bytes
    }

    /// Returns whether something waits until earlier deliveries are taken.
    pub fn is_barred(self) -> bool
        ensures { result ≡ is_some self.ahead }
    {
        self.ahead.is_some()
    }

    /// Returns whether something waits until earlier deliveries are taken, and all of these are.
    pub fn has_passed(self) -> bool
        ensures { result ≡ is_nothing self.ahead }
    {
        match self.ahead {
            None => false,
            Some(ahead) => ahead == 0,
        }
    }

    /// Returns whether the connection is to be drained whatever waits.
    pub fn must_drain(self) -> bool
        ensures { result ≡ self.drain }
    {
        self.drain
    }

    /// Returns whether a drain may wait while others have something to read, where so many deliveries are many.
    pub fn may_wait(self, many: usize) -> bool
        ensures { result ≡ may_wait self many }
    {
        self.awaited.count < many
    }
}
