// For how long a connection's socket takes nothing.
ghost use Rattle.std.specs.Prelude.{◌≡◌};

/// How long a connection that is to be closed may take nothing, in milliseconds.
const PATIENCE: u64 = 2000;

/// For how long a socket may take less than it is given while what its client sends waits behind that, in milliseconds:
/// nats-server's deadline for a write.
const DEADLINE: u64 = 10_000;

/// For how long a connection's socket takes nothing. All is in milliseconds.
#[derive(Clone, Copy, Debug)]
pub struct Blocked {
    /// For how long it took nothing since the connection's last Take.
    pub millis: u64,
    /// Since when it takes nothing, if it does.
    pub since: Option<u64>,
    /// From when on the connection is ended, if it is to be closed and its socket takes nothing.
    pub end_at: Option<u64>,
}

impl Blocked {
    ghost use Rattle.std.specs.Prelude.{Some, None};
    ghost use Rattle.server_socket.specs.Blocked.{end_of, is_out, is_past, not_blocked, written};

    /// Returns what is known of a socket that takes what it is given.
    pub(crate) fn new() -> Blocked
        ensures { result ≡ not_blocked }
    {
        Blocked {
            millis: 0,
            since: None,
            end_at: None,
        }
    }

    /// Returns what is known after a write: some bytes wait still, or none does.
    pub(crate) fn written(self, waits: bool, now: u64) -> Blocked
        ensures { result ≡ written waits now self }
    {
        if waits {
            let since = Some(self.since.unwrap_or(now));
            return Blocked {
                millis: self.millis,
                since,
                end_at: self.end_at,
            };
        }
        match self.since {
            None => self,
            Some(at) => Blocked {
                millis: self.millis.saturating_add(now.saturating_sub(at)),
                since: None,
                end_at: self.end_at,
            },
        }
    }

    /// Counts down the two seconds that a connection has left, and returns whether they have passed. They begin with the first
    /// call, when it is to be closed and its socket takes nothing.
    pub(crate) fn runs_out(&mut self, now: u64) -> bool
        ensures passed { result ≡ is_out self.old.end_at now }
        ensures end { self.new ≡ record self.old { end_at = Some (end_of self.old.end_at now) } }
    {
        match self.end_at {
            None => {
                self.end_at = Some(now.saturating_add(PATIENCE));
                false
            }
            Some(at) => at <= now,
        }
    }

    /// Returns whether the socket hasn't taken all that it was given for ten seconds.
    pub(crate) fn is_past(self, now: u64) -> bool
        ensures { result ≡ is_past self.since now }
    {
        matches!(self.since, Some(at) if at.saturating_add(DEADLINE) <= now)
    }
}
