//! For how long publishers wait for a receiver that is behind.
ghost use Rattle.std.specs.Prelude.{◌≡◌};

/// How long a receiver may be behind at once without a Take that makes room, in milliseconds.
const AT_ONCE: u64 = 2_000;

/// How much patience may be saved, in tenths of a millisecond: ten seconds.
const SAVED: u64 = 100_000;

/// The charge for a millisecond in which a receiver's socket takes nothing, in tenths of one. A millisecond in which it
/// isn't behind gives a tenth of that back.
const TAKEN: u64 = 10;

/// The patience with one receiver, in tenths of a millisecond. Each millisecond in which it isn't behind gives one back, up to
/// `SAVED`. A Take while it is behind takes ten for each in which its socket took nothing: what the server itself needs to
/// hand messages over isn't charged. Until such a Take tells, all time in which it is behind counts as charged.
#[derive(Clone, Copy, Debug)]
pub struct Patience {
    /// How much was left at its latest change.
    left: u64,
    /// When that was.
    at: u64,
    /// The moment since which the receiver is behind, if it is.
    since: Option<u64>,
    /// The most deliveries that may wait for it when its publishers are let on.
    most: usize,
}

impl Patience {
    ghost use Rattle.std.specs.Prelude.{nat_le};
    ghost use Rattle.shared_waits.specs.Patience.{left_at, is_out, out_at, fresh, begun, lowered, taken};

    /// The patience with a receiver that is found behind for the first time.
    pub(crate) fn new(now: u64, most: usize) -> Patience
        ensures { result ≡ fresh now most }
    {
        Patience {
            left: SAVED,
            at: now,
            since: Some(now),
            most,
        }
    }

    /// How much is left at a moment, if no Take comes before.
    fn left_at(&self, now: u64) -> u64
        ensures { result ≡ left_at now self.now }
    {
        let passed = now.saturating_sub(self.at);
        match self.since {
            None => self.left.saturating_add(passed).min(SAVED),
            Some(_) => self.left.saturating_sub(passed.saturating_mul(TAKEN)),
        }
    }

    /// Whether it is used up at a moment: the receiver has been behind for `AT_ONCE`, or nothing is left.
    pub(crate) fn is_out(&self, now: u64) -> bool
        ensures { result ≡ is_out now self.now }
    {
        let too_long = match self.since {
            None => false,
            Some(since) => now.saturating_sub(since) >= AT_ONCE,
        };
        too_long || self.left_at(now) == 0
    }

    /// The moment at which it is used up, if the receiver stays behind and no Take comes before.
    pub(crate) fn out_at(&self) -> u64
        ensures { result ≡ out_at self.now }
    {
        match self.since {
            None => u64::MAX,
            Some(since) => {
                let spent = self.left / TAKEN + 1;
                let spent_at = self.at.saturating_add(spent);
                since.saturating_add(AT_ONCE).min(spent_at)
            }
        }
    }

    /// The patience once the receiver is found behind. If it is behind already, nothing changes.
    pub(crate) fn begin(self, now: u64, most: usize) -> Patience
        ensures { result ≡ begun now most self }
    {
        if self.since.is_some() {
            return self;
        }
        Patience {
            left: self.left_at(now),
            at: self.at.max(now),
            since: Some(now),
            most,
        }
    }

    /// The patience whose publishers are let on with so many waiting, or with fewer if that was so before.
    pub(crate) fn lower(self, most: usize) -> Patience
        ensures { result ≡ lowered most self }
    {
        Patience {
            most: self.most.min(most),
            ..self
        }
    }

    /// The patience behind a Take that has left so many waiting, before which the receiver's socket took nothing for so many
    /// milliseconds. If the receiver is behind, that time is charged, at most what has passed since the latest change; with
    /// few enough waiting it is behind no more.
    pub(crate) fn take(self, waiting: usize, refused: u64, now: u64) -> Patience
        ensures { result ≡ taken waiting refused now self }
    {
        let Some(since) = self.since else {
            return self;
        };
        let charged = refused.min(now.saturating_sub(self.at));
        Patience {
            left: self.left.saturating_sub(charged.saturating_mul(TAKEN)),
            at: self.at.max(now),
            since: if self.has_room(waiting) {
                None
            } else {
                Some(since)
            },
            most: self.most,
        }
    }

    /// Whether few enough deliveries wait for the receiver that its publishers are let on.
    pub(crate) fn has_room(&self, waiting: usize) -> bool
        ensures { result ≡ nat_le waiting self.now.most }
    {
        waiting <= self.most
    }
}
