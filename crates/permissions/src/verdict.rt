ghost use Rattle.std.specs.Prelude.{◌≡◌};

use base::Alike;

/// What allowed something.
#[derive(Clone, Copy, Debug, PartialEq, Eq)]
pub enum By {
    /// There is no allow list, so all is allowed that no deny entry refuses.
    All,
    /// The allow entry of this index.
    Index(usize),
    /// Permission to answer a request that the user was sent, whatever its lists say. No list gives it.
    Grant,
}

/// Whether something is allowed, and what decided it. Indexes count from 0 in the order of the list.
#[derive(Clone, Copy, Debug, PartialEq, Eq)]
pub enum Verdict {
    /// Allowed, and what by.
    Allowed(By),
    /// Refused by the deny entry of this index, the least that has what was asked.
    DeniedBy(usize),
    /// An allow list is given, and none of its entries that were looked at has the whole of what was asked.
    NoAllow,
    /// Of a subscription with a queue: entries with queue parts cover the pattern, this index is the least of them,
    /// and none of their queue parts has the queue.
    NoQueueAllow(usize),
}

impl Verdict {
    ghost use Rattle.permissions.specs.Verdicts.{is_allowed};

    /// Whether it is allowed, whatever by.
    pub fn is_allowed(self) -> bool
        ensures { result ≡ is_allowed self }
    {
        matches!(self, Verdict::Allowed(_))
    }
}

impl Alike for Verdict {
    fn is_like(&self, other: &Verdict) -> bool {
        *self == *other
    }
}

impl Alike for By {
    fn is_like(&self, other: &By) -> bool {
        *self == *other
    }
}
