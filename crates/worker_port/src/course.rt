/// Why the latest message of a turn was held back.
#[derive(Clone, Copy, Debug, PartialEq, Eq)]
pub enum Why {
    /// A receiver has no room. At this moment it is out of patience, and the message may be offered again.
    Receiver(u64),
    /// Too much waits for this receiver, with which there is no patience any more: once it is closed, the message may be
    /// offered again.
    Slow(u64),
    /// The round's share is spent.
    Share,
}

/// How far a round and a turn of it have come.
#[derive(Clone, Copy, Debug)]
pub struct Course {
    /// How many deliveries are left of a round's share.
    pub share: usize,
    /// Why the latest message of this turn was held back, if one was.
    pub why: Option<Why>,
    /// Whether the connection of this turn has had what waited for it, and no event of it came since.
    pub has_passed: bool,
    /// Whether an event has been entered in this turn.
    pub has_entered: bool,
}
