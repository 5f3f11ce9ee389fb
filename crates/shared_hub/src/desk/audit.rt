ghost use Rattle.std.specs.Prelude.{◌≡◌, ◌+◌, sum};

use crate::desk::Run;
use base::Items;
use hub::{Hub, Segment};
use std::marker::PhantomData;

/// A run that has ended: its hub, the segments that with it are a whole history, and how many entries each seat has made.
/// Together they are the entries since the run opened.
#[derive(Drop)]
pub struct Audit<L: Run> {
    run: PhantomData<L>,
    /// The hub, with the entries that it holds.
    pub hub: Hub,
    /// The segments, in the order in which they were handed in. With what the hub holds they are its history.
    pub segments: Vec<Segment>,
    /// How many entries each seat has made, in the order in which the seats were handed in.
    pub counts: Items<u64>,
    ghost counted: { hub.world.number ≡ L.opening + sum counts },
}

impl<L: Run> Audit<L> {
    ghost use Rattle.std.specs.Prelude.{◌≡◌, ◌+◌, sum};

    /// Makes the audit of a hub whose entries since the run opened are as many as the counts say.
    pub(crate) fn of(hub: Hub, segments: Vec<Segment>, counts: Items<u64>) -> Audit<L>
        requires { hub.world.number ≡ L.opening + sum counts }
        ensures hub { result.hub ≡ hub }
        ensures segments { result.segments ≡ segments }
        ensures counts { result.counts ≡ counts }
    {
        Audit {
            run: PhantomData,
            hub,
            segments,
            counts,
        }
    }
}
