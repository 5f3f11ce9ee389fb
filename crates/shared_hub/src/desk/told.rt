ghost use Rattle.std.specs.Prelude.{◌≡◌, [], None};

use std::alloc::Global;

/// What a desk tells of an event beside its answer, for whoever serves the connections.
#[derive(Drop)]
pub struct Told {
    /// The publishers that are let on, behind those of events before. Whoever acts on them takes them out.
    pub freed: Vec<u64>,
    /// When the patience with the receiver is used up that holds back the message that was offered last, if one does.
    pub until: Option<u64>,
    /// The receiver that holds that message back though the patience with it is used up, if one does.
    pub slow: Option<u64>,
    /// How many bytes that message has.
    pub size: usize,
    /// How many deliveries wait for the connection behind its Take, if that was the last event that isn't a message.
    pub rest: Option<usize>,
}

impl Told {
    /// Makes a value that tells nothing.
    pub fn new(alloc: Global) -> Told
        ensures freed { result.freed.items ≡ [] }
        ensures until { result.until ≡ None }
        ensures slow { result.slow ≡ None }
        ensures rest { result.rest ≡ None }
    {
        Told {
            freed: Vec::new(alloc),
            until: None,
            slow: None,
            size: 0,
            rest: None,
        }
    }
}
