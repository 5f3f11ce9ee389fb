ghost use Rattle.std.specs.Prelude.{◌≡◌, [], None};

use crate::desk::told::Told;
use shared_waits::runs::{Hold, Posts};
use std::alloc::Global;

/// What goes with messages of one connection that are offered in one hold of the lock.
#[derive(Drop)]
pub struct RunContext {
    /// Whose messages they are, and when they are offered.
    pub posts: Posts,
    /// How many may enter, and the answers of those that have.
    pub hold: Hold,
    /// What the desk tells of the latest event beside its answer.
    pub told: Told,
}

impl RunContext {
    /// Makes the context of no message, which tells nothing.
    pub fn new(alloc: Global) -> RunContext
        ensures answers { result.hold.answers.items ≡ [] }
        ensures freed { result.told.freed.items ≡ [] }
        ensures until { result.told.until ≡ None }
        ensures slow { result.told.slow ≡ None }
        ensures rest { result.told.rest ≡ None }
    {
        RunContext {
            posts: Posts { conn: 0, now: 0 },
            hold: Hold::new(alloc),
            told: Told::new(alloc),
        }
    }
}
