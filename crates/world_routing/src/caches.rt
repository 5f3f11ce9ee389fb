//! What a publish remembers for the next ones.
use permissions::deny_marks::DenyMarks;
use permissions::verdict_cache::Verdicts;
use std::alloc::Global;
use std::hash::RandomState;
use world_views::addressing::Receivers;

/// What is kept so that publishes are answered faster: whom messages are for, verdicts of users' lists, and deny marks.
pub struct Caches {
    /// Whom messages are for.
    pub receivers: Receivers,
    /// The verdicts of users' lists.
    pub verdicts: Verdicts,
    /// Which deny entries may refuse a standing subscription a message.
    pub marks: DenyMarks,
}

impl Drop for Caches {
    #[inline(always)]
    fn drop(self) {
        let Self {
            receivers: _,
            verdicts: _,
            marks: _,
        } = self;
    }
}

impl Caches {
    ghost use Rattle.std.specs.Prelude.{◌≡◌, []};
    ghost use Rattle.policy_doc.specs.declared.document.PolicyDoc.{PolicyDoc};
    ghost use Rattle.receivers.specs.cache.Cached.{IsEmpty};
    ghost use Rattle.world_routing.specs.Remembered.{AreRemembered};

    /// Remembers nothing yet. It takes no memory.
    pub fn new(alloc: Global, keys: RandomState) -> Caches
        ensures receivers { IsEmpty result.receivers.cache }
        ensures verdicts { (doc : PolicyDoc) → AreRemembered doc result.verdicts }
        ensures marks { result.marks ≡ [] }
    {
        Caches {
            receivers: Receivers::new(alloc, keys),
            verdicts: Verdicts::new(alloc, keys),
            marks: DenyMarks::new(alloc),
        }
    }
}
