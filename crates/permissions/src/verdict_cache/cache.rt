use crate::Verdict;
use crate::verdict_cache::asked::{Asked, Asking};
use base::NoMemory;
use lru::LruCache;
use std::alloc::Global;
use std::hash::RandomState;
use std::num::NonZeroUsize;

/// A verdict, and the policy under which it was given, by its epoch.
#[derive(Clone, Copy, Debug, Drop)]
pub struct Remembered {
    epoch: u64,
    verdict: Verdict,
}

impl Remembered {
    ghost use Rattle.std.specs.Prelude.{◌≡◌, IfSome};

    /// Returns the verdict if it was given in this epoch.
    fn verdict_in(&self, epoch: u64) -> Option<Verdict>
        ensures { IfSome result (λ verdict. (self.now.epoch ≡ epoch) × (verdict ≡ self.now.verdict)) }
    {
        if self.epoch == epoch {
            Some(self.verdict)
        } else {
            None
        }
    }
}

/// The verdicts that were used last, at most 4,096.
///
/// An epoch is the number of a policy: each reload raises it. A verdict of an earlier epoch is never answered, and the next one
/// that is put for the same question takes its place. To look one up costs a hash of the texts, so whoever asks short lists does
/// better without.
///
/// A clause speaks of whatever verdict each question has, as under the policy in force: if those that are put in an epoch are
/// these, so are those that are found in it (`AreCurrent`).
#[derive(Drop)]
pub struct VerdictCache {
    alloc: Global,
    verdicts: LruCache<Asked, Remembered, RandomState>,
    // What is looked up, in memory that each look-up uses again.
    asked: Asked,
}

/// The most verdicts that are kept.
fn most() -> NonZeroUsize {
    match NonZeroUsize::new(4_096) {
        Some(most) => most,
        None => NonZeroUsize::MIN,
    }
}

impl VerdictCache {
    ghost use Rattle.std.specs.Prelude.{◌≡◌, ◌<◌, ℕ, IfOk, IfSome};
    ghost use Rattle.permissions.specs.verdict_cache.Verdicts.{AreCurrent, Judgement, asked_by, asked_of};

    /// Returns a cache without verdicts. Clients choose subjects, so they are hashed under keys that clients can't know.
    /// `NoMemory` where memory could not be had.
    pub fn new(alloc: Global, keys: RandomState) -> Result<VerdictCache, NoMemory>
        ensures { IfOk result (λ cache. (verdict_of : Judgement) (epoch : ℕ) → AreCurrent verdict_of epoch cache) }
    {
        let verdicts = LruCache::with_hasher(alloc, most(), keys)?;
        Ok(VerdictCache {
            alloc,
            verdicts,
            asked: Asked::nothing(alloc),
        })
    }

    /// Returns the verdict that was put for this question in this epoch, if it is kept. It is then the one that was used last. Where
    /// no memory can be had for the question, none is found.
    #[tactic(auto, using(crate::proofs::verdict_cache::Kept::found, crate::proofs::verdict_cache::Kept::promoted_current))]
    pub fn find(&mut self, epoch: u64, asking: Asking<'_>) -> Option<Verdict>
        ensures found { (verdict_of : Judgement) → AreCurrent verdict_of epoch self.old → IfSome result (λ verdict. verdict ≡ verdict_of (asked_by asking.entry)) }
        ensures kept { (verdict_of : Judgement) → AreCurrent verdict_of epoch self.old → AreCurrent verdict_of epoch self.new }
    {
        if self.asked.set(asking).is_err() {
            return None;
        }
        if let Some(known) = self.first() {
            return known.verdict_in(epoch);
        }
        match self.verdicts.get(&self.asked) {
            Some(known) => known.verdict_in(epoch),
            None => None,
        }
    }

    /// Returns the verdict that was used last, if its question is the one that is looked up. It is found without a hash.
    fn first(&self) -> Option<&Remembered>
        ensures { IfSome result (λ known. (verdict_of : Judgement) (epoch : ℕ) → AreCurrent verdict_of epoch self.now → known.now.epoch ≡ epoch → known.now.verdict ≡ verdict_of (asked_of self.now.asked)) }
    {
        match self.verdicts.peek_mru() {
            None => None,
            Some((asked, known)) => {
                if *asked == self.asked {
                    Some(known)
                } else {
                    None
                }
            }
        }
    }

    /// Puts a verdict for a question in an epoch, and takes the one that was used longest ago out where there are too many.
    /// `NoMemory` where memory could not be had: then the same verdicts are kept, and nobody needs to do anything about it.
    pub fn put(&mut self, epoch: u64, asking: Asking<'_>, verdict: Verdict) -> Result<(), NoMemory>
        ensures { (verdict_of : Judgement) → AreCurrent verdict_of epoch self.old → verdict ≡ verdict_of (asked_by asking.entry) → AreCurrent verdict_of epoch self.new }
    {
        let asked = Asked::of(self.alloc, asking)?;
        self.verdicts.put(asked, Remembered { epoch, verdict })?;
        Ok(())
    }

    /// Tells that nothing is known in a later epoch, whatever verdict each question has there. It does nothing when it runs.
    #[tactic(auto, using(crate::proofs::verdict_cache::Kept::none_outlives))]
    pub fn forgets(&self, epoch: u64, later: u64)
        requires { epoch < later }
        ensures { (old new : Judgement) → AreCurrent old epoch self.now → AreCurrent new later self.now }
    {}
}
