//! The verdicts of users' lists, remembered where that is cheaper than to ask them again.
ghost use Rattle.std.specs.Prelude.{◌≡◌, IfSome};
ghost use Rattle.permissions.specs.verdict_cache.Verdicts.{AreCurrent, Judgement, asked_by, publish_question};

use crate::verdict_cache::asked::{Action, Asking};
use crate::verdict_cache::cache::VerdictCache;
use crate::{Compiled, Verdict};
use std::alloc::Global;
use std::hash::RandomState;
use subjects::SubjectRef;

/// The verdicts that users' lists have given under the policy in force. Only those of lists that are dear to ask are remembered.
///
/// Nothing takes memory but what is remembered, and where that finds none, the lists are asked.
#[derive(Drop)]
pub struct Verdicts {
    alloc: Global,
    keys: RandomState,
    // How many policies were in force before this one.
    epoch: u64,
    // None until the first question to lists that are dear.
    cache: Option<VerdictCache>,
}

impl Verdicts {
    ghost use Rattle.std.specs.Prelude.{◌≡◌, IfSome};
    ghost use Rattle.permissions.specs.Verdicts.{publish_verdict, IsJustifiedPublish};
    ghost use Rattle.permissions.specs.verdict_cache.Verdicts.{AreJudged, Judges, Judgement, asked_by};

    /// Remembers nothing yet. It takes no memory.
    pub fn new(alloc: Global, keys: RandomState) -> Verdicts
        ensures { (verdict_of : Judgement) → AreJudged verdict_of result }
    {
        Verdicts {
            alloc,
            keys,
            epoch: 0,
            cache: None,
        }
    }

    /// Tells that another policy is in force. No verdict that is remembered is answered from now on.
    pub fn next_policy(&mut self)
        ensures { (old new : Judgement) → AreJudged old self.old → AreJudged new self.new }
    {
        if self.epoch == u64::MAX {
            self.cache = None;
            self.epoch = 0;
        } else {
            self.epoch += 1;
        }
    }

    /// Returns the verdict of a user's lists on a publish: that of `Compiled::publish`, as long as this name has come with the same
    /// lists since `next_policy`.
    #[inline(always)]
    #[tactic(auto, using(crate::proofs::Reason::publish_reason))]
    pub fn on_publish<'q>(
        &mut self,
        user: &'q [u8],
        rules: &Compiled,
        subject: &'q SubjectRef<'_>,
    ) -> Verdict
        ensures verdict { (verdict_of : Judgement) → AreJudged verdict_of self.old → Judges verdict_of user.now rules.now → result ≡ publish_verdict rules.now subject.now }
        ensures kept { (verdict_of : Judgement) → AreJudged verdict_of self.old → Judges verdict_of user.now rules.now → AreJudged verdict_of self.new }
        ensures justified { IsJustifiedPublish subject.now rules.now.publish (publish_verdict rules.now subject.now) }
    {
        // The tokens tell the prover that they are those of a subject.
        let _ = subject.tokens();
        let is_dear = rules.is_dear();
        if is_dear {
            if let Some(verdict) = self.find(publish_by(user, subject)) {
                return verdict;
            }
        }
        let verdict = rules.publish(subject);
        if is_dear {
            self.put(publish_by(user, subject), verdict);
        }
        verdict
    }

    /// Returns the verdict that is remembered. Apart, since few questions come here.
    #[inline(never)]
    fn find(&mut self, asking: Asking<'_>) -> Option<Verdict>
        ensures found { (verdict_of : Judgement) → AreJudged verdict_of self.old → IfSome result (λ verdict. verdict ≡ verdict_of (asked_by asking.entry)) }
        ensures kept { (verdict_of : Judgement) → AreJudged verdict_of self.old → AreJudged verdict_of self.new }
    {
        match &mut self.cache {
            None => None,
            Some(cache) => cache.find(self.epoch, asking),
        }
    }

    /// Remembers a verdict, if memory can be had for it.
    #[inline(never)]
    fn put(&mut self, asking: Asking<'_>, verdict: Verdict)
        ensures { (verdict_of : Judgement) → AreJudged verdict_of self.old → verdict ≡ verdict_of (asked_by asking.entry) → AreJudged verdict_of self.new }
    {
        match &mut self.cache {
            Some(cache) => {
                let _ = cache.put(self.epoch, asking, verdict);
            }
            None => self.cache = first_cache(self.alloc, self.keys, self.epoch, asking, verdict),
        }
    }
}

/// Returns the question of a publish.
fn publish_by<'a>(user: &'a [u8], subject: &'a SubjectRef<'_>) -> Asking<'a>
    ensures { asked_by result ≡ publish_question user.now subject.now }
{
    Asking {
        user,
        action: Action::Publish,
        text: subject.bytes(),
        queue: None,
    }
}

/// Returns a cache with one verdict, if memory can be had for it.
fn first_cache(
    alloc: Global,
    keys: RandomState,
    epoch: u64,
    asking: Asking<'_>,
    verdict: Verdict,
) -> Option<VerdictCache>
    ensures { (verdict_of : Judgement) → verdict ≡ verdict_of (asked_by asking.entry) → IfSome result (AreCurrent verdict_of epoch) }
{
    match VerdictCache::new(alloc, keys) {
        Err(_) => None,
        Ok(mut cache) => {
            let _ = cache.put(epoch, asking, verdict);
            Some(cache)
        }
    }
}
