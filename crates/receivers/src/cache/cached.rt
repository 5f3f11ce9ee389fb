//! Whom the messages of one publisher on one subject are for.
ghost use Rattle.std.specs.Prelude.{◌≡◌, ◌≤◌, ◌+◌, [], IfErr, IfOk, IfSome, Some, false, map, true};
ghost use Rattle.permissions.specs.declared.verdict.By.{By as ByModel};
ghost use Rattle.world_subscriptions.specs.groups.Chosen.{Rising};
ghost use Rattle.receivers.specs.cache.Cached.{AreNone, IsBlank, IsFound, Tells, TellsOthers};
ghost use Rattle.receivers.specs.cache.Small.{IsSmall, count_of_others, count_with};
ghost use Rattle.receivers.specs.views.CachedViews.{count_of};
ghost use Rattle.std.specs.List.{sum_by};
ghost use Rattle.receivers.specs.cache.Key.{IsOf};

use crate::cache::key::CacheKey;
use crate::views::{CachedView, Whom, address_cached, address_chosen, address_each, whom_of};
use base::NoMemory;
use events::{Addressed, Message};
use permissions::By;
use std::alloc::Global;
use world_subscriptions::SharedSubscription;

/// How many receivers may stand in a slot, so that all slots of a cache have a bound.
const MOST_RECEIVERS: usize = 32;

/// How many bytes a subject may have to stand in one.
const MOST_BYTES: usize = 128;

/// Whom the messages of one publisher on one subject are for, as long as the sessions, the subscriptions and what permits them
/// stay as they are.
#[derive(Drop)]
pub(crate) struct CachedReceivers {
    key: CacheKey,
    whom: Whom,
    // The views of these messages behind the publisher's own, where they are known.
    others: Option<Vec<CachedView>>,
    // By what lists allow them, where it is known that they are seen in the publisher's account alone.
    alone: Option<By>,
}

/// Empties a list. Mostly it is empty already, and then nothing is called.
#[inline(always)]
pub(crate) fn clear(all: &mut Vec<Addressed>)
    ensures { all.new.items ≡ [] }
{
    if !all.is_empty() {
        all.clear();
    }
}

/// Returns whether it is known that there is no view behind the publisher's own.
fn are_none(others: &Option<Vec<CachedView>>) -> bool
    ensures { result ≡ true → AreNone others.now }
{
    match others {
        None => false,
        Some(views) => views.is_empty(),
    }
}

impl CachedReceivers {
    /// Returns what is cached of nobody's messages: it says nothing. It takes no memory.
    pub fn blank(alloc: Global) -> CachedReceivers
        ensures { IsBlank result }
    {
        CachedReceivers {
            key: CacheKey::nothing(alloc),
            whom: Whom::Various,
            others: None,
            alone: None,
        }
    }

    /// Returns that a publisher's messages on a subject may be sent to these, what is known of their views behind the publisher's
    /// own, and by what lists allow them, if there are no such views.
    pub fn of(
        alloc: Global,
        key: CacheKey,
        found: &[&SharedSubscription],
        others: Option<Vec<CachedView>>,
        allowed: Option<By>,
    ) -> CachedReceivers
        requires { Rising (map (λ s. s.now) found.now) }
        ensures { IsFound result key (map (λ s. s.now) found.now) others allowed }
    {
        let alone = if are_none(&others) { allowed } else { None };
        CachedReceivers {
            key,
            whom: whom_of(alloc, found),
            others,
            alone,
        }
    }

    /// Returns whether they are of this publisher and the subject with this text.
    #[inline(always)]
    pub fn is_of(&self, conn: u64, text: &[u8]) -> bool
        ensures { result ≡ true → IsOf self.now.key conn text.now }
    {
        self.key.is_of(conn, text)
    }

    /// Returns whether it is known that these messages are seen in the publisher's account alone.
    #[inline(always)]
    pub fn are_alone(&self) -> bool {
        self.alone.is_some()
    }

    /// Returns whether they may stand in a slot: the subject isn't long, and they are few, each view behind the publisher's own
    /// counted as one more.
    pub fn are_few(&self) -> bool
        ensures { result ≡ true → IsSmall self.now }
    {
        let bytes = self.key.subject_len();
        0 < bytes && bytes <= MOST_BYTES && self.are_at_most(MOST_RECEIVERS)
    }

    /// Returns whether there are no more receivers than so many, in all views, with one for each view behind the publisher's own.
    fn are_at_most(&self, most: usize) -> bool
        ensures { result ≡ true → count_of self.now.whom + count_of_others self.now.others ≤ most }
    {
        match most.checked_sub(self.whom.len()) {
            None => false,
            Some(left) => match &self.others {
                None => true,
                Some(views) => left_behind(left, views.as_slice()).is_some(),
            },
        }
    }

    /// Puts the deliveries of a message of its publisher on its subject in the place of what was in `all`, if each such message is for
    /// the same. Returns whether it is. `NoMemory` where memory could not be had.
    #[inline(always)]
    pub fn address(
        &self,
        message: &Message,
        word: u64,
        all: &mut Vec<Addressed>,
    ) -> Result<bool, NoMemory>
        ensures { IfOk result (λ done. done ≡ true → Tells self.now message.now word all.new.items) }
    {
        match &self.whom {
            Whom::Various => Ok(false),
            Whom::Each(receivers) => {
                clear(all);
                address_each(message, receivers.as_slice(), all)?;
                Ok(true)
            }
            Whom::One(receivers) => {
                clear(all);
                address_chosen(message, receivers.as_slice(), word, all)?;
                Ok(true)
            }
        }
    }

    /// Puts the deliveries of a message of its publisher on its subject in the place of what was in `all`, if it is known that it is
    /// seen in the publisher's account alone and by what lists allow it. Returns the latter. `NoMemory` where memory could not be
    /// had.
    #[inline(always)]
    pub fn address_alone(
        &self,
        message: &Message,
        word: u64,
        all: &mut Vec<Addressed>,
    ) -> Result<Option<By>, NoMemory>
        ensures tells { IfOk result (λ by. IfSome by (λ allowed. (self.now.alone ≡ Some allowed) × Tells self.now message.now word all.new.items)) }
        ensures of { IfErr result (λ none. (by : ByModel) × (self.now.alone ≡ Some by)) }
    {
        match self.alone {
            None => Ok(None),
            Some(by) => {
                if self.address(message, word, all)? {
                    Ok(Some(by))
                } else {
                    Ok(None)
                }
            }
        }
    }

    /// Appends the deliveries of a message of its publisher on its subject in the views behind the publisher's own, if these are
    /// known. Returns whether they are. `NoMemory` where memory could not be had: then some may be appended.
    #[inline(always)]
    pub fn address_others(
        &self,
        message: &Message,
        word: u64,
        all: &mut Vec<Addressed>,
    ) -> Result<bool, NoMemory>
        ensures tells { IfOk result (λ done. done ≡ true → TellsOthers self.now.others message.now word all.old.items all.new.items) }
        ensures same { IfOk result (λ done. done ≡ false → all.new.items ≡ all.old.items) }
    {
        match &self.others {
            None => Ok(false),
            Some(views) => {
                address_cached(message, word, views.as_slice(), all)?;
                Ok(true)
            }
        }
    }
}

/// Returns how much of a number is left behind the receivers in these views, with one for each view: `None` where they are more.
fn left_behind(most: usize, views: &[CachedView]) -> Option<usize>
    ensures { IfSome result (λ left. left + sum_by count_with views.now ≡ most) }
{
    let mut left = most;
    for view in views {
        left = left.checked_sub(view.len())?.checked_sub(1)?;
    }
    Some(left)
}
