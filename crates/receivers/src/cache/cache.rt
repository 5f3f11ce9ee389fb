//! A cache of whom the messages of publishers on subjects are for.

use crate::cache::cached::CachedReceivers;
use crate::cache::drawn::DrawnCache;
use crate::cache::key::CacheKey;
use crate::views::CachedView;
use base::NoMemory;
use events::{Addressed, Message};
use permissions::By;
use std::alloc::Global;
use std::mem;
use stores::slot_cache::{SlotCache, hash_of_number};
use subjects::SubjectRef;
use world_subscriptions::SharedSubscription;

/// How many slots the cache has: half a megabyte of them.
const SLOTS: usize = 4096;

/// Caches whom the messages of publishers on subjects are for: the last ones at hand, and those before in slots, as far as they are
/// for few. It is current as long as the sessions, the subscriptions and what permits them stay as they are.
pub struct ReceiverCache {
    alloc: Global,
    // Whom the messages are for that were found or looked up last.
    last: CachedReceivers,
    // Whether the message that was addressed last is one of them.
    is_last: bool,
    // The slot from which they were taken, or into which they come.
    place: usize,
    // The hash of the publisher and the subject of the message that was addressed last, where it isn't one of them.
    hash: u64,
    slots: SlotCache<CachedReceivers>,
    /// What messages are sent as, where an account's mappings send them on.
    pub drawn: DrawnCache,
}

impl Drop for ReceiverCache {
    #[inline(always)]
    fn drop(self) {
        let Self {
            alloc: _,
            last: _,
            is_last: _,
            place: _,
            hash: _,
            slots: _,
            drawn: _,
        } = self;
    }
}

impl ReceiverCache {
    ghost use Rattle.std.specs.Prelude.{◌≡◌, ◌⊎◌, ℕ, List, None, Some, IfErr, IfOk, IfSome, map, true, false};
    ghost use Rattle.std.specs.Option.{option_copied};
    ghost use Rattle.permissions.specs.declared.verdict.By.{By as ByModel};
    ghost use Rattle.policy_ready.specs.declared.imports.rows.ImportRow.{ImportRow};
    ghost use Rattle.stores.specs.slot_cache.Slots.{value_at};
    ghost use Rattle.world_subscriptions.specs.groups.Chosen.{Rising};
    ghost use Rattle.world_sessions.specs.deliveries.Sessions.{session_of};
    ghost use Rattle.world_sessions.specs.declared.deliveries.session.Session.{Session};
    ghost use Rattle.world_rows.specs.declared.subscription.Subscription.{Subscription};
    ghost use Rattle.receivers.specs.views.Open.{open_among};
    ghost use Rattle.receivers.specs.cache.Key.{IsOf};
    ghost use Rattle.receivers.specs.views.Receivers.{addressed_among};
    ghost use Rattle.receivers.specs.cache.Cached.{IsAllowed, IsAloneAt, IsAloneOf, IsBlank, IsCurrent, IsEmpty, TellsOthers, cached_others};
    ghost use Rattle.receivers.specs.cache.Small.{IsSmall};
    ghost use Rattle.receivers.specs.views.CachedViews.{KnowsOthers};

    /// Returns an empty cache. It takes no memory.
    pub fn new(alloc: Global) -> ReceiverCache
        ensures { IsEmpty result }
    {
        ReceiverCache {
            alloc,
            last: CachedReceivers::blank(alloc),
            is_last: false,
            place: 0,
            hash: 0,
            slots: SlotCache::new(alloc, SLOTS),
            drawn: DrawnCache::new(alloc),
        }
    }

    /// Empties the cache. The next message is the first of its publisher and subject again.
    pub fn clear(&mut self)
        ensures { IsEmpty self.new }
    {
        self.last = CachedReceivers::blank(self.alloc);
        self.is_last = false;
        self.slots.clear();
        self.drawn.clear();
    }

    /// Looks in both slots of a hash, that of a connection and the text of a subject. Returns the place that has what is cached of
    /// their messages, with it.
    fn find(&self, hash: u64, conn: u64, text: &[u8]) -> Option<(usize, &CachedReceivers)>
        ensures { IfSome result (λ found. (value_at self.now.slots found.0 ≡ Some found.1.now) × IsOf found.1.now.key conn text.now) }
    {
        let (first, second) = self.slots.places_of(hash);
        match self.slots.get(first) {
            Some(cached) if cached.is_of(conn, text) => Some((first, cached)),
            _ => match self.slots.get(second) {
                Some(cached) if cached.is_of(conn, text) => Some((second, cached)),
                _ => None,
            },
        }
    }

    /// Returns the place of a hash into which something is put: the second one where only the first is taken, else the first.
    fn place_for(&self, hash: u64) -> usize {
        let (first, second) = self.slots.places_of(hash);
        if self.slots.get(first).is_some() && self.slots.get(second).is_none() {
            second
        } else {
            first
        }
    }

    /// Puts what is at hand into its slot, if it is for few, else drops it. Then nothing is at hand.
    fn put_back(&mut self)
        ensures last { IsBlank self.new.last }
        ensures slots { (place : ℕ) → (value_at self.new.slots place ≡ value_at self.old.slots place) ⊎ (value_at self.new.slots place ≡ Some self.old.last) }
        ensures small { (place : ℕ) → (value_at self.new.slots place ≡ value_at self.old.slots place) ⊎ IsSmall self.old.last }
        ensures drawn { self.new.drawn ≡ self.old.drawn }
    {
        let last = mem::replace(&mut self.last, CachedReceivers::blank(self.alloc));
        if last.are_few() {
            let _ = self.slots.put(self.place, last);
        }
    }

    /// Looks for whom a publisher's messages on the subject with this text are for, and has it at hand then.
    #[inline(always)]
    fn select(&mut self, conn: u64, text: &[u8])
        ensures of { self.new.is_last ≡ true → IsOf self.new.last.key conn text.now }
        ensures cached { (rows : List ImportRow) (zs : List Session) (subs : List Subscription) → IsCurrent rows zs subs self.old → IsCurrent rows zs subs self.new }
    {
        if self.last.is_of(conn, text) {
            self.is_last = true;
        } else {
            self.look_for(conn, text);
        }
    }

    /// Looks in the slots for whom these messages are for, and has it at hand then.
    #[inline(never)]
    fn look_for(&mut self, conn: u64, text: &[u8])
        ensures of { self.new.is_last ≡ true → IsOf self.new.last.key conn text.now }
        ensures cached { (rows : List ImportRow) (zs : List Session) (subs : List Subscription) → IsCurrent rows zs subs self.old → IsCurrent rows zs subs self.new }
    {
        let hash = hash_of_number(conn, text);
        let place = match self.find(hash, conn, text) {
            None => None,
            Some((place, _)) => Some(place),
        };
        self.hash = hash;
        self.is_last = false;
        if let Some(place) = place {
            if let Some(found) = self.slots.take(place) {
                self.put_back();
                self.last = found;
                self.place = place;
                self.is_last = true;
            }
        }
    }

    /// Puts the deliveries of a publisher's message in the place of what was in `all`, if its receivers are cached. Returns whether
    /// it did: not where they are found for each message. `NoMemory` where memory could not be had: then `all` no longer has what it
    /// had.
    #[tactic(auto, unfolding(crate::specs::cache::Cached::cached_others))]
    #[inline(always)]
    pub fn address(
        &mut self,
        conn: u64,
        message: &Message,
        word: u64,
        all: &mut Vec<Addressed>,
    ) -> Result<bool, NoMemory>
        ensures tells { IfOk result (λ done. done ≡ true → (rows : List ImportRow) (zs : List Session) (subs : List Subscription) (z : Session) →
            IsCurrent rows zs subs self.old → session_of zs conn ≡ Some z → all.new.items ≡ addressed_among zs subs z message.now word) }
        ensures others { (rows : List ImportRow) (zs : List Session) (subs : List Subscription) (z : Session) →
            IsCurrent rows zs subs self.old → session_of zs conn ≡ Some z → KnowsOthers (cached_others self.new) rows zs subs z message.now.subject }
        ensures cached { (rows : List ImportRow) (zs : List Session) (subs : List Subscription) → IsCurrent rows zs subs self.old → IsCurrent rows zs subs self.new }
    {
        let subject = message.subject();
        let _ = subject.tokens();
        self.select(conn, subject.bytes());
        if !self.is_last {
            return Ok(false);
        }
        let done = self.last.address(message, word, all)?;
        Ok(done)
    }

    /// Puts the deliveries of a publisher's message in the place of what was in `all`, if it is known that it is seen in the
    /// publisher's account alone and by what lists allow it. Returns the latter. `NoMemory` where memory could not be had.
    #[inline(always)]
    pub fn address_alone(
        &self,
        conn: u64,
        message: &Message,
        word: u64,
        all: &mut Vec<Addressed>,
    ) -> Result<Option<By>, NoMemory>
        ensures tells { IfOk result (λ by. IfSome by (λ allowed. (rows : List ImportRow) (zs : List Session) (subs : List Subscription) →
            IsCurrent rows zs subs self.now → IsAloneAt rows zs subs conn message.now word allowed all.new.items)) }
        ensures refused { IfErr result (λ none. (rows : List ImportRow) (zs : List Session) (subs : List Subscription) →
            IsCurrent rows zs subs self.now → (by : ByModel) × IsAloneOf rows zs conn message.now.subject by) }
    {
        if !self.last.are_alone() {
            return Ok(None);
        }
        let subject = message.subject();
        let _ = subject.tokens();
        let text = subject.bytes();
        if self.last.is_of(conn, text) {
            return self.last.address_alone(message, word, all);
        }
        match self.find(hash_of_number(conn, text), conn, text) {
            None => Ok(None),
            Some((_, cached)) => cached.address_alone(message, word, all),
        }
    }

    /// Appends the deliveries of the message that was addressed last in the views behind the publisher's own, if these are
    /// known. Returns whether they are. `NoMemory` where memory could not be had: then some may be appended.
    #[tactic(auto, unfolding(crate::specs::cache::Cached::cached_others))]
    #[inline(always)]
    pub fn address_others(
        &self,
        message: &Message,
        word: u64,
        all: &mut Vec<Addressed>,
    ) -> Result<bool, NoMemory>
        ensures tells { IfOk result (λ done. done ≡ true → TellsOthers (cached_others self.now) message.now word all.old.items all.new.items) }
        ensures same { IfOk result (λ done. done ≡ false → all.new.items ≡ all.old.items) }
    {
        if !self.is_last {
            return Ok(false);
        }
        let done = self.last.address_others(message, word, all)?;
        Ok(done)
    }

    /// Notes the message that was addressed last, if its receivers aren't cached. Returns whether they are to be found and put here:
    /// the message that was noted before at its place had the same publisher and subject, as far as half of their hash tells.
    #[tactic(auto, unfolding(crate::specs::cache::Cached::cached_others))]
    pub fn note_asked(&mut self) -> bool
        ensures others { cached_others self.new ≡ cached_others self.old }
        ensures cached { (rows : List ImportRow) (zs : List Session) (subs : List Subscription) → IsCurrent rows zs subs self.old → IsCurrent rows zs subs self.new }
    {
        if self.is_last {
            return false;
        }
        self.slots.note_asked(self.hash)
    }

    /// Caches that the publisher's messages on the subject of the message that was addressed last may be sent to these, what is known
    /// of their views behind the publisher's own, and by what lists allow them, if there are no such views. Without memory it
    /// caches nothing.
    #[tactic(auto, unfolding(crate::specs::cache::Cached::cached_others))]
    pub fn put(
        &mut self,
        conn: u64,
        subject: &SubjectRef<'_>,
        found: &[&SharedSubscription],
        others: Option<Vec<CachedView>>,
        allowed: Option<By>,
    )
        requires { Rising (map (λ s. s.now) found.now) }
        ensures { (rows : List ImportRow) (zs : List Session) (subs : List Subscription) (z : Session) →
            IsCurrent rows zs subs self.old → session_of zs conn ≡ Some z → map (λ s. s.now) found.now ≡ open_among zs subs z z.user.account subject.now →
            KnowsOthers others rows zs subs z subject.now → IfSome allowed (IsAllowed z.user subject.now) →
            IsCurrent rows zs subs self.new × KnowsOthers (cached_others self.new) rows zs subs z subject.now }
    {
        self.is_last = false;
        let _ = subject.tokens();
        if let Ok(key) = CacheKey::of(self.alloc, conn, subject.bytes()) {
            self.put_back();
            self.place = self.place_for(self.hash);
            self.last = CachedReceivers::of(self.alloc, key, found, others, allowed);
            self.is_last = true;
        }
    }
}
