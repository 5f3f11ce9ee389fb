ghost use Rattle.std.specs.Prelude.{◌≡◌, ◌++◌, ℕ, true, false, List, Some, IfErr, IfOk, IfSome, OnOk, map, take};
ghost use Rattle.account_mappings.specs.Drawing.{mapped_by};
ghost use Rattle.account_mappings.specs.declared.drawing.Mapped.TheVariants.{To};
ghost use Rattle.events.specs.Sendings.{named};
ghost use Rattle.policy_ready.specs.imports.Views.{is_route};
ghost use Rattle.policy_ready.specs.declared.imports.rows.ImportRow.{ImportRow};
ghost use Rattle.permissions.specs.declared.verdict.By.{By as ByModel};
ghost use Rattle.world_sessions.specs.deliveries.Sessions.{session_of};
ghost use Rattle.world_sessions.specs.declared.deliveries.session.Session.{Session as SessionModel};
ghost use Rattle.world_rows.specs.declared.subscription.Subscription.{Subscription};
ghost use Rattle.receivers.specs.cache.Cached.{IsAllowed, IsAloneAt, IsAloneOf, IsCurrent, TellsOthers, IsEmpty, cached_others};
ghost use Rattle.receivers.specs.views.CachedViews.{KnowsOthers};
ghost use Rattle.receivers.specs.views.Marked.{AreMarked};
ghost use Rattle.receivers.specs.cache.Drawn.{IsSent, IsSentOn, KnowsDrawn, subject_of};
ghost use Rattle.receivers.specs.views.Receivers.{addressed_among};
ghost use Rattle.world_views.specs.addressing.Standing.{addressed_behind_in, is_for_nobody, is_nil};

use crate::addressing::naming::address_under;
use crate::addressing::standing::Standing;
use account_mappings::draw_of;
use base::NoMemory;
use bytes::Bytes;
use events::{Addressed, Message, Said};
use permissions::By;
use permissions::deny_marks::DenyMarks;
use policy_ready::imports::Rows;
use receivers::cache::{ReceiverCache, drawn_of, others_of};
use receivers::views::{Open, ReceiverSearch};
use std::alloc::Global;
use std::hash::RandomState;
use std::mem;
use subjects::{Subject, SubjectRef};
use world_sessions::{Session, Sessions};
use world_subscriptions::groups::{Routed, address_served, keep_chosen, passing_of};
use world_subscriptions::{SharedSubscription, Subscriptions};

/// A message that a session publishes.
#[derive(Clone, Copy)]
pub struct Sending<'a> {
    /// Whose message it is.
    pub publisher: &'a Session,
    /// The message as it is published.
    pub message: &'a Message,
    /// What chooses a member of each queue group.
    pub word: u64,
    /// By what lists allow it, if its account has no mappings and its subject is of no response route.
    pub allowed: Option<By>,
}

/// Another account in which a message is seen.
#[derive(Drop)]
pub struct Seen<'a> {
    /// The account's name.
    pub account: &'a Bytes,
    /// The subject that the message has there.
    pub subject: &'a Subject,
    /// The reply that it has there.
    pub reply: Said,
}

/// Returns whether there is none.
fn is_nil(found: &[&SharedSubscription]) -> bool
    ensures { result ≡ is_nil (map (λ s. s.now) found.now) }
{
    match found {
        [] => true,
        _ => false,
    }
}

/// Finds whom messages are for, and caches it for a publisher's next messages on a subject.
pub struct Receivers {
    alloc: Global,
    // Clients choose the names of queues, so they are hashed under keys that clients can't know.
    keys: RandomState,
    cache: ReceiverCache,
    // The ids that a message finds, in memory that each message uses again.
    ids: Vec<u64>,
    // The deliveries of the message that was addressed last, in memory that each message uses again.
    deliveries: Vec<Addressed>,
}

impl Drop for Receivers {
    #[inline(always)]
    fn drop(self) {
        let Self {
            alloc: _,
            keys: _,
            cache: _,
            ids: _,
            deliveries: _,
        } = self;
    }
}

impl Receivers {
    /// Caches nothing yet. It takes no memory.
    pub fn new(alloc: Global, keys: RandomState) -> Receivers
        ensures { IsEmpty result.cache }
    {
        Receivers {
            alloc,
            keys,
            cache: ReceiverCache::new(alloc),
            ids: Vec::new(alloc),
            deliveries: Vec::new(alloc),
        }
    }

    /// Clears the cache: whom the next message is for is found anew. Whoever changes the sessions, the subscriptions or
    /// what permits them calls this.
    pub fn clear_cache(&mut self)
        ensures { IsEmpty self.new.cache }
    {
        self.cache.clear();
    }

    /// Returns the keys under which the names of queues are hashed.
    #[inline(always)]
    pub fn keys(&self) -> RandomState {
        self.keys
    }

    /// Returns where it takes its memory from.
    #[inline(always)]
    pub fn allocator(&self) -> Global {
        self.alloc
    }

    /// Returns the deliveries of the message that was addressed last.
    #[inline(always)]
    pub fn deliveries(&self) -> &[Addressed]
        ensures { result.now ≡ self.now.deliveries.items }
    {
        self.deliveries.as_slice()
    }

    /// Takes the deliveries of the message that was addressed last, with their memory. `keep_memory` puts that back.
    #[inline(always)]
    pub fn take_deliveries(&mut self) -> Vec<Addressed>
        ensures all { result.items ≡ self.old.deliveries.items }
        ensures cached { self.new.cache ≡ self.old.cache }
    {
        mem::replace(&mut self.deliveries, Vec::new(self.alloc))
    }

    /// Keeps the memory of deliveries that were handed over, for those of the next message.
    #[inline(always)]
    pub fn keep_memory(&mut self, all: Vec<Addressed>)
        ensures { self.new.cache ≡ self.old.cache }
    {
        // What stands there has no memory: it is what `take_deliveries` left.
        mem::forget(mem::replace(&mut self.deliveries, all));
    }

    /// Addresses a message to those of the publisher's account that it is for, oldest subscription first: to the plain
    /// subscriptions that may be sent it, and to the member of each queue group that the word chooses. These are its `deliveries`.
    /// Their sessions don't note replies yet. The ids that its subject reaches are cached for the next messages of
    /// that subject, and its receivers for the publisher's next ones on it, with by what lists allow them, if that is known. `NoMemory`
    /// where memory could not be had.
    #[inline(always)]
    pub fn address(
        &mut self,
        sessions: &Sessions,
        subscriptions: &mut Subscriptions,
        rows: &Rows,
        marks: &DenyMarks,
        sending: Sending<'_>,
    ) -> Result<(), NoMemory>
        requires publisher { session_of sessions.now sending.publisher.now.conn ≡ Some sending.publisher.now }
        requires cached { IsCurrent rows.now sessions.now subscriptions.old self.old.cache }
        requires allowed { IfSome sending.allowed (IsAllowed sending.publisher.now.user sending.message.now.subject) }
        requires marked { AreMarked sessions.now subscriptions.old marks.now }
        ensures all { OnOk result (self.new.deliveries.items ≡ addressed_among sessions.now subscriptions.old sending.entry.publisher.now sending.entry.message.now sending.entry.word) }
        ensures others { OnOk result (KnowsOthers (cached_others self.new.cache) rows.now sessions.now subscriptions.old sending.entry.publisher.now sending.entry.message.now.subject) }
        ensures same { subscriptions.new ≡ subscriptions.old }
        ensures cached { IsCurrent rows.now sessions.now subscriptions.old self.new.cache }
    {
        let Sending {
            publisher,
            message,
            word,
            allowed,
        } = sending;
        let conn = publisher.conn;
        if self
            .cache
            .address(conn, message, word, &mut self.deliveries)?
        {
            return Ok(());
        }
        let subject = message.subject();
        subscriptions.remember(publisher.user.account.as_slice(), &subject);
        let search = ReceiverSearch {
            sessions,
            subscriptions,
            marks,
            publisher,
        };
        self.fill_cache(search, rows, &subject, allowed);
        self.address_found(search, message, word)?;
        Ok(())
    }

    /// Finds whom a message is for in its publisher's account, and addresses it to them, in the place of the last one's deliveries.
    /// `NoMemory` where memory could not be had.
    fn address_found(
        &mut self,
        search: ReceiverSearch<'_>,
        message: &Message,
        word: u64,
    ) -> Result<(), NoMemory>
        requires marked { AreMarked search.sessions.now search.subscriptions.now search.marks.now }
        ensures all { OnOk result (self.new.deliveries.items ≡ addressed_among search.entry.sessions.now search.entry.subscriptions.now search.entry.publisher.now message.now word) }
        ensures cached { self.new.cache ≡ self.old.cache }
    {
        let subject = message.subject();
        let open = Open {
            sessions: search.sessions,
            marks: search.marks,
            publisher: search.publisher,
            subject: &subject,
        };
        let routed = Routed {
            account: search.publisher.user.account.as_slice(),
            message,
            word,
        };
        address_served(
            self.keys,
            search.subscriptions,
            routed,
            &open,
            &mut self.ids,
            &mut self.deliveries,
        )?;
        Ok(())
    }

    /// Addresses a publisher's message, if it is known that it is seen in the publisher's account alone and by what lists allow it:
    /// its deliveries are then `deliveries`, and that is returned. `NoMemory` where memory could not be had.
    #[inline(always)]
    pub fn address_alone(
        &mut self,
        conn: u64,
        message: &Message,
        word: u64,
    ) -> Result<Option<By>, NoMemory>
        ensures tells { IfOk result (λ by. IfSome by (λ allowed. (rows : List ImportRow) (zs : List SessionModel) (subs : List Subscription) →
            IsCurrent rows zs subs self.old.cache → IsAloneAt rows zs subs conn message.now word allowed self.new.deliveries.items)) }
        ensures refused { IfErr result (λ none. (rows : List ImportRow) (zs : List SessionModel) (subs : List Subscription) →
            IsCurrent rows zs subs self.old.cache → (by : ByModel) × IsAloneOf rows zs conn message.now.subject by) }
        ensures cached { self.new.cache ≡ self.old.cache }
    {
        self.cache
            .address_alone(conn, message, word, &mut self.deliveries)
    }

    /// Appends the deliveries of the message that was addressed last in its views behind the publisher's own, if these are known.
    /// Returns whether they are. `NoMemory` where memory could not be had: then some may be appended. Apart, so that a message
    /// without rows doesn't need its locals.
    #[inline(never)]
    pub fn address_others(&mut self, message: &Message, word: u64) -> Result<bool, NoMemory>
        ensures tells { IfOk result (λ done. done ≡ true → TellsOthers (cached_others self.old.cache) message.now word self.old.deliveries.items self.new.deliveries.items) }
        ensures same { IfOk result (λ done. done ≡ false → self.new.deliveries.items ≡ self.old.deliveries.items) }
        ensures cached { self.new.cache ≡ self.old.cache }
    {
        let done = self
            .cache
            .address_others(message, word, &mut self.deliveries)?;
        Ok(done)
    }

    /// Appends the deliveries of the message that was addressed last to those of another account that it is for as it is seen
    /// there, oldest subscription first. A subscription that the deliveries before them end is sent nothing more. Returns whether
    /// there is nobody who may be sent it. `NoMemory` where memory could not be had: then some may be appended.
    pub fn address_seen(
        &mut self,
        sessions: &Sessions,
        subscriptions: &Subscriptions,
        marks: &DenyMarks,
        sending: Sending<'_>,
        seen: Seen<'_>,
    ) -> Result<bool, NoMemory>
        requires marked { AreMarked sessions.now subscriptions.now marks.now }
        ensures all { OnOk result (self.new.deliveries.items ≡ self.old.deliveries.items ++ addressed_behind_in sessions.now subscriptions.now self.old.deliveries.items
            sending.entry.publisher.now (named (record { subject = seen.entry.subject.now; reply = seen.entry.reply }) sending.entry.message.now) sending.entry.word seen.entry.account.now) }
        ensures nobody { IfOk result (λ nobody. nobody ≡ is_for_nobody sessions.now subscriptions.now self.old.deliveries.items
            sending.entry.publisher.now seen.entry.account.now seen.entry.subject.now) }
        ensures cached { self.new.cache ≡ self.old.cache }
    {
        let subject = seen.subject.lend();
        let standing = Standing {
            open: Open {
                sessions,
                marks,
                publisher: sending.publisher,
                subject: &subject,
            },
            before: self.deliveries.as_slice(),
        };
        let mut found = passing_of(
            self.alloc,
            subscriptions,
            seen.account.as_slice(),
            &subject,
            &standing,
            &mut self.ids,
        )?;
        let nobody = is_nil(found.as_slice());
        keep_chosen(self.alloc, self.keys, &mut found, sending.word)?;
        address_under(
            self.alloc,
            sending.message,
            seen,
            found.as_slice(),
            &mut self.deliveries,
        )?;
        Ok(nobody)
    }

    /// Puts the deliveries of a publisher's message that its account's mappings send on in the place of those of the last one, if what
    /// it is sent as is cached. Returns whether it is. `NoMemory` where memory could not be had.
    pub fn address_drawn(
        &mut self,
        conn: u64,
        message: &Message,
        word: u64,
    ) -> Result<bool, NoMemory>
        ensures tells { IfOk result (λ done. done ≡ true → (rows : List ImportRow) (zs : List SessionModel) (subs : List Subscription) (z : SessionModel) →
            IsCurrent rows zs subs self.old.cache → session_of zs conn ≡ Some z → IsSentOn rows zs subs z message.now word self.new.deliveries.items) }
        ensures cached { self.new.cache ≡ self.old.cache }
    {
        let subject = message.subject();
        let _ = subject.tokens();
        let done = self
            .cache
            .drawn
            .address(conn, subject.bytes(), message, word, &mut self.deliveries)?;
        Ok(done)
    }

    /// Caches what a publisher's next messages on a message's subject with its draw are sent as, where this is the second of them in
    /// a row: mappings send it on under this subject.
    pub fn fill_drawn(
        &mut self,
        search: ReceiverSearch<'_>,
        rows: &Rows,
        message: &Message,
        word: u64,
        subject: &Subject,
    )
        requires publisher { session_of search.sessions.now search.publisher.now.conn ≡ Some search.publisher.now }
        requires cached { IsCurrent rows.now search.sessions.now search.subscriptions.now self.old.cache }
        requires marked { AreMarked search.sessions.now search.subscriptions.now search.marks.now }
        requires mapped { mapped_by search.publisher.now.user.mappings message.now.subject word ≡ To subject.now }
        requires unrouted { is_route subject.now ≡ false }
        ensures cached { IsCurrent rows.now search.entry.sessions.now search.entry.subscriptions.now self.new.cache }
    {
        let published = message.subject();
        let _ = published.tokens();
        let conn = search.publisher.conn;
        if !self.cache.drawn.select(conn, published.bytes()) {
            return;
        }
        let known = &self.cache.drawn;
        if let Some(drawn) = drawn_of(self.alloc, known, search, rows, subject, &mut self.ids) {
            self.cache.drawn.keep(draw_of(word), drawn);
        }
    }

    /// Takes back the deliveries behind the first so many.
    pub fn take_back(&mut self, count: usize)
        ensures all { self.new.deliveries.items ≡ take count self.old.deliveries.items }
        ensures cached { self.new.cache ≡ self.old.cache }
    {
        self.deliveries.truncate(count);
    }

    /// Caches whom the publisher's next messages on a subject are for, where this is the second of them in a row, and by what lists
    /// allow them.
    fn fill_cache(
        &mut self,
        search: ReceiverSearch<'_>,
        rows: &Rows,
        subject: &SubjectRef<'_>,
        allowed: Option<By>,
    )
        requires publisher { session_of search.sessions.now search.publisher.now.conn ≡ Some search.publisher.now }
        requires cached { IsCurrent rows.now search.sessions.now search.subscriptions.now self.old.cache }
        requires allowed { IfSome allowed (IsAllowed search.publisher.now.user subject.now) }
        requires marked { AreMarked search.sessions.now search.subscriptions.now search.marks.now }
        requires others { KnowsOthers (cached_others self.old.cache) rows.now search.sessions.now search.subscriptions.now search.publisher.now subject.now }
        ensures cached { IsCurrent rows.now search.entry.sessions.now search.entry.subscriptions.now self.new.cache }
        ensures others { KnowsOthers (cached_others self.new.cache) rows.now search.entry.sessions.now search.entry.subscriptions.now search.entry.publisher.now subject.now }
    {
        let ReceiverSearch {
            sessions,
            subscriptions,
            marks,
            publisher,
        } = search;
        if !self.cache.note_asked() {
            return;
        }
        let open = Open {
            sessions,
            marks,
            publisher,
            subject,
        };
        let account = publisher.user.account.as_slice();
        if let Ok(found) = passing_of(
            self.alloc,
            subscriptions,
            account,
            subject,
            &open,
            &mut self.ids,
        ) {
            let others = others_of(self.alloc, search, rows, subject, &mut self.ids);
            self.cache
                .put(publisher.conn, subject, found.as_slice(), others, allowed);
        }
    }
}
