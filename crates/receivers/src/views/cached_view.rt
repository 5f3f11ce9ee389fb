//! The views of a message behind its publisher's own, cached for the next message of that publisher on that subject.
ghost use Rattle.std.specs.Prelude.{◌≡◌, ◌∷◌, [], IfOk, IfSome, OnOk, true, map};
ghost use Rattle.std.specs.List.{list_any};
ghost use Rattle.receivers.specs.views.Marked.{AreMarked};
ghost use Rattle.receivers.specs.views.CachedViews.{AreSeen, IsCachedView, Says, addressed_in, addressed_in_each, count_of, has_limit};

use crate::views::names::names_of;
use crate::views::open::Open;
use crate::views::receiver::address_each_under;
use crate::views::whom::{Whom, address_chosen_under, whom_of};
use base::{Alike, NoMemory, Shared};
use events::{Addressed, Message, Names, Said};
use permissions::deny_marks::DenyMarks;
use policy_ready::imports::{ViewItem, Way};
use std::alloc::Global;
use subjects::Subject;
use world_sessions::{Session, Sessions};
use world_subscriptions::groups::passing_of;
use world_subscriptions::{SharedSubscription, Subscriptions};

/// Whom messages are for in a view, and the names under which they are sent there. It says so of each message: it is made only
/// where none of these subscriptions has a limit, so that none can end by a delivery in an earlier view.
#[derive(Drop)]
pub struct CachedView {
    names: Shared<Names>,
    whom: Whom,
}

/// A publisher, and the tables in which its receivers are found.
#[derive(Clone, Copy)]
pub struct ReceiverSearch<'a> {
    pub sessions: &'a Sessions,
    pub subscriptions: &'a Subscriptions,
    pub marks: &'a DenyMarks,
    pub publisher: &'a Session,
}

/// Returns whether a subscription has a limit.
fn has_limit(subscription: &SharedSubscription) -> bool
    ensures { result ≡ has_limit subscription.now }
{
    subscription.most().is_some()
}

/// Returns whether one of the subscriptions has a limit.
fn have_limit(all: &[&SharedSubscription]) -> bool
    ensures { result ≡ list_any has_limit (map (λ s. s.now) all.now) }
{
    for subscription in all {
        if has_limit(subscription) {
            return true;
        }
    }
    false
}

/// Returns whether it says whom a message is for.
fn says(whom: &Whom) -> bool
    ensures { result ≡ true → Says whom.now }
{
    match whom {
        Whom::Each(_) => true,
        Whom::One(_) => true,
        Whom::Various => false,
    }
}

/// Returns whom a publisher's messages are for in an account under a subject, if each of them is for the same: `None` where one of
/// the subscriptions has a limit, or they are found for each message. `ids` is a list to work in. `NoMemory` where memory could not
/// be had.
pub fn cached_view_at(
    alloc: Global,
    search: ReceiverSearch<'_>,
    account: &[u8],
    subject: &Subject,
    ids: &mut Vec<u64>,
) -> Result<Option<CachedView>, NoMemory>
    requires marked { AreMarked search.sessions.now search.subscriptions.now search.marks.now }
    ensures { IfOk result (λ known. IsCachedView known search.entry.sessions.now search.entry.subscriptions.now search.entry.publisher.now account.now subject.now) }
{
    let local = subject.lend();
    let open = Open {
        sessions: search.sessions,
        marks: search.marks,
        publisher: search.publisher,
        subject: &local,
    };
    let found = passing_of(alloc, search.subscriptions, account, &local, &open, ids)?;
    let whom = whom_of(alloc, found.as_slice());
    if have_limit(found.as_slice()) {
        return Ok(None);
    }
    if !says(&whom) {
        return Ok(None);
    }
    let names = names_of(alloc, subject, Said::AsPublished)?;
    Ok(Some(CachedView { names, whom }))
}

/// Returns whom a publisher's messages are for in a view. `None` for a view that isn't across a stream's row, where one of the receivers
/// has a limit, or where they are found for each message.
fn cached_view(
    alloc: Global,
    search: ReceiverSearch<'_>,
    view: &ViewItem,
    ids: &mut Vec<u64>,
) -> Result<Option<CachedView>, NoMemory>
    requires marked { AreMarked search.sessions.now search.subscriptions.now search.marks.now }
    ensures { IfOk result (λ known. IfSome known (λ known. AreSeen search.entry.sessions.now search.entry.subscriptions.now search.entry.publisher.now (known ∷ []) (view.now ∷ []))) }
{
    match view {
        ViewItem::TooLong(_) => Ok(None),
        ViewItem::At {
            account,
            subject,
            way,
        } => match way {
            Way::Stream(_) => {
                let known = cached_view_at(alloc, search, account.as_slice(), subject, ids)?;
                Ok(known)
            }
            Way::Own => Ok(None),
            Way::Service(_) => Ok(None),
            Way::Response(_) => Ok(None),
        },
    }
}

/// Returns whom a publisher's messages are for in each of these views, if all are of streams and each message is for the same.
/// `NoMemory` where memory could not be had.
pub fn cached_views(
    alloc: Global,
    search: ReceiverSearch<'_>,
    views: &[ViewItem],
    ids: &mut Vec<u64>,
) -> Result<Option<Vec<CachedView>>, NoMemory>
    requires marked { AreMarked search.sessions.now search.subscriptions.now search.marks.now }
    ensures { IfOk result (λ all. IfSome all (λ known. AreSeen search.entry.sessions.now search.entry.subscriptions.now search.entry.publisher.now known.items views.now)) }
{
    let mut all = Vec::with_capacity(alloc, views.len())?;
    for view in views {
        match cached_view(alloc, search, view, ids)? {
            None => return Ok(None),
            Some(known) => all.push(known)?,
        }
    }
    Ok(Some(all))
}

impl CachedView {
    /// Returns whether the messages have this subject there.
    pub fn is_under(&self, subject: &Subject) -> bool
        ensures { result ≡ true → self.now.names.subject ≡ subject.now }
    {
        self.names.get().subject.is_like(subject)
    }

    /// Returns how many may receive in the view: all members of a queue group, though one is chosen.
    pub fn len(&self) -> usize
        ensures { result ≡ count_of self.now.whom }
    {
        self.whom.len()
    }

    /// Appends the deliveries of a message in the view. `NoMemory` where memory could not be had.
    #[inline(always)]
    pub fn address(
        &self,
        message: &Message,
        word: u64,
        all: &mut Vec<Addressed>,
    ) -> Result<(), NoMemory>
        ensures { OnOk result (all.new.items ≡ addressed_in message.now word all.old.items self.now) }
    {
        match &self.whom {
            Whom::Each(receivers) => {
                address_each_under(message, &self.names, receivers.as_slice(), all)?;
                Ok(())
            }
            Whom::One(receivers) => {
                address_chosen_under(message, &self.names, receivers.as_slice(), word, all)?;
                Ok(())
            }
            Whom::Various => Ok(()),
        }
    }
}

/// Appends the deliveries of a message in views. `NoMemory` where memory could not be had: then some may be appended.
#[inline(always)]
pub fn address_cached(
    message: &Message,
    word: u64,
    views: &[CachedView],
    all: &mut Vec<Addressed>,
) -> Result<(), NoMemory>
    ensures { OnOk result (all.new.items ≡ addressed_in_each message.now word all.old.items views.now) }
{
    for view in views {
        view.address(message, word, all)?;
    }
    Ok(())
}
