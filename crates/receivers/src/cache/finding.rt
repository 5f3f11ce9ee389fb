//! What is known of a publisher's messages on a subject, as it is found in the tables.
ghost use Rattle.std.specs.Prelude.{◌≡◌, ℕ, false, List, Some, IfOk, IfSome};
ghost use Rattle.policy_ready.specs.imports.Views.{is_route};
ghost use Rattle.world_sessions.specs.deliveries.Sessions.{session_of};
ghost use Rattle.receivers.specs.views.Marked.{AreMarked};
ghost use Rattle.receivers.specs.views.CachedViews.{KnowsOthers};
ghost use Rattle.receivers.specs.cache.Drawn.{IsSent, KnowsDrawn, subject_of};

use crate::cache::drawn::{Drawn, DrawnCache};
use crate::views::{CachedView, ReceiverSearch, cached_view_at, cached_views};
use base::{NoMemory, Shared};
use policy_ready::imports::Rows;
use std::alloc::Global;
use subjects::{Subject, SubjectRef};

/// Returns what is known of the views of a publisher's messages on a subject behind its own. `NoMemory` where memory could not be
/// had.
fn find_others(
    alloc: Global,
    search: ReceiverSearch<'_>,
    rows: &Rows,
    subject: &SubjectRef<'_>,
    ids: &mut Vec<u64>,
) -> Result<Option<Vec<CachedView>>, NoMemory>
    requires marked { AreMarked search.sessions.now search.subscriptions.now search.marks.now }
    ensures { IfOk result (λ others. KnowsOthers others rows.now search.entry.sessions.now search.entry.subscriptions.now search.entry.publisher.now subject.now) }
{
    let account = search.publisher.user.account.as_slice();
    let others = rows.crossings(alloc, account, subject)?;
    let known = cached_views(alloc, search, others.as_slice(), ids)?;
    Ok(known)
}

/// Returns what is known of these views. Without memory they aren't known.
pub fn others_of(
    alloc: Global,
    search: ReceiverSearch<'_>,
    rows: &Rows,
    subject: &SubjectRef<'_>,
    ids: &mut Vec<u64>,
) -> Option<Vec<CachedView>>
    requires marked { AreMarked search.sessions.now search.subscriptions.now search.marks.now }
    ensures { KnowsOthers result rows.now search.entry.sessions.now search.entry.subscriptions.now search.entry.publisher.now subject.now }
{
    match find_others(alloc, search, rows, subject, ids) {
        Ok(known) => known,
        Err(_) => None,
    }
}

/// Returns what a publisher's messages are sent as under a subject, if each is for the same. `NoMemory` where memory could not be
/// had.
fn find_drawn(
    alloc: Global,
    search: ReceiverSearch<'_>,
    rows: &Rows,
    subject: &Subject,
    ids: &mut Vec<u64>,
) -> Result<Option<Shared<Drawn>>, NoMemory>
    requires marked { AreMarked search.sessions.now search.subscriptions.now search.marks.now }
    requires unrouted { is_route subject.now ≡ false }
    ensures { IfOk result (λ found. IfSome found (λ drawn. IsSent rows.now search.entry.sessions.now search.entry.subscriptions.now search.entry.publisher.now drawn × (subject_of drawn ≡ subject.now))) }
{
    let account = search.publisher.user.account.as_slice();
    match cached_view_at(alloc, search, account, subject, ids)? {
        None => Ok(None),
        Some(own) => match find_others(alloc, search, rows, &subject.lend(), ids)? {
            None => Ok(None),
            Some(others) => Ok(Some(Shared::new(alloc, Drawn { own, others })?)),
        },
    }
}

/// Returns what a publisher's messages are sent as under a subject, as it is known of some draw or is found.
fn drawn_under(
    alloc: Global,
    known: &DrawnCache,
    search: ReceiverSearch<'_>,
    rows: &Rows,
    subject: &Subject,
    ids: &mut Vec<u64>,
) -> Result<Option<Shared<Drawn>>, NoMemory>
    requires marked { AreMarked search.sessions.now search.subscriptions.now search.marks.now }
    requires unrouted { is_route subject.now ≡ false }
    ensures { IfOk result (λ found. IfSome found (λ drawn. (conn : ℕ) (text : List ℕ) → KnowsDrawn known.now.by_draw.items rows.now conn text search.entry.sessions.now search.entry.subscriptions.now
        → session_of search.entry.sessions.now conn ≡ Some search.entry.publisher.now → IsSent rows.now search.entry.sessions.now search.entry.subscriptions.now search.entry.publisher.now drawn × (subject_of drawn ≡ subject.now))) }
{
    match known.find_under(subject) {
        Some(drawn) => Ok(Some(drawn.again()?)),
        None => find_drawn(alloc, search, rows, subject, ids),
    }
}

/// Returns what a publisher's messages are sent as under a subject. Without memory it isn't known.
pub fn drawn_of(
    alloc: Global,
    known: &DrawnCache,
    search: ReceiverSearch<'_>,
    rows: &Rows,
    subject: &Subject,
    ids: &mut Vec<u64>,
) -> Option<Shared<Drawn>>
    requires marked { AreMarked search.sessions.now search.subscriptions.now search.marks.now }
    requires unrouted { is_route subject.now ≡ false }
    ensures { IfSome result (λ drawn. (conn : ℕ) (text : List ℕ) → KnowsDrawn known.now.by_draw.items rows.now conn text search.entry.sessions.now search.entry.subscriptions.now
        → session_of search.entry.sessions.now conn ≡ Some search.entry.publisher.now → IsSent rows.now search.entry.sessions.now search.entry.subscriptions.now search.entry.publisher.now drawn × (subject_of drawn ≡ subject.now)) }
{
    match drawn_under(alloc, known, search, rows, subject, ids) {
        Ok(drawn) => drawn,
        Err(_) => None,
    }
}
