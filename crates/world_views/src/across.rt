//! A message addressed in all its views: its publisher's own, those across import rows, and that of the account that has asked.
ghost use Rattle.std.specs.Prelude.{◌≡◌, ◌==◌, ◌++◌, ℕ, List, [], All, IfOk, IfSome, OnOk, None, Some, length, true, false, if◌then◌else◌};
ghost use Rattle.policy_ready.specs.imports.Views.{is_route, is_same, rows_of};
ghost use Rattle.policy_ready.specs.declared.imports.view.ViewItem.TheVariants.{At};
ghost use Rattle.policy_ready.specs.declared.imports.view.Way.TheVariants.{Own};
ghost use Rattle.service_exporter.specs.Routes.{Exporter};
ghost use Rattle.service_routes.specs.Routes.{Name, pruned, spent};
ghost use Rattle.world_sessions.specs.deliveries.Sessions.{session_of};
ghost use Rattle.receivers.specs.views.Marked.{AreMarked};
ghost use Rattle.receivers.specs.cache.Cached.{IsAllowed, IsCurrent};
ghost use Rattle.world_views.specs.Changing.{changed_by, opened_each, AreNoted, IsNotedAt};
ghost use Rattle.world_views.specs.Requests.{response_by};
ghost use Rattle.world_views.specs.Occasions.{crossings_under, in_each, published, published_under, reports_in_each, requesters_on, seen_in};
ghost use Rattle.world_views.specs.Occasions.{spent_on, tables_under};
ghost use Rattle.world_views.specs.Viewing.{addressing, reports_in, routes_after, seen_with, AreAddressed, AreNotedIn};

use crate::addressing::{Receivers, Sending};
use crate::changing::RouteChange;
use crate::viewing::{Found, Occasion, Report, address_each, address_in};
use base::{Alike, Boxed, Copying, NoMemory};
use bytes::Bytes;
use events::Said;
use permissions::deny_marks::DenyMarks;
use policy_ready::CompiledPolicy;
use policy_ready::imports::Rows;
use service_routes::{Route, Routes};
use std::alloc::Global;
use subjects::{Subject, SubjectRef};
use world_sessions::Sessions;
use world_subscriptions::Subscriptions;

/// A message that a session publishes at a moment, under a policy.
#[derive(Clone, Copy)]
pub struct Publishing<'a> {
    pub ready: &'a CompiledPolicy,
    pub sending: Sending<'a>,
    pub now: u64,
    /// The deny marks of all that stand.
    pub marks: &'a DenyMarks,
}

/// What is told of a message between its deliveries, and what becomes of response routes. It stands in a block, since that nothing is
/// told is handed on for each message.
#[derive(Drop)]
pub struct Told {
    /// The rows across which it isn't seen.
    pub reports: Vec<Report>,
    /// The routes that it opens, or the one that it ends.
    pub routes: RouteChange,
}

/// Nothing is found yet. It takes no memory.
fn nothing_found(alloc: Global) -> Found
    ensures reports { result.reports.items ≡ [] }
    ensures openings { result.openings.items ≡ [] }
{
    Found {
        reports: Vec::new(alloc),
        openings: Vec::new(alloc),
    }
}

/// Returns what is told, if there is anything.
fn if_any(alloc: Global, found: Found) -> Result<Option<Boxed<Told>>, NoMemory>
    ensures reports { IfOk result (λ told. reports_in told ≡ found.reports.items) }
    ensures opened { IfOk result (λ told. (all : List (Name × Exporter)) → routes_after told all
        ≡ opened_each found.openings.items all) }
    ensures noted { IfOk result (λ told. (now : ℕ) → All (IsNotedAt now) found.openings.items
        → AreNotedIn now told) }
{
    let Found { reports, openings } = found;
    if reports.is_empty() && openings.is_empty() {
        Ok(None)
    } else {
        let told = Told {
            reports,
            routes: RouteChange::Opened(openings),
        };
        Ok(Some(Boxed::new(alloc, told)?))
    }
}

/// Appends the deliveries of a message in its views across rows to those of the receivers, and returns what is told between them and
/// which routes are to be opened. `NoMemory` where memory could not be had: then some may be appended. Apart, so that a message
/// pays nothing for it whose views are known.
#[inline(never)]
fn address_across(
    occasion: Occasion<'_>,
    receivers: &mut Receivers,
    routes: &mut Routes,
    subject: &SubjectRef<'_>,
) -> Result<Option<Boxed<Told>>, NoMemory>
    requires marked { AreMarked occasion.sessions.now occasion.subscriptions.now occasion.marks.now }
    ensures all { OnOk result (receivers.new.deliveries.items
        ≡ (in_each occasion.entry routes.old.exporters (addressing receivers.old.deliveries.items [])
        (crossings_under occasion.entry subject.now)).deliveries) }
    ensures reports { IfOk result (λ told. reports_in told
        ≡ reports_in_each occasion.entry routes.old.exporters (addressing receivers.old.deliveries.items [])
        (crossings_under occasion.entry subject.now)) }
    ensures opened { IfOk result (λ told. routes_after told (pruned occasion.entry.now routes.old.exporters)
        ≡ opened_each (in_each occasion.entry routes.old.exporters (addressing receivers.old.deliveries.items [])
        (crossings_under occasion.entry subject.now)).openings
        (pruned occasion.entry.now routes.old.exporters)) }
    ensures noted { IfOk result (λ told. AreNotedIn occasion.entry.now told) }
    ensures cached { receivers.new.cache ≡ receivers.old.cache }
    ensures routes { routes.new.exporters ≡ routes.old.exporters }
{
    let account = occasion.sending.publisher.user.account.as_slice();
    let others = occasion
        .ready
        .rows()
        .crossings(occasion.alloc, account, subject)?;
    let mut found = nothing_found(occasion.alloc);
    let views = others.as_slice();
    address_each(occasion, receivers, routes, views, &mut found)?;
    let told = if_any(occasion.alloc, found)?;
    Ok(told)
}

/// Appends the deliveries of a response in the account that has asked, where the publisher's account has a living route of the
/// message's subject. `NoMemory` where memory could not be had: then some may be appended.
#[inline(never)]
fn address_on_reply(
    occasion: Occasion<'_>,
    receivers: &mut Receivers,
    routes: &Routes,
) -> Result<Option<Boxed<Told>>, NoMemory>
    requires marked { AreMarked occasion.sessions.now occasion.subscriptions.now occasion.marks.now }
    ensures all { OnOk result (receivers.new.deliveries.items
        ≡ (in_each occasion.entry routes.now.exporters (addressing receivers.old.deliveries.items [])
        (requesters_on occasion.entry routes.now.exporters occasion.entry.sending.message.now.subject)).deliveries) }
    ensures reports { IfOk result (λ told. reports_in told ≡ []) }
    ensures spent { IfOk result (λ told. routes_after told (pruned occasion.entry.now routes.now.exporters)
        ≡ spent_on occasion.entry routes.now.exporters occasion.entry.sending.message.now.subject) }
    ensures noted { IfOk result (λ told. AreNotedIn occasion.entry.now told) }
    ensures cached { receivers.new.cache ≡ receivers.old.cache }
{
    let answered = RouteChange::Answered {
        exporter: occasion.sending.publisher.user.account.clone()?,
        message: occasion.sending.message.again()?,
    };
    let subject = occasion.sending.message.subject();
    let told = address_answer(occasion, receivers, routes, &subject, answered)?;
    Ok(told)
}

/// Appends the deliveries of a response that is sent on under a subject in the account that has asked, where the publisher's account
/// has a living route of that subject; then `answered` is what becomes of routes. `NoMemory` where memory could not be had: then
/// some may be appended.
fn address_answer(
    occasion: Occasion<'_>,
    receivers: &mut Receivers,
    routes: &Routes,
    subject: &SubjectRef<'_>,
    answered: RouteChange,
) -> Result<Option<Boxed<Told>>, NoMemory>
    requires marked { AreMarked occasion.sessions.now occasion.subscriptions.now occasion.marks.now }
    requires ends { (all : List (Name × Exporter)) → changed_by answered all
        ≡ spent occasion.sending.publisher.now.user.account subject.now all }
    requires noted { AreNoted occasion.now answered }
    ensures all { OnOk result (receivers.new.deliveries.items
        ≡ (in_each occasion.entry routes.now.exporters (addressing receivers.old.deliveries.items [])
        (requesters_on occasion.entry routes.now.exporters subject.now)).deliveries) }
    ensures reports { IfOk result (λ told. reports_in told ≡ []) }
    ensures spent { IfOk result (λ told. routes_after told (pruned occasion.entry.now routes.now.exporters)
        ≡ spent_on occasion.entry routes.now.exporters subject.now) }
    ensures noted { IfOk result (λ told. AreNotedIn occasion.entry.now told) }
    ensures cached { receivers.new.cache ≡ receivers.old.cache }
{
    let exporter = &occasion.sending.publisher.user.account;
    match routes.find_living(exporter, subject, occasion.now) {
        None => Ok(None),
        Some(route) => {
            address_unless_own(occasion, receivers, route, subject)?;
            let told = Told {
                reports: Vec::new(occasion.alloc),
                routes: answered,
            };
            Ok(Some(Boxed::new(occasion.alloc, told)?))
        }
    }
}

/// Appends the deliveries of the response on a route in the account that has asked, unless that is the message's own view.
fn address_unless_own(
    occasion: Occasion<'_>,
    receivers: &mut Receivers,
    route: &Route,
    subject: &SubjectRef<'_>,
) -> Result<(), NoMemory>
    requires marked { AreMarked occasion.sessions.now occasion.subscriptions.now occasion.marks.now }
    ensures all { OnOk result (receivers.new.deliveries.items
        ≡ (if is_same (At occasion.entry.sending.publisher.now.user.account subject.now Own) (response_by route.now)
        then receivers.old.deliveries.items
        else receivers.old.deliveries.items
        ++ seen_in occasion.entry receivers.old.deliveries.items
        (seen_with route.now.reply None occasion.entry.sending.message.now) route.now.row.importer)) }
    ensures cached { receivers.new.cache ≡ receivers.old.cache }
{
    let exporter = &occasion.sending.publisher.user.account;
    if is_own(exporter, subject, route) {
        return Ok(());
    }
    address_in(
        occasion,
        receivers,
        route.requester(),
        route.reply(),
        Said::Nothing,
    )?;
    Ok(())
}

/// Returns whether a response is seen in its publisher's own account, under its own subject.
fn is_own(account: &Bytes, subject: &SubjectRef<'_>, route: &Route) -> bool
    ensures { result ≡ is_same (At account.now subject.now Own) (response_by route.now) }
{
    *account == *route.requester() && subject.is_like(&route.reply().lend())
}

/// Returns whether a subject begins with the first byte of the token `_R_`. Most don't.
pub fn may_be_route(subject: &SubjectRef<'_>) -> bool
    ensures { result ≡ false → is_route subject.now ≡ false }
{
    match subject.bytes().first() {
        None => false,
        Some(first) => *first == b'_',
    }
}

/// Returns whether a subject begins with the token `_R_`. Apart, so that a message doesn't need its locals.
#[inline(never)]
pub fn is_route(subject: &SubjectRef<'_>) -> bool
    ensures { result ≡ is_route subject.now }
{
    if !may_be_route(subject) {
        return false;
    }
    let mut tokens = subject.tokens();
    match tokens.next_piece() {
        None => false,
        Some(token) => token == b"_R_".as_slice(),
    }
}

/// Returns whether there is neither a row nor a route: then each message is seen in its publisher's account alone.
#[inline(always)]
fn is_own_alone(rows: &Rows, routes: &Routes) -> bool
    ensures { result ≡ true → ((length rows.now == 0) ≡ true) × (routes.now.exporters ≡ []) }
{
    if rows.is_empty() {
        routes.is_empty()
    } else {
        false
    }
}

/// Puts a message's deliveries in all its views into `receivers`, in the place of what was there. Returns the import rows across
/// which it isn't seen, and the response routes that it opens or ends: `None` if there are neither. No route changes yet.
/// `NoMemory` where memory could not be had.
#[inline(always)]
pub fn address_all<'p>(
    sessions: &'p Sessions,
    subscriptions: &mut Subscriptions,
    receivers: &mut Receivers,
    routes: &mut Routes,
    publishing: Publishing<'p>,
) -> Result<Option<Boxed<Told>>, NoMemory>
    requires publisher { session_of sessions.now publishing.sending.publisher.now.conn
        ≡ Some publishing.sending.publisher.now }
    requires cached { IsCurrent (rows_of publishing.ready.now) sessions.now subscriptions.old receivers.old.cache }
    requires allowed { IfSome publishing.sending.allowed
        (IsAllowed publishing.sending.publisher.now.user publishing.sending.message.now.subject) }
    requires marked { AreMarked sessions.now subscriptions.old publishing.marks.now }
    ensures addressed { IfOk result (λ told. AreAddressed
        (tables_under publishing.entry sessions.now subscriptions.old routes.old.exporters)
        (published publishing.entry.sending) receivers.new.deliveries.items told) }
    ensures same { subscriptions.new ≡ subscriptions.old }
    ensures cached { IsCurrent (rows_of publishing.entry.ready.now) sessions.now subscriptions.old receivers.new.cache }
    ensures routes { routes.new.exporters ≡ routes.old.exporters }
{
    let Publishing {
        ready,
        sending,
        now,
        marks,
    } = publishing;
    subscriptions.prove_invariant();
    receivers.address(sessions, subscriptions, ready.rows(), marks, sending)?;
    if is_own_alone(ready.rows(), routes) {
        return Ok(None);
    }
    let occasion = Occasion {
        alloc: receivers.allocator(),
        sessions,
        subscriptions,
        marks,
        ready,
        sending,
        now,
    };
    let subject = sending.message.subject();
    if is_route(&subject) {
        let told = address_on_reply(occasion, receivers, routes)?;
        return Ok(told);
    }
    if receivers.address_others(sending.message, sending.word)? {
        return Ok(None);
    }
    let told = address_across(occasion, receivers, routes, &subject)?;
    Ok(told)
}

/// Addresses a message that its account's mappings send on under another subject, in all its views. These are the deliveries of the
/// receivers. Returns what is told between them, and what becomes of routes. `NoMemory` where memory could not be had. Apart, since
/// few messages are so.
#[inline(never)]
pub fn address_under<'p>(
    sessions: &'p Sessions,
    subscriptions: &'p Subscriptions,
    receivers: &mut Receivers,
    routes: &mut Routes,
    publishing: Publishing<'p>,
    subject: &Subject,
) -> Result<Option<Boxed<Told>>, NoMemory>
    requires marked { AreMarked sessions.now subscriptions.now publishing.marks.now }
    ensures addressed { IfOk result (λ told. AreAddressed
        (tables_under publishing.entry sessions.now subscriptions.now routes.old.exporters)
        (published_under subject.now publishing.entry.sending) receivers.new.deliveries.items told) }
    ensures cached { receivers.new.cache ≡ receivers.old.cache }
    ensures routes { routes.new.exporters ≡ routes.old.exporters }
{
    let Publishing {
        ready,
        sending,
        now,
        marks,
    } = publishing;
    let occasion = Occasion {
        alloc: receivers.allocator(),
        sessions,
        subscriptions,
        marks,
        ready,
        sending,
        now,
    };
    receivers.take_back(0);
    let account = &sending.publisher.user.account;
    address_in(occasion, receivers, account, subject, Said::AsPublished)?;
    if is_own_alone(ready.rows(), routes) {
        return Ok(None);
    }
    let seen = subject.lend();
    if is_route(&seen) {
        let told = address_answer_under(occasion, receivers, routes, subject)?;
        return Ok(told);
    }
    let told = address_across(occasion, receivers, routes, &seen)?;
    Ok(told)
}

/// Appends the deliveries of a response that is sent on under this subject, as `address_answer` does.
fn address_answer_under(
    occasion: Occasion<'_>,
    receivers: &mut Receivers,
    routes: &Routes,
    subject: &Subject,
) -> Result<Option<Boxed<Told>>, NoMemory>
    requires marked { AreMarked occasion.sessions.now occasion.subscriptions.now occasion.marks.now }
    ensures all { OnOk result (receivers.new.deliveries.items
        ≡ (in_each occasion.entry routes.now.exporters (addressing receivers.old.deliveries.items [])
        (requesters_on occasion.entry routes.now.exporters subject.now)).deliveries) }
    ensures reports { IfOk result (λ told. reports_in told ≡ []) }
    ensures spent { IfOk result (λ told. routes_after told (pruned occasion.entry.now routes.now.exporters)
        ≡ spent_on occasion.entry routes.now.exporters subject.now) }
    ensures noted { IfOk result (λ told. AreNotedIn occasion.entry.now told) }
    ensures cached { receivers.new.cache ≡ receivers.old.cache }
{
    let answered = RouteChange::AnsweredUnder {
        exporter: occasion.sending.publisher.user.account.clone()?,
        subject: subject.copy(occasion.alloc)?,
    };
    let seen = subject.lend();
    let told = address_answer(occasion, receivers, routes, &seen, answered)?;
    Ok(told)
}
