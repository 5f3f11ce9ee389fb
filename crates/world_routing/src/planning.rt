//! What a publish comes to, before anything changes.
ghost use Rattle.std.specs.Prelude.{◌≡◌, All, false, IsTrue, IfErr, IfOk, Ok, OnOk, IfSome, Some, [], None, ℕ, map};
ghost use Rattle.events.specs.declared.answer.Addressed.{Addressed as AddressedModel};
ghost use Rattle.events.specs.declared.refusal.HubRefusal.TheVariants as refusal;
ghost use Rattle.world_sessions.specs.deliveries.Sessions.{session_of};
ghost use Rattle.world_sessions.specs.deliveries.Delivered.{delivered};
ghost use Rattle.world_sessions.specs.deliveries.Replying.{noted_for};
ghost use Rattle.receivers.specs.views.Marked.{AreMarked};
ghost use Rattle.receivers.specs.cache.Cached.{IsCurrent, IsOfLists};
ghost use Rattle.world_routing.specs.Remembered.{AreRemembered};
ghost use Rattle.world_routing.specs.World.{World};
ghost use Rattle.world_views.specs.Viewing.{tables_at};
ghost use Rattle.account_mappings.specs.Drawing.{mapped_by};
ghost use Rattle.world_routing.specs.Handing.{is_of_delivery};
ghost use Rattle.world_routing.specs.Routing.{under_subject};
ghost use Rattle.world_routing.specs.Publishing.{AreCurrent, IsElsewhere, IsKept, IsPermittedPlanned, IsPlanned, IsPlanOf, IsPublishPlanned, IsPublishReasoned};
ghost use Rattle.world_routing.specs.Publishing.{IsSeenPlanned, IsToldPlan, in_session, seen_nowhere};
ghost use Rattle.policy_ready.specs.imports.Views.{is_route, rows_of};

use crate::caches::Caches;
use crate::carrying::{Deliveries, Routing};
use crate::granted_response::{GrantedResponse, answered_by};
use crate::verdict::on_publish;
use account_mappings::Mapped;
use base::{Boxed, Items, NoMemory};
use events::{Addressed, HubRefusal, Item, Message, Met};
use permissions::deny_marks::DenyMarks;
use permissions::{By, Verdict};
use policy_ready::CompiledPolicy;
use policy_ready::imports::Rows;
use receivers::views::ReceiverSearch;
use service_routes::Routes;
use std::alloc::Global;
use std::hash::RandomState;
use subjects::{Subject, SubjectRef};
use world_sessions::{Session, Sessions};
use world_subscriptions::Subscriptions;
use world_views::addressing::{Receivers, Sending};
use world_views::{
    Publishing, Told, address_all, address_under, is_route, may_be_route, with_reports,
};

/// A message that a connection publishes.
#[derive(Clone, Copy, Debug)]
pub struct Publish<'m> {
    /// The connection.
    pub conn: u64,
    /// What it publishes.
    pub message: &'m Message,
    /// What chooses a member of each queue group.
    pub word: u64,
    /// The moment at which it does so.
    pub now: u64,
}

/// What a publish comes to.
#[derive(Drop)]
pub enum Plan {
    /// It is refused by this verdict.
    Refused(Verdict),
    /// It is allowed, is for nobody, and is no answer: nothing changes.
    ToNobody(By),
    /// It is allowed: what each delivery meets, and the deliveries to be handed over.
    ToSome(By, Met, Deliveries),
    /// It is allowed, and response routes may change by it. Apart, since few messages are so.
    OnRoutes(By, Met, Boxed<Routing>),
}

/// Returns whether a message has no delivery and is no answer.
fn is_for_nobody(all: &[Addressed], answered: &Option<GrantedResponse>) -> bool
    ensures { IsTrue result → (all.now ≡ []) × (answered.now ≡ None) }
{
    match answered {
        Some(_) => false,
        None => match all {
            [] => true,
            _ => false,
        },
    }
}

/// Returns whether a message has no delivery, is no answer, and nothing more is told of it.
fn is_silent(
    all: &[Addressed],
    told: &Option<Boxed<Told>>,
    answered: &Option<GrantedResponse>,
) -> bool
    ensures { IsTrue result → (all.now ≡ []) × (told.now ≡ None) × (answered.now ≡ None) }
{
    match told {
        None => is_for_nobody(all, answered),
        Some(_) => false,
    }
}

/// Returns what the deliveries of a message will meet. Also sets each one's `noted`, what its session is to note.
#[inline(always)]
fn plan_all(
    sessions: &mut Sessions,
    keys: RandomState,
    message: &Message,
    all: &mut Vec<Addressed>,
) -> Result<Met, NoMemory>
    requires { message.now.reply ≡ None → All (λ (a : AddressedModel). a.delivery.message.reply ≡ None) all.old.items }
    ensures items { IfOk result (λ items. (now : ℕ) → items ≡ (delivered now all.new.items sessions.old).1) }
    ensures noted { OnOk result (all.new.items ≡ map (noted_for sessions.old) all.old.items) }
    ensures same { sessions.new ≡ sessions.old }
{
    let all = all.as_mut_slice();
    let has_reply = message.reply().is_some();
    let items = sessions.plan(keys, all, has_reply)?;
    Ok(items)
}

/// Returns the plan of a publish, by what its deliveries have met.
#[inline(always)]
fn plan_of(
    alloc: Global,
    by: By,
    met: Met,
    deliveries: Deliveries,
    told: Option<Boxed<Told>>,
) -> Result<Plan, NoMemory>
    ensures { IfOk result (λ plan. IsPlanOf by met deliveries told plan) }
{
    match told {
        None => Ok(Plan::ToSome(by, met, deliveries)),
        Some(told) => {
            let plan = on_routes(alloc, by, met, deliveries, told.into_inner())?;
            Ok(plan)
        }
    }
}

/// Returns the plan of a publish that reports rows or changes routes. Apart, since few messages do.
#[inline(never)]
fn on_routes(
    alloc: Global,
    by: By,
    met: Met,
    deliveries: Deliveries,
    told: Told,
) -> Result<Plan, NoMemory>
    ensures { IfOk result (λ plan. IsPlanOf by met deliveries (Some told) plan) }
{
    let Told { reports, routes } = told;
    let items = with_reports(alloc, met.as_slice(), reports.as_slice())?;
    let routing = Boxed::new(alloc, Routing { deliveries, routes })?;
    Ok(Plan::OnRoutes(by, Met::from_vec(items), routing))
}

/// Returns the plan of a publish that is allowed, by the deliveries of the receivers and by what is told between them. All memory is
/// taken that handing over needs. `NoMemory` where it could not be had. `plan_uncached` takes the plan by `?`: a result that it returns
/// as it is costs each message up to 75 instructions.
#[inline(always)]
fn plan_told(
    sessions: &mut Sessions,
    receivers: &mut Receivers,
    message: &Message,
    by: By,
    answered: Option<GrantedResponse>,
    told: Option<Boxed<Told>>,
) -> Result<Plan, HubRefusal>
    requires { message.now.reply ≡ None
        → All (λ (a : AddressedModel). a.delivery.message.reply ≡ None) receivers.old.deliveries.items }
    ensures planned { IfOk result (λ plan. IsToldPlan sessions.old by answered told receivers.old.deliveries.items plan) }
    ensures refused { IfErr result (λ reason. reason ≡ refusal.NoMemory) }
    ensures sessions { sessions.new ≡ sessions.old }
    ensures cached { receivers.new.cache ≡ receivers.old.cache }
{
    if is_silent(receivers.deliveries(), &told, &answered) {
        return Ok(Plan::ToNobody(by));
    }
    let mut all = receivers.take_deliveries();
    let met = plan_all(sessions, receivers.keys(), message, &mut all)?;
    let deliveries = Deliveries {
        all: Items::from_vec(all),
        answered,
    };
    let plan = plan_of(receivers.allocator(), by, met, deliveries, told)?;
    Ok(plan)
}

/// Where a message goes that isn't seen under the subject that it is published on.
#[derive(Drop)]
enum Elsewhere {
    /// Its account's mappings send it on under this subject.
    Under(Subject),
    /// They send it on nowhere: this is its item.
    Nowhere(Item),
}

/// Returns whether a session's account may have mappings.
#[inline(always)]
fn is_mapped(session: &Session) -> bool
    ensures { result ≡ false → session.now.user.mappings ≡ [] }
{
    match session.user.mappings.as_slice() {
        [] => false,
        _ => true,
    }
}

/// Returns where its account's mappings send a message, if it isn't seen under the subject that it is published on.
fn drawn_for(
    alloc: Global,
    publisher: &Session,
    message: &Message,
    word: u64,
) -> Result<Option<Elsewhere>, NoMemory>
    ensures { IsElsewhere (mapped_by publisher.now.user.mappings message.now.subject word) result }
{
    let mapped = publisher
        .user
        .mappings
        .mapped(alloc, &message.subject(), word)?;
    match mapped {
        Mapped::Same => Ok(None),
        Mapped::To(subject) => Ok(Some(Elsewhere::Under(subject))),
        Mapped::Unmapped => Ok(Some(Elsewhere::Nowhere(Item::Unmapped))),
        Mapped::TooLong(index) => Ok(Some(Elsewhere::Nowhere(Item::MappedTooLong(index)))),
    }
}

/// A publish that is allowed.
#[derive(Clone, Copy)]
struct Permitted<'p> {
    publish: Publish<'p>,
    /// By what it is allowed.
    by: By,
    /// The deny marks of all that stand.
    marks: &'p DenyMarks,
}

/// No deliveries, of a message that may be an answer.
fn no_deliveries(alloc: Global, answered: Option<GrantedResponse>) -> Deliveries
    ensures all { result.all ≡ [] }
    ensures answered { result.answered ≡ answered }
{
    Deliveries {
        all: Items::new(alloc),
        answered,
    }
}

/// Returns what a publish that is allowed comes to, if its account's mappings send it on nowhere: this item.
fn plan_nowhere(
    sessions: &Sessions,
    alloc: Global,
    publish: Publish<'_>,
    by: By,
    item: Item,
) -> Result<Plan, HubRefusal>
    requires plain { is_of_delivery item ≡ false }
    ensures planned { (w : World) → w.sessions ≡ sessions.now
        → IsPlanned w (in_session (session_of w.sessions publish.entry.conn)
        (λ z. seen_nowhere w z by publish.entry.message.now.subject item)) result }
{
    match sessions.find(publish.conn) {
        None => Err(HubRefusal::NoSession),
        Some(session) => {
            let answered = answered_by(by, session.conn, publish.message)?;
            let deliveries = no_deliveries(alloc, answered);
            Ok(Plan::ToSome(by, Met::one(item), deliveries))
        }
    }
}

/// A publish that is allowed, and that its account's mappings send on under another subject.
#[derive(Drop)]
struct SentOn<'p> {
    permitted: Permitted<'p>,
    subject: Subject,
}

/// Returns what such a publish comes to, as `plan_publish` does.
fn plan_under<'p>(
    sessions: &mut Sessions,
    subscriptions: &Subscriptions,
    receivers: &mut Receivers,
    routes: &mut Routes,
    ready: &'p CompiledPolicy,
    sent_on: SentOn<'p>,
) -> Result<Plan, HubRefusal>
    requires marked { AreMarked sessions.old subscriptions.now sent_on.permitted.marks.now }
    ensures planned { IsSeenPlanned
        (tables_at ready.now sent_on.entry.permitted.publish.now sessions.old subscriptions.now routes.old.exporters)
        sent_on.entry.permitted
        (under_subject sent_on.entry.subject sent_on.entry.permitted.publish.message.now) result }
    ensures sessions { sessions.new ≡ sessions.old }
    ensures routes { routes.new.exporters ≡ routes.old.exporters }
    ensures cached { receivers.new.cache ≡ receivers.old.cache }
{
    let SentOn { permitted, subject } = sent_on;
    let Permitted { publish, by, marks } = permitted;
    subscriptions.prove_invariant();
    let (answered, told) = match sessions.find(publish.conn) {
        None => return Err(HubRefusal::NoSession),
        Some(session) => {
            let answered = answered_by(by, session.conn, publish.message)?;
            let publishing = Publishing {
                ready,
                sending: Sending {
                    publisher: session,
                    message: publish.message,
                    word: publish.word,
                    allowed: None,
                },
                now: publish.now,
                marks,
            };
            let told = address_under(
                sessions,
                subscriptions,
                receivers,
                routes,
                publishing,
                &subject,
            )?;
            (answered, told)
        }
    };
    let plan = plan_told(sessions, receivers, publish.message, by, answered, told)?;
    Ok(plan)
}

/// Returns what a publish that is allowed comes to, if it is seen under the subject that it is published on.
fn plan_own<'p>(
    sessions: &mut Sessions,
    subscriptions: &mut Subscriptions,
    receivers: &mut Receivers,
    routes: &mut Routes,
    ready: &'p CompiledPolicy,
    permitted: Permitted<'p>,
) -> Result<Plan, HubRefusal>
    requires cached { IsCurrent (rows_of ready.now) sessions.old subscriptions.old receivers.old.cache }
    requires marked { AreMarked sessions.old subscriptions.old permitted.marks.now }
    ensures planned { IsSeenPlanned
        (tables_at ready.now permitted.entry.publish.now sessions.old subscriptions.old routes.old.exporters)
        permitted.entry permitted.entry.publish.message.now result }
    ensures kept { IsKept (rows_of ready.now) sessions.old subscriptions.old routes.old.exporters
        sessions.new subscriptions.new routes.new.exporters receivers.new.cache }
{
    let Permitted { publish, by, marks } = permitted;
    subscriptions.prove_invariant();
    let (answered, told) = match sessions.find(publish.conn) {
        None => return Err(HubRefusal::NoSession),
        Some(session) => (
            answered_by(by, session.conn, publish.message)?,
            address_all(
                sessions,
                subscriptions,
                receivers,
                routes,
                Publishing {
                    ready,
                    sending: Sending {
                        publisher: session,
                        message: publish.message,
                        word: publish.word,
                        allowed: None,
                    },
                    now: publish.now,
                    marks,
                },
            )?,
        ),
    };
    let plan = plan_told(sessions, receivers, publish.message, by, answered, told)?;
    Ok(plan)
}

/// Caches what a publisher's next messages on a message's subject are sent as, if its account's mappings send it on under another.
fn keep_drawn(
    receivers: &mut Receivers,
    search: ReceiverSearch<'_>,
    rows: &Rows,
    message: &Message,
    word: u64,
    elsewhere: &Option<Elsewhere>,
)
    requires publisher { session_of search.sessions.now search.publisher.now.conn ≡ Some search.publisher.now }
    requires cached { IsCurrent rows.now search.sessions.now search.subscriptions.now receivers.old.cache }
    requires marked { AreMarked search.sessions.now search.subscriptions.now search.marks.now }
    requires elsewhere { IsElsewhere (mapped_by search.publisher.now.user.mappings message.now.subject word) (Ok elsewhere.now) }
    ensures cached { IsCurrent rows.now search.entry.sessions.now search.entry.subscriptions.now receivers.new.cache }
{
    match elsewhere {
        None => {}
        Some(elsewhere) => match elsewhere {
            Elsewhere::Nowhere(_) => {}
            Elsewhere::Under(other) => {
                if !is_route(&other.lend()) {
                    receivers.fill_drawn(search, rows, message, word, other);
                }
            }
        },
    }
}

/// Returns what a publish that is allowed comes to by its account's mappings, and caches what such messages are sent as.
fn plan_anew<'p>(
    sessions: &mut Sessions,
    subscriptions: &mut Subscriptions,
    receivers: &mut Receivers,
    routes: &mut Routes,
    ready: &'p CompiledPolicy,
    permitted: Permitted<'p>,
) -> Result<Plan, HubRefusal>
    requires cached { IsCurrent (rows_of ready.now) sessions.old subscriptions.old receivers.old.cache }
    requires marked { AreMarked sessions.old subscriptions.old permitted.marks.now }
    ensures planned { IsPermittedPlanned
        (tables_at ready.now permitted.entry.publish.now sessions.old subscriptions.old routes.old.exporters)
        permitted.entry result }
    ensures kept { IsKept (rows_of ready.now) sessions.old subscriptions.old routes.old.exporters
        sessions.new subscriptions.new routes.new.exporters receivers.new.cache }
{
    let Permitted { publish, by, marks } = permitted;
    let elsewhere = match sessions.find(publish.conn) {
        None => return Err(HubRefusal::NoSession),
        Some(publisher) => {
            let alloc = receivers.allocator();
            let elsewhere = drawn_for(alloc, publisher, publish.message, publish.word)?;
            let search = ReceiverSearch {
                sessions,
                subscriptions,
                marks,
                publisher,
            };
            let rows = ready.rows();
            let (message, word) = (publish.message, publish.word);
            keep_drawn(receivers, search, rows, message, word, &elsewhere);
            elsewhere
        }
    };
    match elsewhere {
        None => {
            let plan = plan_own(sessions, subscriptions, receivers, routes, ready, permitted)?;
            Ok(plan)
        }
        Some(elsewhere) => match elsewhere {
            Elsewhere::Nowhere(item) => {
                let plan = plan_nowhere(sessions, receivers.allocator(), publish, by, item)?;
                Ok(plan)
            }
            Elsewhere::Under(subject) => {
                let sent_on = SentOn { permitted, subject };
                let plan = plan_under(sessions, subscriptions, receivers, routes, ready, sent_on)?;
                Ok(plan)
            }
        },
    }
}

/// Returns what a publish that is allowed comes to, where the account has mappings: by what messages with its draw are sent as, if
/// that is cached. Apart, since few accounts have some.
#[inline(never)]
fn plan_mapped<'p>(
    sessions: &mut Sessions,
    subscriptions: &mut Subscriptions,
    receivers: &mut Receivers,
    routes: &mut Routes,
    ready: &'p CompiledPolicy,
    permitted: Permitted<'p>,
) -> Result<Plan, HubRefusal>
    requires cached { IsCurrent (rows_of ready.now) sessions.old subscriptions.old receivers.old.cache }
    requires marked { AreMarked sessions.old subscriptions.old permitted.marks.now }
    ensures planned { IsPermittedPlanned
        (tables_at ready.now permitted.entry.publish.now sessions.old subscriptions.old routes.old.exporters)
        permitted.entry result }
    ensures kept { IsKept (rows_of ready.now) sessions.old subscriptions.old routes.old.exporters
        sessions.new subscriptions.new routes.new.exporters receivers.new.cache }
{
    let Permitted {
        publish,
        by,
        marks: _,
    } = permitted;
    subscriptions.prove_invariant();
    let answered = match sessions.find(publish.conn) {
        None => return Err(HubRefusal::NoSession),
        Some(session) => {
            if !receivers.address_drawn(publish.conn, publish.message, publish.word)? {
                let plan = plan_anew(sessions, subscriptions, receivers, routes, ready, permitted)?;
                return Ok(plan);
            }
            answered_by(by, session.conn, publish.message)?
        }
    };
    let plan = plan_told(sessions, receivers, publish.message, by, answered, None)?;
    Ok(plan)
}

/// Returns by what lists allow a message, if it isn't a grant that allows it, and its subject can't be of a response route.
fn allowed_by(by: By, subject: &SubjectRef<'_>) -> Option<By>
    ensures { IfSome result (λ allowed. (by ≡ allowed) × IsOfLists allowed × (is_route subject.now ≡ false)) }
{
    if may_be_route(subject) {
        return None;
    }
    match by {
        By::Grant => None,
        By::All => Some(By::All),
        By::Index(index) => Some(By::Index(index)),
    }
}

/// Returns the plan of a publish that lists allow and that its own account alone sees. The receivers have its deliveries.
#[inline(always)]
fn plan_alone(
    sessions: &mut Sessions,
    receivers: &mut Receivers,
    message: &Message,
    by: By,
) -> Result<Plan, HubRefusal>
    requires { message.now.reply ≡ None
        → All (λ (a : AddressedModel). a.delivery.message.reply ≡ None) receivers.old.deliveries.items }
    ensures planned { IfOk result (λ plan. IsToldPlan sessions.old by None None receivers.old.deliveries.items plan) }
    ensures refused { IfErr result (λ reason. reason ≡ refusal.NoMemory) }
    ensures sessions { sessions.new ≡ sessions.old }
    ensures cached { receivers.new.cache ≡ receivers.old.cache }
{
    if receivers.deliveries().is_empty() {
        return Ok(Plan::ToNobody(by));
    }
    let mut all = receivers.take_deliveries();
    let met = plan_all(sessions, receivers.keys(), message, &mut all)?;
    let deliveries = Deliveries {
        all: Items::from_vec(all),
        answered: None,
    };
    Ok(Plan::ToSome(by, met, deliveries))
}

/// Returns the plan of a publish for which no deliveries are cached: it judges it, addresses it in all views, and caches what the next
/// one needs.
#[inline(always)]
fn plan_uncached<'p>(
    sessions: &mut Sessions,
    subscriptions: &mut Subscriptions,
    caches: &mut Caches,
    routes: &mut Routes,
    ready: &'p CompiledPolicy,
    publish: Publish<'p>,
) -> Result<Plan, HubRefusal>
    requires { AreCurrent ready.now sessions.old subscriptions.old caches.old }
    ensures planned { IsPublishPlanned
        (tables_at ready.now publish.entry.now sessions.old subscriptions.old routes.old.exporters) publish.entry result }
    ensures reason { IsPublishReasoned sessions.old publish.entry result }
    ensures kept { IsKept (rows_of ready.now) sessions.old subscriptions.old routes.old.exporters
        sessions.new subscriptions.new routes.new.exporters caches.new.receivers.cache }
    ensures verdicts { AreRemembered ready.now caches.new.verdicts }
    ensures marked { caches.new.marks ≡ caches.old.marks }
{
    subscriptions.prove_invariant();
    let message = publish.message;
    let subject = message.subject();
    let receivers = &mut caches.receivers;
    let verdicts = &mut caches.verdicts;
    let session = match sessions.find(publish.conn) {
        None => return Err(HubRefusal::NoSession),
        Some(session) => session,
    };
    let by = match on_publish(verdicts, ready, session, &subject, publish.now) {
        Verdict::Allowed(by) => by,
        Verdict::DeniedBy(index) => return Ok(Plan::Refused(Verdict::DeniedBy(index))),
        Verdict::NoAllow => return Ok(Plan::Refused(Verdict::NoAllow)),
        Verdict::NoQueueAllow(index) => return Ok(Plan::Refused(Verdict::NoQueueAllow(index))),
    };
    let marks = &caches.marks;
    if is_mapped(session) {
        let permitted = Permitted { publish, by, marks };
        let plan = plan_mapped(sessions, subscriptions, receivers, routes, ready, permitted)?;
        return Ok(plan);
    }
    let answered = answered_by(by, session.conn, message)?;
    let publishing = Publishing {
        ready,
        sending: Sending {
            publisher: session,
            message,
            word: publish.word,
            allowed: allowed_by(by, &subject),
        },
        now: publish.now,
        marks,
    };
    let told = address_all(sessions, subscriptions, receivers, routes, publishing)?;
    let plan = plan_told(sessions, receivers, message, by, answered, told)?;
    Ok(plan)
}

/// Returns the plan of a publish. The user's permissions and grants judge it. If they allow it, the plan has a delivery for each
/// subscription that the message is for in each of its views, and what that delivery will meet. The account's mappings say under which
/// subject the message is seen, or that it isn't. Nothing changes but caches. The plan has taken all memory that handing over needs.
/// `NoSession` where the connection has no session, `NoMemory` where memory could not be had.
#[inline(always)]
pub fn plan_publish<'p>(
    sessions: &mut Sessions,
    subscriptions: &mut Subscriptions,
    caches: &mut Caches,
    routes: &mut Routes,
    ready: &'p CompiledPolicy,
    publish: Publish<'p>,
) -> Result<Plan, HubRefusal>
    requires { AreCurrent ready.now sessions.old subscriptions.old caches.old }
    ensures planned { IsPublishPlanned
        (tables_at ready.now publish.entry.now sessions.old subscriptions.old routes.old.exporters) publish.entry result }
    ensures reason { IsPublishReasoned sessions.old publish.entry result }
    ensures sessions { sessions.new ≡ sessions.old }
    ensures subscriptions { subscriptions.new ≡ subscriptions.old }
    ensures routes { routes.new.exporters ≡ routes.old.exporters }
    ensures verdicts { AreRemembered ready.now caches.new.verdicts }
    ensures marked { caches.new.marks ≡ caches.old.marks }
    ensures cached { IsCurrent (rows_of ready.now) sessions.new subscriptions.new caches.new.receivers.cache }
{
    subscriptions.prove_invariant();
    let receivers = &mut caches.receivers;
    match receivers.address_alone(publish.conn, publish.message, publish.word)? {
        Some(by) => plan_alone(sessions, receivers, publish.message, by),
        None => plan_uncached(sessions, subscriptions, caches, routes, ready, publish),
    }
}
