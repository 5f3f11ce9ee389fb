//! The tables, and one step of them.
use crate::change::{Change, Decided};
use crate::copies::{Standing, standing_all};
use crate::decide::SESSIONS;
use crate::reload::prove_valid;
use base::{Copying, Items, NoMemory, Shared};
use events::{Answer, Command, Entry, Event, HubRefusal, Outcome, PublishRefusal};
use policy_doc::Policy;
use policy_ready::CompiledPolicy;
use service_routes::Routes;
use std::alloc::Global;
use std::hash::RandomState;
use std::marker::Model;
use world_routing::Caches;
use world_sessions::Sessions;
use world_sessions::leniency::{Lenient, LenientToAll, items_in, note_held};
use world_subscriptions::Subscriptions;

/// The tables: the policy in force, the sessions with their outboxes, the standing subscriptions and the response routes. A clause sees
/// the world that they show.
#[derive(Drop)]
pub struct World {
    pub(crate) alloc: Global,
    pub(crate) keys: RandomState,
    pub(crate) ready: CompiledPolicy,
    pub(crate) capacity: usize,
    pub(crate) epoch: u128,
    pub(crate) moment: u64,
    pub(crate) number: u64,
    pub(crate) sessions: Sessions,
    pub(crate) subscriptions: Subscriptions,
    pub(crate) caches: Caches,
    /// Routes that don't live any more may stand here. Nobody sees them.
    pub(crate) routes: Routes,
    /// The moment at which routes are seen: that of the last step. While a step is decided, the moment is its event's already, and a
    /// step that is refused has dropped none.
    pub(crate) routes_at: u64,
}

impl Model for World {
    ghost use Rattle.std.specs.Prelude.{◌≤◌};
    ghost use Rattle.policy_ready.specs.imports.Views.{rows_of};
    ghost use Rattle.service_routes.specs.Routes.{pruned};
    ghost use Rattle.receivers.specs.cache.Cached.{IsCurrent};
    ghost use Rattle.receivers.specs.views.Marked.{AreMarked};
    ghost use Rattle.world_routing.specs.Remembered.{AreRemembered};
    ghost use Rattle.world_routing.specs.World as worlds;

    ghost Value = { worlds.World };

    ghost view = { λ w. record {
      capacity = w.capacity;
      policy = w.ready;
      epoch = w.epoch;
      moment = w.moment;
      sessions = w.sessions;
      subscriptions = w.subscriptions;
      routes = pruned w.routes_at w.routes.exporters;
      number = w.number;
    } };

    ghost invariant = { λ w. (1 ≤ w.capacity) × (w.routes_at ≤ w.moment) × IsCurrent (rows_of w.ready) w.sessions w.subscriptions w.caches.receivers.cache × AreRemembered w.ready w.caches.verdicts × AreMarked w.sessions w.subscriptions w.caches.marks };
}

impl World {
    ghost use Rattle.std.specs.Prelude.{◌≡◌, ◌==◌, ◌<◌, ◌≤◌, ◌+◌, ℕ, Ok, [], false, IfOk, OnErr, All, map};
    ghost use Rattle.policy_doc.specs.Accounts.{IsByName};
    ghost use Rattle.events.specs.declared.answer.Outcome.{Outcome};
    ghost use Rattle.world_sessions.specs.deliveries.Sessions.{session_of};
    ghost use Rattle.world_sessions.specs.declared.deliveries.session.Session.{Session};
    ghost use Rattle.world_rows.specs.declared.subscription.Subscription.{Subscription};
    ghost use Rattle.world_routing.specs.World as worlds;
    ghost use Rattle.world_routing.specs.World.{opening_world, advanced};
    ghost use Rattle.world.specs.Transition.{IsApplied, IsReasoned, IsRefusal, IsMoved, transition, moved, refusal_in, in_session, in_new_session};
    ghost use Rattle.world.specs.Changes.{at_moment, pruned_world, IsDecided};
    ghost use Rattle.world.specs.Holding.{IsAppliedIf, IsMovedIf};
    ghost use Rattle.world.specs.Reload.{AreEntitled};
    ghost use Rattle.world_routing.specs.Remembered.{AreOfPolicy};
    ghost use Rattle.world.specs.Remembering.{IsTrue};
    ghost use Rattle.world.specs.Shown.{standing_of, subscribed_of, waiting_of};

    /// Returns the tables over a policy, with nobody connected. `outbox` is how many deliveries may wait for a session. It takes no
    /// memory.
    /// Clients choose the tokens of subjects and the names of queues, so what finds them is hashed under keys that they
    /// can't know.
    pub fn new(alloc: Global, ready: CompiledPolicy, outbox: usize, keys: RandomState) -> World
        requires low { 1 ≤ outbox }
        requires high { outbox ≤ 65536 }
        ensures world { result ≡ opening_world ready outbox }
        ensures names { IsByName ready.accounts }
    {
        prove_valid(&ready);
        World {
            alloc,
            keys,
            ready,
            capacity: outbox,
            epoch: 1,
            moment: 0,
            number: 0,
            sessions: Sessions::new(alloc),
            subscriptions: Subscriptions::new(alloc, keys),
            caches: Caches::new(alloc, keys),
            routes: Routes::new(alloc),
            routes_at: 0,
        }
    }

    /// Applies one event, which stays with the caller. The outcome and the world after it are the transition's. What is
    /// told of it comes twice, once for the answer and once for the history: two owners of one entry. A refusal changes
    /// nothing: `SessionTaken` to a Connect of a connection with a session, `NoSession` to any other command of one
    /// without, `SessionLimit` to a Connect while 4,096 sessions stand, `NoMemory` where memory could not be had. No
    /// standing subscription may be one that its session's user may not have: so a reload judges only those of users
    /// whose subscribe lists change. Each session's user is whom the policy in force has under its name: so a verdict may be
    /// remembered by the name.
    pub fn apply(&mut self, event: &Event) -> Result<(Answer, Answer), HubRefusal>
        requires fresh { (self.old.number == 18446744073709551615) ≡ false }
        requires epoch { self.old.epoch ≤ self.old.number + 1 }
        requires ids { All (λ (s : Subscription). s.id ≤ self.old.number) self.old.subscriptions }
        requires sound { AreEntitled self.old.sessions self.old.subscriptions }
        requires users { AreOfPolicy self.old.policy self.old.sessions }
        ensures step { IsApplied self.old event.entry.now result self.new }
        ensures reason { IfOk result (λ both. IsReasoned self.old event.entry.now.what both.0.outcome) }
    {
        let mut held = Vec::new(self.alloc);
        match self.apply_if(event, &LenientToAll, &mut held) {
            Ok(both) => Ok(both),
            Err(PublishRefusal::By(refusal)) => Err(refusal),
            // Nobody holds an event back from a caller that is lenient to all.
            Err(PublishRefusal::Held) => unreachable!(),
        }
    }

    /// Applies one event as `apply` does, unless somebody holds it back: its outcome would tell of a full outbox, of a
    /// connection to which the caller isn't lenient and for which something waits; or its message would enter for a
    /// connection for which more waits than may by the caller's terms. Then nothing changes, `Held` is answered, and these
    /// connections are in `held`, once for each item.
    pub fn apply_if<T: Lenient>(
        &mut self,
        event: &Event,
        lenient: &T,
        held: &mut Vec<u64>,
    ) -> Result<(Answer, Answer), PublishRefusal>
        requires fresh { (self.old.number == 18446744073709551615) ≡ false }
        requires epoch { self.old.epoch ≤ self.old.number + 1 }
        requires ids { All (λ (s : Subscription). s.id ≤ self.old.number) self.old.subscriptions }
        requires sound { AreEntitled self.old.sessions self.old.subscriptions }
        requires users { AreOfPolicy self.old.policy self.old.sessions }
        requires none { held.old.items ≡ [] }
        ensures step { IsAppliedIf (T.terms lenient.now) self.old event.entry.now result held.new.items self.new }
        ensures reason { IfOk result (λ both. IsReasoned self.old event.entry.now.what both.0.outcome) }
    {
        let next = self.number + 1;
        let before = self.moment;
        self.moment = before.max(event.now);
        match self.enter_if(event, lenient, held) {
            Ok(both) => {
                self.number = next;
                self.routes_at = self.moment;
                Ok(both)
            }
            Err(refusal) => {
                self.put_back(before);
                Err(refusal)
            }
        }
    }

    /// Puts the moment back, where a step is refused. Routes are seen as they were: no step that is refused sees them at a later
    /// moment, so nothing is dropped here.
    fn put_back(&mut self, moment: u64)
        ensures { self.new ≡ at_moment moment self.old }
    {
        self.routes_at = seen_again(&mut self.routes, self.routes_at, moment);
        self.moment = moment;
    }

    /// Decides, and does what was decided unless somebody holds the event back. The moment is the event's already, the
    /// number the last one's still.
    #[inline(always)]
    fn enter_if<T: Lenient>(
        &mut self,
        event: &Event,
        lenient: &T,
        held: &mut Vec<u64>,
    ) -> Result<(Answer, Answer), PublishRefusal>
        requires fresh { self.old.number < 18446744073709551615 }
        requires epoch { self.old.epoch ≤ self.old.number + 1 }
        requires ids { All (λ (s : Subscription). s.id ≤ self.old.number) self.old.subscriptions }
        requires sound { AreEntitled self.old.sessions self.old.subscriptions }
        requires users { AreOfPolicy self.old.policy self.old.sessions }
        requires none { held.old.items ≡ [] }
        ensures step { IsMovedIf (T.terms lenient.now) (pruned_world self.old) event.entry.now result held.new.items (pruned_world self.new) }
        ensures err { OnErr result (self.new ≡ self.old) }
        ensures reason { IfOk result (λ both. IsReasoned self.old event.entry.now.what both.0.outcome) }
    {
        let Decided { outcome, change } = match self.decide(&event.what) {
            Ok(decided) => decided,
            Err(refusal) => return Err(PublishRefusal::By(refusal)),
        };
        match note_held(lenient, &self.sessions, items_in(&outcome), held) {
            Ok(()) => {}
            Err(_) => return Err(PublishRefusal::By(HubRefusal::NoMemory)),
        }
        if !held.is_empty() {
            return Err(PublishRefusal::Held);
        }
        match self.enter(event, outcome, change) {
            Ok(both) => Ok(both),
            Err(refusal) => Err(PublishRefusal::By(refusal)),
        }
    }

    /// Makes the event's entry, and then does what was decided.
    #[inline(always)]
    fn enter(
        &mut self,
        event: &Event,
        outcome: Outcome,
        change: Change,
    ) -> Result<(Answer, Answer), HubRefusal>
        requires fresh { self.old.number < 18446744073709551615 }
        requires epoch { self.old.epoch ≤ self.old.number + 1 }
        requires ids { All (λ (s : Subscription). s.id ≤ self.old.number) self.old.subscriptions }
        requires sound { AreEntitled self.old.sessions self.old.subscriptions }
        requires decided { IsDecided (pruned_world self.old) (moved (pruned_world self.old) event.now.what) (Ok (record { outcome = outcome; change = change })) }
        ensures step { IsMoved (pruned_world self.old) event.entry.now result (pruned_world self.new) }
        ensures err { OnErr result (self.new ≡ self.old) }
        ensures told { IfOk result (λ both. both.0.outcome ≡ outcome) }
    {
        let epoch = epoch_after(self.epoch, &change);
        let (told, kept) = entry_twice(self.alloc, self.number + 1, epoch, outcome, event)?;
        self.carry_out(change, &told.get().outcome)?;
        Ok((told, kept))
    }

    /// Returns why an event is refused, lack of memory aside; `None` where it is not.
    pub fn refuses(&self, event: &Event) -> Option<HubRefusal>
        ensures { result ≡ refusal_in (transition self.now event.entry.now) }
    {
        match &event.what {
            Command::Connect { conn, .. } => self.refuses_connect(*conn),
            Command::Sub { conn, .. } => self.refuses_other(*conn),
            Command::Unsub { conn, .. } => self.refuses_other(*conn),
            Command::Pub { conn, .. } => self.refuses_other(*conn),
            Command::Take { conn, .. } => self.refuses_other(*conn),
            Command::Close { conn } => self.refuses_other(*conn),
            Command::Reload(_) => None,
        }
    }

    /// Returns why a Connect is refused.
    fn refuses_connect(&self, conn: u64) -> Option<HubRefusal>
        ensures { (now : ℕ) (connected : Outcome × worlds.World) → refusal_in (in_new_session (advanced self.now now) (session_of self.now.sessions conn) connected) ≡ result }
    {
        match self.sessions.find(conn) {
            Some(_) => Some(HubRefusal::SessionTaken),
            None => {
                if self.sessions.len() >= SESSIONS {
                    Some(HubRefusal::SessionLimit)
                } else {
                    None
                }
            }
        }
    }

    /// Returns why another command of a connection is refused.
    fn refuses_other(&self, conn: u64) -> Option<HubRefusal>
        ensures { (done : Session → Outcome × worlds.World) → refusal_in (in_session (session_of self.now.sessions conn) done) ≡ result }
    {
        match self.sessions.find(conn) {
            Some(_) => None,
            None => Some(HubRefusal::NoSession),
        }
    }

    /// Returns the number of the last entry, 0 before the first.
    pub fn number(&self) -> u64
        ensures { result ≡ self.now.number }
    {
        self.number
    }

    /// Returns how many deliveries may wait for a session.
    #[inline(always)]
    pub fn capacity(&self) -> usize
        ensures { result ≡ self.now.capacity }
    {
        self.capacity
    }

    /// Returns the policy in force, made ready.
    pub fn ready(&self) -> &CompiledPolicy
        ensures { result.now ≡ self.now.policy }
    {
        &self.ready
    }

    /// Returns the policy in force.
    pub fn policy(&self) -> &Policy
        ensures { result.now ≡ self.now.policy }
    {
        self.ready.policy()
    }

    /// Returns the epoch in force: which policy it is, counted from 1.
    pub fn epoch(&self) -> u128
        ensures { result ≡ self.now.epoch }
    {
        self.epoch
    }

    /// Returns what is remembered for the next publishes: whom messages are for, verdicts and deny marks. All of it answers as
    /// the tables do, and the policy in force.
    pub fn caches(&self) -> &Caches
        ensures { IsTrue self.now result.now }
    {
        &self.caches
    }

    /// Returns the standing subscriptions, oldest first. `NoMemory` where memory could not be had.
    pub fn standing(&self) -> Result<Items<Standing>, NoMemory>
        ensures { IfOk result (λ all. all ≡ map standing_of self.now.subscriptions) }
    {
        standing_all(self.alloc, &self.subscriptions)
    }

    /// Returns how many deliveries wait for the connection's session, and whether one was missed since its Connect or
    /// last Take; `None` where it has no session.
    pub fn waiting(&self, conn: u64) -> Option<(usize, bool)>
        ensures { result ≡ waiting_of self.now conn }
    {
        match self.sessions.find(conn) {
            None => None,
            Some(session) => Some((session.outbox.len(), session.missed)),
        }
    }

    /// Returns how many subscriptions the connection has.
    pub fn subscribed(&self, conn: u64) -> usize
        ensures { result ≡ subscribed_of self.now conn }
    {
        self.subscriptions.count_of(conn)
    }
}

ghost use Rattle.std.specs.Prelude.{ℕ, ◌≡◌, ◌≤◌, ◌<◌, ◌+◌, IfOk};
ghost use Rattle.service_routes.specs.Routes.{pruned};
ghost use Rattle.world.specs.Transition.{entry_with};
ghost use Rattle.world.specs.Changes.{epoch_after};

/// Returns a moment that is no later than another, at which the same routes are seen as at this one: this one, as it was before.
/// Where it is later, the routes that live at it are all that is left.
fn seen_again(routes: &mut Routes, at: u64, moment: u64) -> u64
    ensures seen { pruned result routes.new.exporters ≡ pruned at routes.old.exporters }
    ensures early { result ≤ moment }
{
    if at <= moment {
        return at;
    }
    routes.prune(at);
    0
}

/// Returns which policy is in force once a change is done.
fn epoch_after(epoch: u128, change: &Change) -> u128
    requires { epoch < 340282366920938463463374607431768211455 }
    ensures { result ≡ epoch_after epoch change.now }
{
    if matches!(change, Change::Install { .. }) {
        epoch + 1
    } else {
        epoch
    }
}

/// Returns the entry of an event, twice: two owners of one. The event is not copied: what it holds has one more owner.
#[inline(always)]
fn entry_twice(
    alloc: Global,
    number: u64,
    epoch: u128,
    outcome: Outcome,
    event: &Event,
) -> Result<(Answer, Answer), NoMemory>
    ensures told { IfOk result (λ both. both.0 ≡ entry_with number epoch outcome event.entry.now) }
    ensures kept { IfOk result (λ both. both.1 ≡ both.0) }
{
    let event = event.copy(alloc)?;
    let told = Shared::new(
        alloc,
        Entry {
            number,
            epoch,
            outcome,
            event,
        },
    )?;
    let kept = told.again()?;
    Ok((told, kept))
}
