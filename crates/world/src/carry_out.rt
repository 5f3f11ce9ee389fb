//! What was decided is done.
ghost use Rattle.std.specs.Prelude.{◌≡◌};
ghost use Rattle.service_routes.specs.Routes.{kept, pruned};
ghost use Rattle.service_routes.specs.service_rows.Rows.{renewed};

use crate::change::Change;
use crate::reload::remove_lost;
use crate::world::World;
use base::{Boxed, NoMemory};
use events::{Outcome, Sid};
use permissions::deny_marks::DenyMarks;
use policy_ready::{CompiledPolicy, User};
use service_routes::Routes;
use service_routes::service_rows::RenewedRows;
use std::collections::VecDeque;
use world_routing::marks::{mark_next, trim_marks};
use world_routing::{Deliveries, Receivers, Routing, carry_publish, change_routes};
use world_sessions::Session;
use world_sessions::leniency::items_in;
use world_subscriptions::NewSubscription;

impl World {
    ghost use Rattle.std.specs.Prelude.{◌≡◌, ◌<◌, ◌≤◌, ◌+◌, OnOk, OnErr, All};
    ghost use Rattle.world_rows.specs.declared.subscription.Subscription.{Subscription};
    ghost use Rattle.std.specs.List.{filter_map};
    ghost use Rattle.events.specs.declared.answer.Outcome.{Outcome};
    ghost use Rattle.world_sessions.specs.Renewal.{remaining, user_again_of};
    ghost use Rattle.receivers.specs.views.Marked.{AreMarked};
    ghost use Rattle.world.specs.Reload.{AllMayStand};
    ghost use Rattle.world.specs.Changes.{done, lost_id, pruned_world, IsFit};
    ghost use Rattle.world.specs.declared.change.Change.TheVariants as change;

    /// Carries out a decided command with its outcome. Where memory could not be had for a new session or
    /// subscription, nothing has changed.
    #[inline(always)]
    pub(crate) fn carry_out(&mut self, change: Change, outcome: &Outcome) -> Result<(), NoMemory>
        requires fit { IsFit (pruned_world self.old) change outcome.now }
        requires fresh { self.old.number < 18446744073709551615 }
        requires epoch { self.old.epoch ≤ self.old.number + 1 }
        requires ids { All (λ (s : Subscription). s.id ≤ self.old.number) self.old.subscriptions }
        requires sound { AllMayStand self.old.sessions self.old.subscriptions }
        ensures ok { OnOk result (pruned_world self.new ≡ done (pruned_world self.old) change outcome.now) }
        ensures err { OnErr result (self.new ≡ self.old) }
    {
        match change {
            Change::Nothing => Ok(()),
            Change::Open(session) => self.open(session, outcome),
            Change::Stand(wanted) => self.stand(wanted, outcome),
            Change::Limit { conn, sid, most } => {
                self.limit(conn, &sid, most);
                Ok(())
            }
            Change::Deliver(deliveries) => {
                self.deliver(deliveries, outcome);
                Ok(())
            }
            Change::Route(routing) => {
                let Routing { deliveries, routes } = routing.into_inner();
                change_routes(&mut self.routes, routes, self.moment)?;
                self.deliver(deliveries, outcome);
                Ok(())
            }
            Change::Drain { conn, most } => {
                self.sessions.drain(conn, most);
                Ok(())
            }
            Change::Leave { conn } => {
                self.leave(conn);
                Ok(())
            }
            Change::Install {
                ready,
                users,
                lost,
                marks,
            } => {
                self.install(ready, users, lost, marks);
                Ok(())
            }
        }
    }

    /// Hands the deliveries of an outcome over.
    #[inline(always)]
    fn deliver(&mut self, deliveries: Deliveries, outcome: &Outcome)
        ensures { self.new ≡ done self.old (change.Deliver deliveries) outcome.now }
    {
        carry_publish(
            &mut self.sessions,
            &mut self.subscriptions,
            &mut self.caches.receivers,
            deliveries,
            items_in(outcome),
            self.moment,
        );
    }

    /// Opens a session. On `NoMemory` nothing has changed.
    #[inline(never)]
    fn open(&mut self, session: Boxed<Session>, outcome: &Outcome) -> Result<(), NoMemory>
        requires fit { IsFit (pruned_world self.old) (change.Open session) outcome.now }
        requires sound { AllMayStand self.old.sessions self.old.subscriptions }
        ensures ok { OnOk result (pruned_world self.new ≡ done (pruned_world self.old) (change.Open session) outcome.now) }
        ensures err { OnErr result (self.new ≡ self.old) }
    {
        self.caches.receivers.clear_cache();
        self.sessions.push(session.into_inner())?;
        Ok(())
    }

    /// Adds a subscription, with its marks. On `NoMemory` nothing that is shown has changed. Apart, so that a message pays
    /// nothing for it.
    #[inline(never)]
    fn stand(&mut self, wanted: Boxed<NewSubscription>, outcome: &Outcome) -> Result<(), NoMemory>
        requires fit { IsFit (pruned_world self.old) (change.Stand wanted) outcome.now }
        requires fresh { self.old.number < 18446744073709551615 }
        requires ids { All (λ (s : Subscription). s.id ≤ self.old.number) self.old.subscriptions }
        ensures ok { OnOk result (pruned_world self.new ≡ done (pruned_world self.old) (change.Stand wanted) outcome.now) }
        ensures err { OnErr result (self.new ≡ self.old) }
    {
        self.caches.receivers.clear_cache();
        let id = self.number + 1;
        let wanted = wanted.into_inner();
        let marks = &mut self.caches.marks;
        mark_next(marks, &self.sessions, &self.subscriptions, id, &wanted)?;
        self.subscriptions.add(id, wanted)?;
        Ok(())
    }

    /// Ends a subscription, at once or once it has received so many messages.
    #[inline(never)]
    fn limit(&mut self, conn: u64, sid: &Sid, most: Option<u64>)
        ensures { (outcome : Outcome) → self.new ≡ done self.old (change.Limit conn sid.now most) outcome }
    {
        self.caches.receivers.clear_cache();
        self.subscriptions.limit(conn, sid, most);
    }

    /// Removes a session with its subscriptions.
    fn leave(&mut self, conn: u64)
        ensures { (outcome : Outcome) → self.new ≡ done self.old (change.Leave conn) outcome }
    {
        self.caches.receivers.clear_cache();
        self.sessions.prove_invariant();
        self.sessions.remove(conn);
        self.subscriptions.remove(conn);
        trim_marks(&mut self.caches.marks, &self.subscriptions);
    }

    /// Puts a policy into force, with the users of the sessions that stay, removes the subscriptions of these ids, and has
    /// these marks for the others.
    fn install(
        &mut self,
        ready: CompiledPolicy,
        users: VecDeque<User>,
        lost: Vec<u64>,
        marks: DenyMarks,
    )
        requires users { users.items ≡ filter_map (user_again_of ready) self.old.sessions }
        requires lost { lost.items ≡ filter_map (lost_id ready self.old.sessions) self.old.subscriptions }
        requires marks { AreMarked (remaining self.old.moment ready self.old.sessions) self.old.subscriptions marks }
        requires epoch { self.old.epoch < 340282366920938463463374607431768211455 }
        ensures { (outcome : Outcome) → pruned_world self.new ≡ done (pruned_world self.old) (change.Install ready users lost marks) outcome }
    {
        // What is cached goes with the policy under which it was so.
        self.caches.receivers = Receivers::new(self.alloc, self.keys);
        self.caches.verdicts.next_policy();
        self.caches.marks = marks;
        remove_lost(&mut self.subscriptions, lost.as_slice());
        self.sessions.renew(&ready, users, self.moment);
        keep_routes(&mut self.routes, &self.ready, &ready, self.moment);
        self.ready = ready;
        self.epoch += 1;
    }
}

/// Takes the routes over to another policy: those that live at a moment, on the rows that it has again.
fn keep_routes(routes: &mut Routes, old: &CompiledPolicy, new: &CompiledPolicy, now: u64)
    ensures { routes.new.exporters ≡ kept (renewed old.now new.now) (pruned now routes.old.exporters) }
{
    routes.prune(now);
    routes.keep_rows(&RenewedRows {
        old: old.policy().doc(),
        new: new.policy().doc(),
    });
}
