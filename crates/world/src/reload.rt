//! Another policy comes into force: what may stand on, and what is reported.
ghost use Rattle.std.specs.Prelude.{◌≡◌, ◌∷◌, ◌++◌, [], List, IfOk, OnOk, filter, All, true};
ghost use Rattle.std.specs.List.{filter_map};
ghost use Rattle.std.specs.Option.{option_copied};
ghost use Rattle.world_sessions.specs.Renewal.{AreSameLists};
ghost use Rattle.policy_doc.specs.Accounts.{IsByName};
ghost use Rattle.policy_doc.specs.Document.{IsValidPolicy};
ghost use Rattle.policy_doc.specs.declared.document.PolicyDoc.{PolicyDoc};
ghost use Rattle.world_sessions.specs.declared.deliveries.session.Session.{Session};
ghost use Rattle.world.specs.Changes.{lost_id};
ghost use Rattle.world.specs.Reload.{user_after, verdict_after, verdict_before, may_stand, stands_on, removed_by, removal_after, AllMayStand, IsReasonedVerdict};

use crate::verdict::on_subscription;
use base::{Copying, NoMemory};
use events::Removed;
use permissions::{Verdict, each_has_reason};
use policy_ready::{CompiledPolicy, User};
use std::alloc::Global;
use world_sessions::{Session, Sessions};
use world_subscriptions::{SharedSubscription, Subscriptions};

/// The subscriptions that don't stand on.
#[derive(Drop)]
pub(crate) struct Lost {
    /// Those that sessions that stay may not have, oldest first.
    pub removed: Vec<Removed>,
    /// The ids of these and of those of sessions that go, oldest first.
    pub ids: Vec<u64>,
}

/// Returns whom a session that stays acts for.
fn user_for<'r>(ready: &'r CompiledPolicy, session: Option<&Session>) -> Option<&'r User>
    ensures { option_copied result ≡ user_after ready.now (option_copied session.entry) }
{
    match session {
        None => None,
        Some(session) => ready.user_again(&session.user),
    }
}

/// Returns the verdict of the policy on a subscription, if its session stays.
fn verdict_on(
    ready: &CompiledPolicy,
    sessions: &Sessions,
    subscription: &SharedSubscription,
) -> Option<Verdict>
    ensures { result ≡ verdict_after ready.now sessions.now subscription.now }
{
    match user_for(ready, sessions.find(subscription.conn())) {
        None => None,
        Some(user) => Some(on_subscription(
            &user.rules,
            subscription.subject().get(),
            subscription.queue(),
        )),
    }
}

/// Returns what is reported of a subscription that is lost by this verdict.
fn removed_by(
    alloc: Global,
    subscription: &SharedSubscription,
    verdict: Verdict,
) -> Result<Removed, NoMemory>
    ensures { IfOk result (λ removed. removed ≡ removed_by subscription.now verdict) }
{
    Ok(Removed {
        id: subscription.id(),
        conn: subscription.conn(),
        subject: subscription.subject().again()?,
        queue: subscription.queue().copy(alloc)?,
        sid: subscription.sid().again()?,
        verdict,
    })
}

/// Adds a subscription to `lost` if it doesn't stand on: its id, and if its session stays, what is reported of it. It stands on where
/// `same` says that its session's lists are the same.
fn add_if_lost(
    alloc: Global,
    lost: &mut Lost,
    ready: &CompiledPolicy,
    sessions: &Sessions,
    same: &[bool],
    subscription: &SharedSubscription,
) -> Result<(), NoMemory>
    requires same { AreSameLists ready.now sessions.now same.now }
    requires sound { may_stand (verdict_before sessions.now subscription.now) ≡ true }
    ensures removed { OnOk result (lost.new.removed.items ≡ lost.old.removed.items
        ++ filter_map (removal_after ready.now sessions.now) (subscription.now ∷ [])) }
    ensures ids { OnOk result (lost.new.ids.items ≡ lost.old.ids.items
        ++ filter_map (lost_id ready.now sessions.now) (subscription.now ∷ [])) }
{
    if sessions.has_same_lists(same, subscription.conn()) {
        return Ok(());
    }
    match verdict_on(ready, sessions, subscription) {
        None => {
            lost.ids.push(subscription.id())?;
            Ok(())
        }
        Some(verdict) => {
            if !verdict.is_allowed() {
                lost.ids.push(subscription.id())?;
                lost.removed
                    .push(removed_by(alloc, subscription, verdict)?)?;
            }
            Ok(())
        }
    }
}

/// Tells the prover that the verdict of any policy on a subscription has its reason. It does nothing when it runs.
fn prove_reason(subscription: &SharedSubscription)
    ensures { (doc : PolicyDoc) (zs : List Session) → IsReasonedVerdict doc zs subscription.now }
{
    each_has_reason(subscription.subject().get());
}

/// Tells the prover that a policy that is ready is valid, and has each account once. It does nothing when it runs.
pub(crate) fn prove_valid(ready: &CompiledPolicy)
    ensures valid { IsValidPolicy ready.now }
    ensures names { IsByName ready.now.accounts }
{
    let _ = ready.policy().doc().accounts.as_slice();
}

/// Returns the subscriptions that don't stand on. Only those of users whose subscribe lists change are judged: the
/// others may stand as they are. `same` is what `Sessions::same_lists` gives for the policy.
#[tactic(auto, using(world_subscriptions::proofs::groups::Lists::filter_map_first))]
pub(crate) fn lost_by(
    alloc: Global,
    ready: &CompiledPolicy,
    sessions: &Sessions,
    subscriptions: &Subscriptions,
    same: &[bool],
) -> Result<Lost, NoMemory>
    requires same { AreSameLists ready.now sessions.now same.now }
    requires sound { AllMayStand sessions.now subscriptions.now }
    ensures removed { IfOk result (λ lost. lost.removed.items ≡ filter_map (removal_after ready.now sessions.now) subscriptions.now) }
    ensures ids { IfOk result (λ lost. lost.ids.items ≡ filter_map (lost_id ready.now sessions.now) subscriptions.now) }
    ensures reason { OnOk result (All (IsReasonedVerdict ready.now sessions.now) subscriptions.now) }
{
    let mut lost = Lost {
        removed: Vec::new(alloc),
        ids: Vec::new(alloc),
    };
    for subscription in subscriptions.values() {
        prove_reason(subscription);
        add_if_lost(alloc, &mut lost, ready, sessions, same, subscription)?;
    }
    Ok(lost)
}

/// Removes the subscriptions of these ids. Where they are those that don't stand on, the others are left.
pub(crate) fn remove_lost(subscriptions: &mut Subscriptions, ids: &[u64])
    ensures { (doc : PolicyDoc) (zs : List Session) → ids.now ≡ filter_map (lost_id doc zs) subscriptions.old
        → subscriptions.new ≡ filter (stands_on doc zs) subscriptions.old }
{
    subscriptions.prove_invariant();
    subscriptions.remove_each(ids);
}
