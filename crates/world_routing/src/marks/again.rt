ghost use Rattle.std.specs.Prelude.{◌≡◌, ℕ, IfOk, OnOk};
ghost use Rattle.permissions.specs.deny_marks.Table.{marks_at};
ghost use Rattle.receivers.specs.views.Marked.{AreMarked, IsMarkedBy};
ghost use Rattle.world_sessions.specs.deliveries.Sessions.{session_of};
ghost use Rattle.world_sessions.specs.Renewal.{remaining, AreSameLists};
ghost use Rattle.world_routing.specs.marks.Again.{user_after, AreMarksAgain, IsMarkedAgain};

use base::NoMemory;
use permissions::deny_marks::{DenyMarks, Marks};
use policy_ready::CompiledPolicy;
use std::alloc::Global;
use world_sessions::Sessions;
use world_subscriptions::{SharedSubscription, Subscriptions};

/// What the marks under another policy are made of.
#[derive(Clone, Copy)]
pub struct Renewing<'a> {
    /// The policy.
    pub ready: &'a CompiledPolicy,
    /// The sessions as they are.
    pub sessions: &'a Sessions,
    /// Beside each, whether its user has the same subscribe lists under the policy: what `Sessions::same_lists` gives for it.
    pub same: &'a [bool],
    /// The marks as they are.
    pub marks: &'a DenyMarks,
}

/// Returns the marks that a subscription will have. Where its user's lists are the same as now, they are those of now.
fn marks_of(renewing: Renewing<'_>, subscription: &SharedSubscription) -> Marks
    requires same { AreSameLists renewing.ready.now renewing.sessions.now renewing.same.now }
    requires marked { IsMarkedBy renewing.marks.now subscription.now (session_of renewing.sessions.now subscription.now.conn) }
    ensures { AreMarksAgain result subscription.now (user_after renewing.entry.ready.now (session_of renewing.entry.sessions.now subscription.now.conn)) }
{
    let Renewing {
        ready,
        sessions,
        same,
        marks,
    } = renewing;
    match sessions.find(subscription.conn()) {
        None => Marks::Unmarked,
        Some(session) => {
            if sessions.has_same_lists(same, subscription.conn()) {
                return marks.at(subscription.id());
            }
            match ready.user_again(&session.user) {
                None => Marks::Unmarked,
                Some(user) => Marks::of(
                    &user.rules,
                    subscription.subject().get(),
                    subscription.queue(),
                ),
            }
        }
    }
}

/// Puts the marks that a subscription will have. Others keep theirs.
fn mark_again(
    marks: &mut DenyMarks,
    renewing: Renewing<'_>,
    subscription: &SharedSubscription,
) -> Result<(), NoMemory>
    requires same { AreSameLists renewing.ready.now renewing.sessions.now renewing.same.now }
    requires marked { IsMarkedBy renewing.marks.now subscription.now (session_of renewing.sessions.now subscription.now.conn) }
    ensures own { OnOk result (IsMarkedAgain renewing.entry.ready.now renewing.entry.sessions.now marks.new subscription.now) }
    ensures others { OnOk result ((id : ℕ) → (subscription.now.id ≡ id → ⊥) → marks_at marks.new id ≡ marks_at marks.old id) }
{
    marks.put(subscription.id(), marks_of(renewing, subscription))?;
    Ok(())
}

/// Returns the marks of the subscriptions that stand, by the lists of those for whom their sessions will act under a policy.
/// `NoMemory` where memory could not be had.
pub fn marks_again(
    alloc: Global,
    renewing: Renewing<'_>,
    subscriptions: &Subscriptions,
) -> Result<DenyMarks, NoMemory>
    requires same { AreSameLists renewing.ready.now renewing.sessions.now renewing.same.now }
    requires marked { AreMarked renewing.sessions.now subscriptions.now renewing.marks.now }
    ensures { IfOk result (λ marks. (now : ℕ) → AreMarked (remaining now renewing.entry.ready.now renewing.entry.sessions.now) subscriptions.now marks) }
{
    renewing.sessions.prove_invariant();
    subscriptions.prove_invariant();
    let mut marks = DenyMarks::new(alloc);
    for subscription in subscriptions.values() {
        mark_again(&mut marks, renewing, subscription)?;
    }
    Ok(marks)
}
