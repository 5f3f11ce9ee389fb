ghost use Rattle.std.specs.Prelude.{◌≡◌, IfOk};
ghost use Rattle.std.specs.List.{find};
ghost use Rattle.std.specs.Option.{option_copied, option_map};
ghost use Rattle.explain.specs.Fault.{Answers};
ghost use Rattle.explain.specs.Reason.{delivery_reason, has_user_name, publish_reason, subscribe_reason, user_named};
ghost use Rattle.explain.specs.declared.fault.ExplainFault.TheVariants as fault;
ghost use Rattle.permissions.specs.Lists.{lists_of};

use crate::reason::{delivery_reason, publish_reason, subscribe_reason};
use crate::{ExplainFault, Explanation};
use base::NoMemory;
use permissions::Compiled;
use policy_doc::{Policy, UserDoc};
use std::alloc::Global;
use subjects::{Pattern, Subject};

/// Returns whether a user may publish on a subject, and why: the verdict of the lists that hold for it, with the text of the
/// entry that it names; of `NoAllow` all allow entries, each with the subject.
///
/// `NoSuchUser` where no user has the name, else `NoMemory` where memory could not be had.
#[tactic(auto, using(crate::proofs::Lists::stays, crate::proofs::Lists::wants, crate::proofs::Lists::goes))]
pub fn explain_publish(
    alloc: Global,
    policy: &Policy,
    user: &[u8],
    subject: &Subject,
) -> Result<Explanation, ExplainFault>
    ensures { Answers fault.NoSuchUser (option_map (λ u. publish_reason (lists_of u policy.now.default_permissions) subject.now) (user_named policy.now user.now)) result }
{
    let lists = lists_named(alloc, policy, user)?;
    let reason = publish_reason(alloc, &lists, subject)?;
    Ok(reason)
}

/// Returns whether a user may subscribe to a pattern, with a queue or without one, and why: the verdict of the lists that hold
/// for it, with the text of the entry that it names; of `NoAllow` the allow entries that were looked at, each with a subject of
/// the pattern that the entry hasn't. With a queue all of them are looked at, else the plain ones.
///
/// `NoSuchUser` where no user has the name, else `NoMemory` where memory could not be had.
#[tactic(auto, using(crate::proofs::Lists::stays, crate::proofs::Lists::wants, crate::proofs::Lists::goes))]
pub fn explain_subscribe(
    alloc: Global,
    policy: &Policy,
    user: &[u8],
    pattern: &Pattern,
    queue: Option<&Subject>,
) -> Result<Explanation, ExplainFault>
    ensures { Answers fault.NoSuchUser
        (option_map (λ u. subscribe_reason (lists_of u policy.now.default_permissions) pattern.now (option_copied queue.entry)) (user_named policy.now user.now)) result }
{
    let lists = lists_named(alloc, policy, user)?;
    let reason = subscribe_reason(alloc, &lists, pattern, queue)?;
    Ok(reason)
}

/// Returns whether a message on a subject may be sent to a subscription of a user that has a queue or none, and why: the
/// verdict of the deny list that holds for it, with the text of the entry that it names.
///
/// `NoSuchUser` where no user has the name, else `NoMemory` where memory could not be had.
#[tactic(auto, using(crate::proofs::Lists::stays, crate::proofs::Lists::wants, crate::proofs::Lists::goes))]
pub fn explain_delivery(
    alloc: Global,
    policy: &Policy,
    user: &[u8],
    subject: &Subject,
    queue: Option<&Subject>,
) -> Result<Explanation, ExplainFault>
    ensures { Answers fault.NoSuchUser
        (option_map (λ u. delivery_reason (lists_of u policy.now.default_permissions) subject.now (option_copied queue.entry)) (user_named policy.now user.now)) result }
{
    let lists = lists_named(alloc, policy, user)?;
    let reason = delivery_reason(alloc, &lists, subject, queue)?;
    Ok(reason)
}

/// Returns the lists that hold for the user of a name. `NoSuchUser` where no user has it, else `NoMemory` where memory could
/// not be had.
fn lists_named(alloc: Global, policy: &Policy, name: &[u8]) -> Result<Compiled, ExplainFault>
    ensures { Answers fault.NoSuchUser (option_map (λ u. lists_of u policy.now.default_permissions) (user_named policy.now name.now)) result }
{
    match user_named(policy, name) {
        None => Err(ExplainFault::NoSuchUser),
        Some(user) => {
            let lists = lists_of(alloc, policy, user)?;
            Ok(lists)
        }
    }
}

/// Returns the lists that hold for a user of a policy.
fn lists_of(alloc: Global, policy: &Policy, user: &UserDoc) -> Result<Compiled, NoMemory>
    ensures { IfOk result (λ lists. lists ≡ lists_of user.now policy.now.default_permissions) }
{
    Compiled::of(alloc, user, policy.doc().default_permissions.as_ref())
}

/// Returns the user of a name, if there is one.
fn user_named<'a>(policy: &'a Policy, name: &[u8]) -> Option<&'a UserDoc>
    ensures { option_copied result ≡ user_named policy.now name.now }
{
    for named in policy.doc().accounts.as_slice() {
        if let Some(user) = user_in(named.account.users.as_slice(), name) {
            return Some(user);
        }
    }
    None
}

/// Returns the first of users that has a name.
fn user_in<'a>(users: &'a [UserDoc], name: &[u8]) -> Option<&'a UserDoc>
    ensures { option_copied result ≡ find (has_user_name name.now) users.now }
{
    users.iter().find(|user| user.user.as_slice() == name)
}
