//! Users that come, go, move, or change their password.
ghost use Rattle.std.specs.Prelude.{◌≡◌, IfOk, OnOk, map};
ghost use Rattle.policy_doc.specs.declared.document.PolicyDoc.{PolicyDoc};
ghost use Rattle.compare.specs.Members.{user_of, AreMembers};
ghost use Rattle.compare.specs.Users.{all_new, all_old, fate_of, of_new, of_old, told_again, told_if, told_of};
ghost use Rattle.compare.specs.Users.{AreAlsoTold, AreUsersTold};

use crate::members::{Member, Members};
use crate::{Becoming, UserChange};
use base::NoMemory;
use std::alloc::Global;
use std::cmp::Ordering;

/// Returns what becomes of users.
pub(crate) fn users_between<'a>(
    alloc: Global,
    old: &Members<'a>,
    new: &Members<'a>,
) -> Result<Vec<UserChange<'a>>, NoMemory>
    ensures { IfOk result (λ told. (was is : PolicyDoc) → AreMembers was old.now → AreMembers is new.now → AreUsersTold was is told.items) }
{
    let mut told = Vec::new(alloc);
    let (olds, news) = (old.by_account.as_slice(), new.by_account.as_slice());
    add_olds(&mut told, olds, new)?;
    add_news(&mut told, news, old)?;
    told.sort_unstable_by(|one, other| order_of(one, other));
    Ok(told)
}

/// Appends what becomes of the users that the old policy has.
fn add_olds<'a>(
    told: &mut Vec<UserChange<'a>>,
    members: &[Member<'a>],
    new: &Members<'a>,
) -> Result<(), NoMemory>
    ensures { OnOk result ((is : PolicyDoc) → AreMembers is new.now → AreAlsoTold (all_old is (map user_of members.now)) told.old.items told.new.items) }
{
    for member in members {
        add_old(told, member, new)?;
    }
    Ok(())
}

/// Appends the users that come.
fn add_news<'a>(
    told: &mut Vec<UserChange<'a>>,
    members: &[Member<'a>],
    old: &Members<'a>,
) -> Result<(), NoMemory>
    ensures { OnOk result ((was : PolicyDoc) → AreMembers was old.now → AreAlsoTold (all_new was (map user_of members.now)) told.old.items told.new.items) }
{
    for member in members {
        add_new(told, member, old)?;
    }
    Ok(())
}

/// Appends that a user goes, or what becomes of it.
fn add_old<'a>(
    told: &mut Vec<UserChange<'a>>,
    member: &Member<'a>,
    new: &Members<'a>,
) -> Result<(), NoMemory>
    ensures { OnOk result ((is : PolicyDoc) → AreMembers is new.now → AreAlsoTold (of_old is (user_of member.now)) told.old.items told.new.items) }
{
    let name = member.user.user.as_slice();
    match new.named(name) {
        None => {
            told.push(told_as(member, Becoming::Gone))?;
            Ok(())
        }
        Some(again) => {
            add_again(told, member, &again)?;
            Ok(())
        }
    }
}

/// Appends that a user comes, if it does.
fn add_new<'a>(
    told: &mut Vec<UserChange<'a>>,
    member: &Member<'a>,
    old: &Members<'a>,
) -> Result<(), NoMemory>
    ensures { OnOk result ((was : PolicyDoc) → AreMembers was old.now → AreAlsoTold (of_new was (user_of member.now)) told.old.items told.new.items) }
{
    let name = member.user.user.as_slice();
    match old.named(name) {
        None => {
            told.push(told_as(member, Becoming::New))?;
            Ok(())
        }
        Some(_) => Ok(()),
    }
}

/// Appends that a user moves, and that it has another password, where that is so.
fn add_again<'a>(
    told: &mut Vec<UserChange<'a>>,
    old: &Member<'a>,
    new: &Member<'a>,
) -> Result<(), NoMemory>
    ensures { OnOk result (AreAlsoTold (told_again (user_of old.now) (user_of new.now)) told.old.items told.new.items) }
{
    let has_moved = old.user.account != new.user.account;
    let to = Becoming::MovedTo(new.user.account.as_slice());
    add_if(told, has_moved, told_as(old, to))?;
    let has_another = old.user.password != new.user.password;
    add_if(told, has_another, told_as(new, Becoming::Password))?;
    Ok(())
}

/// Appends what becomes of a user, if it is so.
fn add_if<'a>(
    told: &mut Vec<UserChange<'a>>,
    is_so: bool,
    change: UserChange<'a>,
) -> Result<(), NoMemory>
    ensures { OnOk result (AreAlsoTold (told_if is_so (told_of change.entry)) told.old.items told.new.items) }
{
    if is_so {
        told.push(change)?;
        return Ok(());
    }
    Ok(())
}

fn told_as<'a>(member: &Member<'a>, what: Becoming<'a>) -> UserChange<'a>
    ensures { told_of result ≡ ((user_of member.now).account, (user_of member.now).user, fate_of what.entry) }
{
    UserChange {
        account: member.user.account.as_slice(),
        user: member.user.user.as_slice(),
        what,
    }
}

/// Which comes first, by account and then by name. No two have both alike.
fn order_of(one: &UserChange<'_>, other: &UserChange<'_>) -> Ordering {
    let order = one.account.cmp(other.account);
    order.then(one.user.cmp(other.user))
}
