// Of each queue group one member.
ghost use Rattle.std.specs.Prelude.{◌≡◌, ◌==◌, ◌++◌, ◌∷◌, [], ℕ, false, IfNone, IfOk, OnOk, length, filter, map, nat_eq, slice_get};
ghost use Rattle.std.specs.List.{list_any, filter_map};
ghost use Rattle.std.specs.Option.{option_map};
ghost use Rattle.world_subscriptions.specs.queue_choice.Choices.{chosen};
ghost use Rattle.world_subscriptions.specs.groups.Served.{served};
ghost use Rattle.world_subscriptions.specs.groups.Chosen.{Rising, named, named_member, is_queued, is_other, is_kept, is_kept_alone, is_choice};

use crate::SharedSubscription;
use crate::queue_choice::{Choice, Member, choose, chosen_number};
use base::NoMemory;
use indexmap::IndexSet;
use std::alloc::Global;
use std::hash::RandomState;
use subjects::Subject;

/// Returns the name of the oldest member's queue group, where one of the subscriptions is a member.
pub(crate) fn first_queue<'a>(all: &[&'a SharedSubscription]) -> Option<&'a Subject>
    ensures { IfNone result (list_any is_queued (map (λ s. s.now) all.now) ≡ false) }
{
    for subscription in all {
        if let Some(queue) = subscription.queue() {
            return Some(queue);
        }
    }
    None
}

/// Returns whether a subscription is a member of another queue group.
fn is_other(subscription: &SharedSubscription, queue: &Subject) -> bool
    ensures { result ≡ is_other queue.now subscription.now.queue }
{
    match subscription.queue() {
        None => false,
        Some(other) => queue.bytes() != other.bytes(),
    }
}

/// Returns whether one of the subscriptions is a member of another queue group.
fn has_other(all: &[&SharedSubscription], queue: &Subject) -> bool
    ensures { result ≡ list_any (λ s. is_other queue.now s.queue) (map (λ s. s.now) all.now) }
{
    for subscription in all {
        if is_other(subscription, queue) {
            return true;
        }
    }
    false
}

/// Returns how many are members of queue groups.
fn count_members(all: &[&SharedSubscription]) -> usize
    ensures { result ≡ length (filter is_queued (map (λ s. s.now) all.now)) }
{
    let mut count = 0;
    for subscription in all {
        if subscription.queue().is_some() {
            count += 1;
        }
    }
    count
}

/// Returns the id of a member by its number, counted from the oldest, which is 0.
fn member_at(all: &[&SharedSubscription], number: usize) -> Option<u64>
    ensures { result ≡ option_map (λ s. s.id) (slice_get (filter is_queued (map (λ s. s.now) all.now)) number) }
{
    let mut left = number;
    for subscription in all {
        if subscription.queue().is_some() {
            if left == 0 {
                return Some(subscription.id());
            }
            left -= 1;
        }
    }
    None
}

/// Returns the id of the member that a word chooses, where all members are of one queue group.
fn member_for(all: &[&SharedSubscription], word: u64) -> Option<u64>
    ensures { result ≡ option_map (λ s. s.id) (chosen word (filter is_queued (map (λ s. s.now) all.now))) }
{
    let count = count_members(all);
    if count == 0 {
        return None;
    }
    let number = chosen_number(word, count);
    member_at(all, number)
}

/// Returns whether a subscription is plain, or the one that is chosen.
fn is_kept_alone(subscription: &SharedSubscription, id: Option<u64>) -> bool
    ensures { result ≡ is_kept_alone id subscription.now.id subscription.now.queue }
{
    match subscription.queue() {
        None => true,
        Some(_) => id == Some(subscription.id()),
    }
}

/// Drops the members but for the one that is chosen.
fn keep_alone(all: &mut Vec<&SharedSubscription>, id: Option<u64>)
    ensures { map (λ s. s.now) all.new.items
        ≡ filter (λ s. is_kept_alone id s.id s.queue) (map (λ s. s.now) all.old.items) }
{
    all.retain(|subscription| is_kept_alone(subscription, id));
}

/// Adds a subscription that is a member of a queue group.
fn add_member<'a>(
    members: &mut Vec<Member<'a>>,
    subscription: &'a SharedSubscription,
) -> Result<(), NoMemory>
    ensures { OnOk result (map named_member members.new.items
        ≡ map named_member members.old.items ++ filter_map named (subscription.now ∷ [])) }
{
    match subscription.queue() {
        None => Ok(()),
        Some(queue) => {
            members.push(Member {
                queue,
                id: subscription.id(),
            })?;
            Ok(())
        }
    }
}

/// Returns the members of queue groups, oldest first.
#[tactic(auto, using(crate::proofs::groups::Lists::filter_map_first))]
fn members_in<'a>(
    alloc: Global,
    all: &[&'a SharedSubscription],
) -> Result<Vec<Member<'a>>, NoMemory>
    ensures { IfOk result (λ members. map named_member members.items ≡ filter_map named (map (λ s. s.now) all.now)) }
{
    let mut members = Vec::new(alloc);
    for subscription in all {
        add_member(&mut members, subscription)?;
    }
    Ok(members)
}

/// Returns the ids of choices.
fn ids_of(
    alloc: Global,
    keys: RandomState,
    choices: &[Choice<'_>],
) -> Result<IndexSet<u64, RandomState>, NoMemory>
    ensures { IfOk result (λ ids. (id : ℕ) → list_any (nat_eq id) ids.keys ≡ is_choice choices.now id) }
{
    let mut ids = IndexSet::with_hasher(alloc, keys);
    for choice in choices {
        ids.insert(choice.id)?;
    }
    Ok(ids)
}

/// Returns the ids of the members that a word chooses, one of each queue group.
fn chosen_ids(
    alloc: Global,
    keys: RandomState,
    all: &[&SharedSubscription],
    word: u64,
) -> Result<IndexSet<u64, RandomState>, NoMemory>
    ensures { IfOk result (λ ids. Rising (map (λ s. s.now) all.now)
        → filter (is_kept ids.keys) (map (λ s. s.now) all.now) ≡ served word (map (λ s. s.now) all.now)) }
{
    let members = members_in(alloc, all)?;
    let choices = choose(alloc, keys, members.as_slice(), word)?;
    let ids = ids_of(alloc, keys, choices.as_slice())?;
    Ok(ids)
}

/// Returns whether a subscription is plain, or a member whose id is chosen.
fn is_kept(subscription: &SharedSubscription, ids: &IndexSet<u64, RandomState>) -> bool
    ensures { result ≡ is_kept ids.now.keys subscription.now }
{
    match subscription.queue() {
        None => true,
        Some(_) => ids.contains(&subscription.id()),
    }
}

/// Drops the members that aren't chosen.
fn keep_these(all: &mut Vec<&SharedSubscription>, ids: &IndexSet<u64, RandomState>)
    ensures { map (λ s. s.now) all.new.items ≡ filter (is_kept ids.now.keys) (map (λ s. s.now) all.old.items) }
{
    all.retain(|subscription| is_kept(subscription, ids));
}

/// Keeps of the members of queue groups those whom the word chooses, one of each group, and drops the others. Where
/// there is one group alone, or none, it takes no memory.
pub fn keep_chosen(
    alloc: Global,
    keys: RandomState,
    all: &mut Vec<&SharedSubscription>,
    word: u64,
) -> Result<(), NoMemory>
    ensures { OnOk result (Rising (map (λ s. s.now) all.old.items)
        → map (λ s. s.now) all.new.items ≡ served word (map (λ s. s.now) all.old.items)) }
{
    let Some(queue) = first_queue(all.as_slice()) else {
        return Ok(());
    };
    if has_other(all.as_slice(), queue) {
        let ids = chosen_ids(alloc, keys, all.as_slice(), word)?;
        keep_these(all, &ids);
        return Ok(());
    }
    let id = member_for(all.as_slice(), word);
    keep_alone(all, id);
    Ok(())
}
