//! What a user's new lists judge otherwise than the old ones, a question of each kind.
ghost use Rattle.std.specs.Prelude.{◌≡◌, ◌||◌, [], Bool, false, IfOk, OnOk, is_some};
ghost use Rattle.std.specs.List.{list_any};
ghost use Rattle.pattern_sets.specs.Judging.{IsFound};
ghost use Rattle.message_changes.specs.Exact.{has_part, has_parts, is_of, is_same, is_wide, AreJudgedAlike, AreTold, HasNone, HasNoWide, IsFront, NoneChanges};
ghost use Rattle.message_changes.specs.Judging.{changes_by, AreChanges};
ghost use Rattle.message_changes.specs.declared.kind.MessageKind.TheVariants.{Subscribe, QueueSubscribe, Delivery, QueueDelivery};

use crate::reasons::{allow_of, deny_of};
use crate::{MessageKind, first_between};
use base::NoMemory;
use pattern_sets::Asked;
use permissions::Compiled;
use policy_doc::permission_doc::PermEntry;
use std::alloc::Global;

/// A question that one of a user's lists allow and the other refuse.
#[derive(Debug, Drop)]
pub struct MessageChange {
    /// What kind of question it is.
    pub kind: MessageKind,
    /// Whether the new lists allow it.
    pub is_gain: bool,
    /// The question.
    pub asked: Asked,
}

/// Returns a question of each kind that the new lists allow and the old refuse, and the reverse: of publishes, of
/// subscriptions without a queue, of those with one, and of deliveries, what is gained first. With queues nothing is
/// asked where no entry has a queue part, since each verdict is that without a queue then. Of deliveries nothing is
/// told where a subscription is told that is gained or lost likewise. Where nothing is told, both lists allow the same.
/// `NoMemory` where memory could not be had.
pub fn changes_between(
    alloc: Global,
    old: &Compiled,
    new: &Compiled,
) -> Result<Vec<MessageChange>, NoMemory>
    ensures changes { IfOk result (λ changes. AreChanges old.now new.now changes.items) }
    ensures told { IfOk result (λ changes. (is_gain : Bool) → AreTold old.now new.now is_gain changes.items) }
    ensures alike { IfOk result (λ changes. changes.items ≡ [] → AreJudgedAlike old.now new.now) }
{
    let mut all = Vec::new(alloc);
    add_both(alloc, &mut all, MessageKind::Publish, old, new)?;
    add_both(alloc, &mut all, MessageKind::Subscribe, old, new)?;
    add_queued(alloc, &mut all, old, new)?;
    add_delivery(alloc, &mut all, true, old, new)?;
    add_delivery(alloc, &mut all, false, old, new)?;
    Ok(all)
}

/// Appends what is gained and what is lost of a kind.
fn add_both(
    alloc: Global,
    all: &mut Vec<MessageChange>,
    kind: MessageKind,
    old: &Compiled,
    new: &Compiled,
) -> Result<(), NoMemory>
    ensures changes { OnOk result (AreChanges old.now new.now all.old.items → AreChanges old.now new.now all.new.items) }
    ensures front { OnOk result (IsFront all.old.items all.new.items) }
    ensures told { OnOk result ((is_gain : Bool) → HasNone kind is_gain all.new.items → NoneChanges old.now new.now is_gain kind) }
{
    add_change(alloc, all, kind, true, old, new)?;
    add_change(alloc, all, kind, false, old, new)?;
    Ok(())
}

/// Appends the subscriptions with a queue that are gained and lost, where an entry has a queue part.
fn add_queued(
    alloc: Global,
    all: &mut Vec<MessageChange>,
    old: &Compiled,
    new: &Compiled,
) -> Result<(), NoMemory>
    ensures changes { OnOk result (AreChanges old.now new.now all.old.items → AreChanges old.now new.now all.new.items) }
    ensures front { OnOk result (IsFront all.old.items all.new.items) }
    ensures told { OnOk result ((is_gain : Bool) → NoneChanges old.now new.now is_gain Subscribe → HasNone QueueSubscribe is_gain all.new.items → NoneChanges old.now new.now is_gain QueueSubscribe) }
{
    if !have_queues_of_two(old, new) {
        return Ok(());
    }
    add_both(alloc, all, MessageKind::QueueSubscribe, old, new)?;
    Ok(())
}

/// Whether an entry of one of two subscribe lists has a queue part.
fn have_queues_of_two(old: &Compiled, new: &Compiled) -> bool
    ensures { result ≡ (has_parts old.now.subscribe || has_parts new.now.subscribe) }
{
    have_queues(old) || have_queues(new)
}

/// Appends what is gained, or what is lost, of a kind.
fn add_change(
    alloc: Global,
    all: &mut Vec<MessageChange>,
    kind: MessageKind,
    is_gain: bool,
    old: &Compiled,
    new: &Compiled,
) -> Result<(), NoMemory>
    ensures changes { OnOk result (AreChanges old.now new.now all.old.items → AreChanges old.now new.now all.new.items) }
    ensures front { OnOk result (IsFront all.old.items all.new.items) }
    ensures told { OnOk result (HasNone kind is_gain all.new.items → NoneChanges old.now new.now is_gain kind) }
{
    let found = change_of(alloc, kind, is_gain, old, new)?;
    match found {
        None => Ok(()),
        Some(asked) => {
            let change = MessageChange {
                kind,
                is_gain,
                asked,
            };
            all.push(change)?;
            Ok(())
        }
    }
}

/// Returns a question of a kind that is gained, or one that is lost.
fn change_of(
    alloc: Global,
    kind: MessageKind,
    is_gain: bool,
    old: &Compiled,
    new: &Compiled,
) -> Result<Option<Asked>, NoMemory>
    ensures found { IfOk result (IsFound (changes_by is_gain kind old.now new.now)) }
    ensures none { IfOk result (λ found. is_some found ≡ false → NoneChanges old.now new.now is_gain kind) }
{
    if is_gain {
        first_between(alloc, kind, new, old)
    } else {
        first_between(alloc, kind, old, new)
    }
}

/// Appends a delivery that is gained, or one that is lost, without a queue or else with one, unless a subscription
/// is.
fn add_delivery(
    alloc: Global,
    all: &mut Vec<MessageChange>,
    is_gain: bool,
    old: &Compiled,
    new: &Compiled,
) -> Result<(), NoMemory>
    ensures changes { OnOk result (AreChanges old.now new.now all.old.items → AreChanges old.now new.now all.new.items) }
    ensures front { OnOk result (IsFront all.old.items all.new.items) }
    ensures delivery { OnOk result (HasNoWide is_gain all.new.items → HasNone Delivery is_gain all.new.items → NoneChanges old.now new.now is_gain Delivery) }
    ensures queue_delivery { OnOk result (HasNoWide is_gain all.new.items → HasNone Delivery is_gain all.new.items → HasNone QueueDelivery is_gain all.new.items → NoneChanges old.now new.now is_gain QueueDelivery) }
{
    if has_subscription(all.as_slice(), is_gain) {
        return Ok(());
    }
    add_change(alloc, all, MessageKind::Delivery, is_gain, old, new)?;
    if has_delivery(all.as_slice(), is_gain) {
        return Ok(());
    }
    if !have_queues_of_two(old, new) {
        return Ok(());
    }
    add_change(alloc, all, MessageKind::QueueDelivery, is_gain, old, new)?;
    Ok(())
}

/// Whether a subscription is among what is gained, or what is lost.
fn has_subscription(all: &[MessageChange], is_gain: bool) -> bool
    ensures { result ≡ list_any (is_wide is_gain) all.now }
{
    all.iter().any(|change| is_wide(change, is_gain))
}

/// Whether it is a subscription that is gained, or one that is lost.
fn is_wide(change: &MessageChange, is_gain: bool) -> bool
    ensures { result ≡ is_wide is_gain change.now }
{
    change.kind.has_tails() && is_same(is_gain, change.is_gain)
}

/// Whether a delivery is among what is gained, or what is lost.
fn has_delivery(all: &[MessageChange], is_gain: bool) -> bool
    ensures { result ≡ list_any (is_of Delivery is_gain) all.now }
{
    all.iter().any(|change| is_delivery(change, is_gain))
}

/// Whether it is a delivery that is gained, or one that is lost.
fn is_delivery(change: &MessageChange, is_gain: bool) -> bool
    ensures { result ≡ is_of Delivery is_gain change.now }
{
    change.kind.is_delivery() && is_same(is_gain, change.is_gain)
}

/// Whether both are gains, or both losses.
fn is_same(one: bool, other: bool) -> bool
    ensures { result ≡ is_same one other }
{
    if one { other } else { !other }
}

/// Whether an entry of subscribe lists has a queue part.
fn have_queues(lists: &Compiled) -> bool
    ensures { result ≡ has_parts lists.now.subscribe }
{
    let rules = MessageKind::Subscribe.rules_of(lists);
    has_queue(allow_of(rules)) || has_queue(deny_of(rules))
}

/// Whether one of these entries has a queue part.
fn has_queue(entries: &[PermEntry]) -> bool
    ensures { result ≡ list_any has_part entries.now }
{
    entries.iter().any(|entry| entry.queue.is_some())
}
