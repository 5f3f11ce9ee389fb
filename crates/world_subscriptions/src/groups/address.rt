//! The deliveries of a message to those that are served.
ghost use Rattle.std.specs.Prelude.{◌≡◌, ◌++◌, ◌∷◌, [], false, true, IfOk, OnOk, filter, map};
ghost use Rattle.std.specs.List.{list_any};
ghost use Rattle.world_subscriptions.specs.Addressing.{addressed_to};
ghost use Rattle.world_subscriptions.specs.Index.{found_by};
ghost use Rattle.world_subscriptions.specs.Subscriptions.{having};
ghost use Rattle.world_subscriptions.specs.groups.Chosen.{Rising, is_queued};
ghost use Rattle.world_subscriptions.specs.groups.Served.{served};

use crate::groups::groups::keep_chosen;
use crate::{Keeps, SharedSubscription, Subscriptions, address_each, addressed_to};
use base::NoMemory;
use events::{Addressed, Message};
use std::alloc::Global;
use std::hash::RandomState;
use subjects::SubjectRef;

/// Adds the subscription of an id, where it passes a test.
fn add_passing<'a, K: Keeps>(
    subscriptions: &'a Subscriptions,
    id: u64,
    test: &K,
    found: &mut Vec<&'a SharedSubscription>,
) -> Result<(), NoMemory>
    ensures { OnOk result (map (λ s. s.now) found.new.items
        ≡ map (λ s. s.now) found.old.items ++ filter (K.keeps test.now) (found_by subscriptions.now (id ∷ []))) }
{
    match subscriptions.get(id) {
        None => Ok(()),
        Some(subscription) => {
            if test.keeps(subscription) {
                found.push(subscription)?;
            }
            Ok(())
        }
    }
}

/// Returns the subscriptions of these ids that pass a test.
#[tactic(auto, using(crate::proofs::groups::Passing::passing_first))]
fn passing<'a, K: Keeps>(
    alloc: Global,
    subscriptions: &'a Subscriptions,
    ids: &[u64],
    test: &K,
) -> Result<Vec<&'a SharedSubscription>, NoMemory>
    ensures { IfOk result (λ found. map (λ s. s.now) found.items ≡ filter (K.keeps test.now) (found_by subscriptions.now ids.now)) }
{
    let mut found = Vec::with_capacity(alloc, ids.len())?;
    for id in ids {
        add_passing(subscriptions, *id, test, &mut found)?;
    }
    Ok(found)
}

/// Returns those of an account that have a subject and pass a test, oldest first. Their ids are found in `ids`, whose
/// memory is used again. `NoMemory` where memory could not be had.
pub fn passing_of<'a, K: Keeps>(
    alloc: Global,
    subscriptions: &'a Subscriptions,
    account: &[u8],
    subject: &SubjectRef<'_>,
    test: &K,
    ids: &mut Vec<u64>,
) -> Result<Vec<&'a SharedSubscription>, NoMemory>
    ensures found { IfOk result (λ found. map (λ s. s.now) found.items ≡ filter (K.keeps test.now) (having account.now subject.now subscriptions.now)) }
    ensures rising { IfOk result (λ found. Rising (map (λ s. s.now) found.items)) }
{
    subscriptions.prove_invariant();
    subscriptions.having(account, subject, ids)?;
    let found = passing(alloc, subscriptions, ids.as_slice(), test)?;
    Ok(found)
}

/// Addresses a message to the subscription of an id, where it passes a test and is of no queue group. Returns whether
/// it isn't a member of one that passes.
fn address_plain<K: Keeps>(
    subscriptions: &Subscriptions,
    id: u64,
    test: &K,
    message: &Message,
    all: &mut Vec<Addressed>,
) -> Result<bool, NoMemory>
    ensures added { IfOk result (λ plain. plain ≡ true → all.new.items ≡ all.old.items
        ++ map (addressed_to message.now) (filter (K.keeps test.now) (found_by subscriptions.now (id ∷ [])))) }
    ensures plain { IfOk result (λ plain. plain ≡ true → list_any is_queued (filter (K.keeps test.now) (found_by subscriptions.now (id ∷ []))) ≡ false) }
{
    match subscriptions.get(id) {
        None => Ok(true),
        Some(subscription) => {
            if !test.keeps(subscription) {
                return Ok(true);
            }
            if subscription.queue().is_some() {
                return Ok(false);
            }
            all.push(addressed_to(message, subscription)?)?;
            Ok(true)
        }
    }
}

/// Addresses a message to the subscriptions of these ids that pass a test, up to the first that is a member of a queue
/// group. Returns whether none was.
#[tactic(auto, using(crate::proofs::groups::Passing::passing_first))]
fn address_all_plain<K: Keeps>(
    subscriptions: &Subscriptions,
    ids: &[u64],
    test: &K,
    message: &Message,
    all: &mut Vec<Addressed>,
) -> Result<bool, NoMemory>
    ensures added { IfOk result (λ plain. plain ≡ true → all.new.items ≡ all.old.items
        ++ map (addressed_to message.now) (filter (K.keeps test.now) (found_by subscriptions.now ids.now))) }
    ensures plain { IfOk result (λ plain. plain ≡ true → list_any is_queued (filter (K.keeps test.now) (found_by subscriptions.now ids.now)) ≡ false) }
{
    for id in ids {
        if !address_plain(subscriptions, *id, test, message, all)? {
            return Ok(false);
        }
    }
    Ok(true)
}

/// A message that is to be addressed.
#[derive(Clone, Copy, Debug)]
pub struct Routed<'a> {
    /// The name of the account in which it was published.
    pub account: &'a [u8],
    /// The message.
    pub message: &'a Message,
    /// What chooses a member of each queue group.
    pub word: u64,
}

/// Addresses a message to those of its account that have its subject, pass a test and are served, oldest first, and puts
/// these deliveries in the place of what was in `all`: to the plain ones, and to the member of each queue group that the
/// word chooses. The ids are found in `ids`, whose memory is used again. Queue names are hashed under these keys.
/// `NoMemory` where memory could not be had.
pub fn address_served<K: Keeps>(
    keys: RandomState,
    subscriptions: &Subscriptions,
    routed: Routed<'_>,
    test: &K,
    ids: &mut Vec<u64>,
    all: &mut Vec<Addressed>,
) -> Result<(), NoMemory>
    ensures { OnOk result (all.new.items ≡ map (addressed_to routed.entry.message.now)
        (served routed.entry.word (filter (K.keeps test.now) (having routed.entry.account.now routed.entry.message.now.subject subscriptions.now)))) }
{
    let message = routed.message;
    subscriptions.prove_invariant();
    subscriptions.having(routed.account, &message.subject(), ids)?;
    all.clear();
    if address_all_plain(subscriptions, ids.as_slice(), test, message, all)? {
        return Ok(());
    }
    all.clear();
    let alloc = *all.allocator();
    let mut found = passing(alloc, subscriptions, ids.as_slice(), test)?;
    keep_chosen(alloc, keys, &mut found, routed.word)?;
    address_each(message, found.as_slice(), all)?;
    Ok(())
}
