//! A message addressed under the subject of a view.
ghost use Rattle.std.specs.Prelude.{◌≡◌, ◌++◌, OnOk, map};
ghost use Rattle.events.specs.Sendings.{named};
ghost use Rattle.world_subscriptions.specs.Addressing.{addressed_to};

use crate::addressing::Seen;
use base::{NoMemory, Shared};
use events::{Addressed, Message, Names};
use receivers::views::{Receiver, names_of};
use std::alloc::Global;
use world_subscriptions::SharedSubscription;

/// Addresses a message to subscriptions, in turn, under the subject of a view and with the reply that is said there, and adds these
/// deliveries, which share both.
pub(crate) fn address_under(
    alloc: Global,
    message: &Message,
    seen: Seen<'_>,
    found: &[&SharedSubscription],
    all: &mut Vec<Addressed>,
) -> Result<(), NoMemory>
    ensures { OnOk result (all.new.items ≡ all.old.items
        ++ map (addressed_to (named (record { subject = seen.entry.subject.now; reply = seen.entry.reply }) message.now)) (map (λ s. s.now) found.now)) }
{
    if found.is_empty() {
        return Ok(());
    }
    let names = names_of(alloc, seen.subject, seen.reply)?;
    address_named(message, &names, found, all)?;
    Ok(())
}

/// Addresses a message to subscriptions, in turn, under names, and adds these deliveries.
fn address_named(
    message: &Message,
    names: &Shared<Names>,
    found: &[&SharedSubscription],
    all: &mut Vec<Addressed>,
) -> Result<(), NoMemory>
    ensures { OnOk result (all.new.items ≡ all.old.items ++ map (addressed_to (named names.now message.now)) (map (λ s. s.now) found.now)) }
{
    for subscription in found {
        let receiver = Receiver::of(subscription)?;
        all.push(receiver.address_under(message, names)?)?;
    }
    Ok(())
}
