//! Whom a message is for, of the receivers that it may be sent to.
ghost use Rattle.std.specs.Prelude.{◌≡◌, ◌++◌, OnOk, map};
ghost use Rattle.std.specs.Option.{option_copied};
ghost use Rattle.events.specs.Sendings.{named};
ghost use Rattle.world_subscriptions.specs.queue_choice.Choices.{chosen};
ghost use Rattle.world_subscriptions.specs.groups.Chosen.{Rising};
ghost use Rattle.world_subscriptions.specs.groups.Grouped.{if_any};
ghost use Rattle.receivers.specs.views.CachedViews.{IsWhom, count_of};
ghost use Rattle.receivers.specs.views.Receivers.{addressed_at};

use crate::views::receiver::{Receiver, receivers_of};
use base::{NoMemory, Shared};
use events::{Addressed, Message, Names};
use std::alloc::Global;
use world_subscriptions::SharedSubscription;
use world_subscriptions::groups::{Grouping, grouping_of};
use world_subscriptions::queue_choice::chosen_number;

/// Whom a message is for, of the receivers that it may be sent to.
#[derive(Drop)]
pub enum Whom {
    /// Each of them.
    Each(Vec<Receiver>),
    /// The one that the message's word chooses: they are the members of one queue group.
    One(Vec<Receiver>),
    /// Members of several queue groups, or others besides: it is found for each message.
    Various,
}

impl Whom {
    /// Returns how many receivers are known.
    pub fn len(&self) -> usize
        ensures { result ≡ count_of self.now }
    {
        match self {
            Whom::Each(receivers) => receivers.len(),
            Whom::One(receivers) => receivers.len(),
            Whom::Various => 0,
        }
    }
}

/// Returns the receiver that a word chooses, if there are any.
fn chosen_of(receivers: &[Receiver], word: u64) -> Option<&Receiver>
    ensures { option_copied result ≡ chosen word receivers.now }
{
    let count = receivers.len();
    if count == 0 {
        return None;
    }
    receivers.get(chosen_number(word, count))
}

/// Adds the delivery of a message to the receiver that its word chooses. `NoMemory` where memory could not be had.
pub fn address_chosen(
    message: &Message,
    receivers: &[Receiver],
    word: u64,
    all: &mut Vec<Addressed>,
) -> Result<(), NoMemory>
    ensures { OnOk result (all.new.items ≡ all.old.items ++ map (addressed_at message.now) (if_any (chosen word receivers.now))) }
{
    match chosen_of(receivers, word) {
        None => Ok(()),
        Some(receiver) => {
            all.reserve(1)?;
            all.push_reserved(receiver.address(message)?);
            Ok(())
        }
    }
}

/// Adds the delivery of a message under names to the receiver that its word chooses. `NoMemory` where memory could not be had.
pub fn address_chosen_under(
    message: &Message,
    names: &Shared<Names>,
    receivers: &[Receiver],
    word: u64,
    all: &mut Vec<Addressed>,
) -> Result<(), NoMemory>
    ensures { OnOk result (all.new.items ≡ all.old.items ++ map (addressed_at (named names.now message.now)) (if_any (chosen word receivers.now))) }
{
    match chosen_of(receivers, word) {
        None => Ok(()),
        Some(receiver) => {
            all.push(receiver.address_under(message, names)?)?;
            Ok(())
        }
    }
}

/// Returns whom of these subscriptions a message is for that may be sent to them. Without memory it is found for each
/// message.
pub fn whom_of(alloc: Global, found: &[&SharedSubscription]) -> Whom
    requires { Rising (map (λ s. s.now) found.now) }
    ensures { IsWhom result (map (λ s. s.now) found.now) }
{
    match receivers_of(alloc, found) {
        Err(_) => Whom::Various,
        Ok(receivers) => match grouping_of(found) {
            Grouping::Plain => Whom::Each(receivers),
            Grouping::OneGroup => Whom::One(receivers),
            Grouping::Various => Whom::Various,
        },
    }
}
