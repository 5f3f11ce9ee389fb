//! A subscription as its deliveries name it.
ghost use Rattle.std.specs.Prelude.{◌≡◌, ◌++◌, IfOk, OnOk, map};
ghost use Rattle.events.specs.Sendings.{named};
ghost use Rattle.receivers.specs.views.Receivers.{addressed_at, receiver_of};

use base::{NoMemory, Shared};
use events::{Addressed, Delivery, Message, Names, Sent, Sid};
use std::alloc::Global;
use std::mem;
use world_subscriptions::SharedSubscription;

/// What a delivery needs of the subscription that it is for.
#[derive(Drop)]
pub struct Receiver {
    id: u64,
    conn: u64,
    sid: Sid,
}

impl Receiver {
    /// Returns the receiver of a subscription. `NoMemory` where its sid has too many owners to count.
    pub fn of(subscription: &SharedSubscription) -> Result<Receiver, NoMemory>
        ensures { IfOk result (λ receiver. receiver ≡ receiver_of subscription.now) }
    {
        Ok(Receiver {
            id: subscription.id(),
            conn: subscription.conn(),
            sid: subscription.sid().again()?,
        })
    }

    /// Returns a message on its way to it. It is not copied: the delivery is one more owner. `NoMemory` where there are too many
    /// owners to count.
    #[inline(always)]
    pub fn address(&self, message: &Message) -> Result<Addressed, NoMemory>
        ensures { IfOk result (λ addressed. addressed ≡ addressed_at message.now self.now) }
    {
        Ok(Addressed {
            id: self.id,
            conn: self.conn,
            delivery: Delivery {
                message: Sent::own(message.again()?),
                sid: self.sid.again()?,
            },
            noted: None,
        })
    }

    /// Returns a message on its way to it under names. Neither is copied: the delivery is one more owner of both. `NoMemory` where
    /// there are too many owners to count.
    pub fn address_under(
        &self,
        message: &Message,
        names: &Shared<Names>,
    ) -> Result<Addressed, NoMemory>
        ensures { IfOk result (λ addressed. addressed ≡ addressed_at (named names.now message.now) self.now) }
    {
        Ok(Addressed {
            id: self.id,
            conn: self.conn,
            delivery: Delivery {
                message: Sent::under(message.again()?, names.again()?),
                sid: self.sid.again()?,
            },
            noted: None,
        })
    }
}

/// Returns the receivers of these subscriptions, in turn. `NoMemory` where memory could not be had.
pub fn receivers_of(
    alloc: Global,
    subscriptions: &[&SharedSubscription],
) -> Result<Vec<Receiver>, NoMemory>
    ensures { IfOk result (λ all. all.items ≡ map receiver_of (map (λ s. s.now) subscriptions.now)) }
{
    let mut all = Vec::with_capacity(alloc, subscriptions.len())?;
    for subscription in subscriptions {
        all.push(Receiver::of(subscription)?)?;
    }
    Ok(all)
}

/// Addresses a message to receivers, in turn, and adds these deliveries. The list is a local meanwhile, so that its fields stay in
/// registers. What stands in its place takes no memory. `NoMemory` where memory could not be had: then `all` may have lost what stood in
/// it.
pub fn address_each(
    message: &Message,
    receivers: &[Receiver],
    all: &mut Vec<Addressed>,
) -> Result<(), NoMemory>
    ensures { OnOk result (all.new.items ≡ all.old.items ++ map (addressed_at message.now) receivers.now) }
{
    all.reserve(receivers.len())?;
    let alloc = *all.allocator();
    let mut made = mem::replace(all, Vec::new(alloc));
    for receiver in receivers {
        made.push_reserved(receiver.address(message)?);
    }
    mem::forget(mem::replace(all, made));
    Ok(())
}

/// Addresses a message to receivers, in turn, under names, and adds these deliveries. `NoMemory` where memory could not be had: then
/// some may be added.
#[inline(always)]
pub fn address_each_under(
    message: &Message,
    names: &Shared<Names>,
    receivers: &[Receiver],
    all: &mut Vec<Addressed>,
) -> Result<(), NoMemory>
    ensures { OnOk result (all.new.items ≡ all.old.items ++ map (addressed_at (named names.now message.now)) receivers.now) }
{
    all.reserve(receivers.len())?;
    for receiver in receivers {
        all.push_reserved(receiver.address_under(message, names)?);
    }
    Ok(())
}
