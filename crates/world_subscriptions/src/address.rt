//! A message addressed to subscriptions.
ghost use Rattle.std.specs.Prelude.{◌≡◌, ◌++◌, IfOk, OnOk, map};
ghost use Rattle.world_subscriptions.specs.Addressing.{addressed_to};

use crate::SharedSubscription;
use base::NoMemory;
use events::{Addressed, Delivery, Message, Sent};

/// Addresses a message to subscriptions, in turn, and adds these deliveries. On `NoMemory` some of them may have been
/// added.
pub fn address_each(
    message: &Message,
    subscriptions: &[&SharedSubscription],
    all: &mut Vec<Addressed>,
) -> Result<(), NoMemory>
    ensures { OnOk result (all.new.items ≡ all.old.items
        ++ map (addressed_to message.now) (map (λ s. s.now) subscriptions.now)) }
{
    for subscription in subscriptions {
        all.push(addressed_to(message, subscription)?)?;
    }
    Ok(())
}

/// Returns the message on its way to a subscription. It is not copied: the delivery is one more owner. `NoMemory` where
/// there are too many owners to count.
pub fn addressed_to(
    message: &Message,
    subscription: &SharedSubscription,
) -> Result<Addressed, NoMemory>
    ensures { IfOk result (λ addressed. addressed ≡ addressed_to message.now subscription.now) }
{
    Ok(Addressed {
        id: subscription.id(),
        conn: subscription.conn(),
        delivery: Delivery {
            message: Sent::own(message.again()?),
            sid: subscription.sid().again()?,
        },
        noted: None,
    })
}
