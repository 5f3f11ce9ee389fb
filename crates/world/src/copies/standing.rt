ghost use Rattle.std.specs.Prelude.{◌≡◌, IfOk, map};
ghost use Rattle.world.specs.copies.Shown.{standing_of};

use base::{Copying, Items, NoMemory, Shared};
use events::Sid;
use std::alloc::Global;
use subjects::{Pattern, Subject};
use world_subscriptions::{SharedSubscription, Subscriptions};

/// A standing subscription, as it is shown.
#[derive(Drop)]
pub struct Standing {
    /// The number of the entry that made it.
    pub id: u64,
    /// The connection whose session has it.
    pub conn: u64,
    /// What it asks for.
    pub subject: Shared<Pattern>,
    /// The queue group that it is a member of, if it is of one.
    pub queue: Option<Subject>,
    /// The client's own id for it.
    pub sid: Sid,
    /// How many messages it has received since its SUB. It stays at 2^64 - 1.
    pub received: u64,
    /// How many it is to receive in all, where an UNSUB has said so.
    pub most: Option<u64>,
}

/// Returns the standing subscriptions, oldest first. `NoMemory` where memory could not be had.
pub fn standing_all(
    alloc: Global,
    subscriptions: &Subscriptions,
) -> Result<Items<Standing>, NoMemory>
    ensures { IfOk result (λ all. all ≡ map standing_of subscriptions.now) }
{
    let mut all = Vec::with_capacity(alloc, subscriptions.len())?;
    for subscription in subscriptions.values() {
        all.push(show_standing(alloc, subscription)?)?;
    }
    Ok(Items::from_vec(all))
}

/// Returns a standing subscription as it is shown.
fn show_standing(alloc: Global, subscription: &SharedSubscription) -> Result<Standing, NoMemory>
    ensures { IfOk result (λ shown. shown ≡ standing_of subscription.now) }
{
    Ok(Standing {
        id: subscription.id(),
        conn: subscription.conn(),
        subject: subscription.subject().again()?,
        queue: subscription.queue().copy(alloc)?,
        sid: subscription.sid().again()?,
        received: subscription.received(),
        most: subscription.most(),
    })
}
