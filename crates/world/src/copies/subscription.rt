ghost use Rattle.std.specs.Prelude.{◌≡◌, IfOk};

use base::{Alike, Items, NoMemory};
use std::alloc::Global;
use std::marker::Model;
use world_subscriptions::{SharedSubscription, Subscriptions};

/// A subscription as it stood at a moment. A clause sees the subscription.
pub struct PlainSubscription {
    subscription: SharedSubscription,
}

impl Drop for PlainSubscription {
    fn drop(self) {
        let Self { subscription: _ } = self;
    }
}

impl Model for PlainSubscription {
    ghost use Rattle.world_rows.specs.declared.subscription.Subscription as subscriptions;

    ghost Value = { subscriptions.Subscription };

    ghost view = { λ s. s.subscription };
}

impl PlainSubscription {
    /// A subscription as it stands. `NoMemory` where it has too many owners to count.
    fn of(subscription: &SharedSubscription) -> Result<PlainSubscription, NoMemory>
        ensures { IfOk result (λ plain. plain ≡ subscription.now) }
    {
        Ok(PlainSubscription {
            subscription: subscription.again()?,
        })
    }
}

/// Subscriptions as they stand, oldest first. `NoMemory` where memory could not be had.
pub fn plain_subscriptions(
    alloc: Global,
    subscriptions: &Subscriptions,
) -> Result<Items<PlainSubscription>, NoMemory>
    ensures { IfOk result (λ all. all ≡ subscriptions.now) }
{
    let mut all = Vec::with_capacity(alloc, subscriptions.len())?;
    for subscription in subscriptions.values() {
        all.push(PlainSubscription::of(subscription)?)?;
    }
    Ok(Items::from_vec(all))
}

impl Alike for PlainSubscription {
    fn is_like(&self, other: &PlainSubscription) -> bool {
        are_same(&self.subscription, &other.subscription)
    }
}

/// Whether two subscriptions are equal.
fn are_same(one: &SharedSubscription, other: &SharedSubscription) -> bool
    ensures { Decides result (one.now ≡ other.now) }
{
    one.id() == other.id()
        && one.conn() == other.conn()
        && one.received() == other.received()
        && one.most().is_like(&other.most())
        && one.sid().is_like(other.sid())
        && one.account().is_like(other.account())
        && one.subject().is_like(other.subject())
        && one.queue().is_like(other.queue())
}

ghost use Rattle.std.specs.Bool.{Decides};
