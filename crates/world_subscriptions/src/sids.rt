//! The standing subscriptions in the index by connection and sid.
ghost use Rattle.std.specs.Prelude.{OnOk, OnErr};
ghost use Rattle.world_rows.specs.ids.Sids.{IsSame};
ghost use Rattle.world_subscriptions.specs.BySid.{IsWith, IsWithout};

use crate::SharedSubscription;
use base::NoMemory;
use world_rows::ids::Sids;

/// Adds the sid of a subscription. After `NoMemory` the sids are what they were.
pub(crate) fn insert(sids: &mut Sids, subscription: &SharedSubscription) -> Result<(), NoMemory>
    ensures ok { OnOk result (IsWith sids.old subscription.now sids.new) }
    ensures err { OnErr result (IsSame sids.old sids.new) }
{
    let sid = subscription.sid().as_slice();
    sids.insert(subscription.conn(), sid, subscription.id())?;
    Ok(())
}

/// Takes the sid of a subscription out. It takes no memory.
pub(crate) fn remove(sids: &mut Sids, subscription: &SharedSubscription)
    ensures { IsWithout sids.old subscription.now sids.new }
{
    sids.remove(subscription.conn(), subscription.sid().as_slice());
}
