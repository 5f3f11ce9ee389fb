//! The standing subscriptions in the trees of their accounts.
ghost use Rattle.std.specs.Prelude.{OnOk, OnErr};
ghost use Rattle.world_rows.specs.ids.Trees.{IsSame};
ghost use Rattle.world_subscriptions.specs.Index.{IsWith, IsWithout};

use crate::SharedSubscription;
use base::NoMemory;
use world_rows::ids::Trees;

/// Adds a subscription. After `NoMemory` the trees hold what they held.
pub(crate) fn insert(trees: &mut Trees, subscription: &SharedSubscription) -> Result<(), NoMemory>
    ensures ok { OnOk result (IsWith trees.old subscription.now trees.new) }
    ensures err { OnErr result (IsSame trees.old trees.new) }
{
    let account = subscription.account().as_slice();
    trees.insert(account, subscription.subject().get(), subscription.id())?;
    Ok(())
}

/// Takes a subscription out, if it is there. It takes no memory.
pub(crate) fn remove(trees: &mut Trees, subscription: &SharedSubscription)
    ensures { IsWithout trees.old subscription.now trees.new }
{
    let account = subscription.account().as_slice();
    trees.remove(account, subscription.subject().get(), subscription.id());
}
