//! Changes of the rows and of what finds them, by ids.
ghost use Rattle.std.specs.Prelude.{◌≡◌, ◌==◌, ◌<◌, ◌++◌, ◌∷◌, [], MatchOption, OnOk, OnErr, IfErr, All, false, filter, not};
ghost use Rattle.std.specs.HashMap.{values, IsUnique};
ghost use Rattle.std.specs.Map.{lookup, remove_entry, values_of};
ghost use Rattle.world_subscriptions.specs.Changes.{is_id};
ghost use Rattle.world_rows.specs.ids.Sids.{same_sid};
ghost use Rattle.world_rows.specs.ids.Trees.{IsSame};
ghost use Rattle.world_rows.specs.declared.subscription.Subscription.{Subscription};
ghost use Rattle.world_subscriptions.specs.BySid.{IsWithoutAll};
ghost use Rattle.world_subscriptions.specs.Index.{IsTable, IsWithout, if_any};
ghost use Rattle.world_subscriptions.specs.Limit.{has_ended};
ghost use Rattle.world_subscriptions.specs.Subscriptions.{stands};
ghost use Rattle.world_subscriptions.specs.Counting.{is_one_of};

use crate::{SharedSubscription, sids, trees};
use world_rows::Rows;
use world_rows::ids::{Own, Sids, Trees};

/// Takes the subscription of that id out, and out of the trees. Returns it, if it stood.
fn take_out(by_id: &mut Rows, trees: &mut Trees, id: u64) -> Option<SharedSubscription>
    ensures gone { result ≡ lookup (is_id id) by_id.old }
    ensures entries { by_id.new ≡ remove_entry (is_id id) by_id.old }
    ensures trees { MatchOption (lookup (is_id id) by_id.old) (IsSame trees.old trees.new) (λ sub. IsWithout trees.old sub trees.new) }
{
    match by_id.remove(id) {
        None => None,
        Some(gone) => {
            trees::remove(trees, &gone);
            Some(gone)
        }
    }
}

/// Takes the subscription of that id, which has ended, out of all that finds it. Apart, so that what counts a message stays
/// small: hardly any subscription ends.
#[inline(never)]
pub(crate) fn end_at(by_id: &mut Rows, trees: &mut Trees, sids: &mut Sids, id: u64)
    ensures entries { by_id.new ≡ remove_entry (is_id id) by_id.old }
    ensures trees { MatchOption (lookup (is_id id) by_id.old) (IsSame trees.old trees.new) (λ sub. IsWithout trees.old sub trees.new) }
    ensures sids { IsWithoutAll sids.old (if_any (lookup (is_id id) by_id.old)) sids.new }
{
    match take_out(by_id, trees, id) {
        None => {}
        Some(gone) => sids::remove(sids, &gone),
    }
}

/// Adds a subscription, the youngest of all, to the rows and the trees. Without memory it is handed back, and neither has
/// changed.
pub(crate) fn enter(
    by_id: &mut Rows,
    trees: &mut Trees,
    subscription: SharedSubscription,
) -> Result<(), SharedSubscription>
    requires table { IsTable by_id.old trees.old }
    requires above { All (λ (s : Subscription). s.id < subscription.id) (values_of by_id.old) }
    requires free { stands (values_of by_id.old) subscription.conn subscription.sid ≡ false }
    requires going { has_ended subscription ≡ false }
    ensures table { IsTable by_id.new trees.new }
    ensures ok { OnOk result (values_of by_id.new ≡ values_of by_id.old ++ subscription ∷ []) }
    ensures err { OnErr result (values_of by_id.new ≡ values_of by_id.old) }
    ensures back { IfErr result (λ refused. refused ≡ subscription) }
{
    match trees::insert(trees, &subscription) {
        Err(_) => Err(subscription),
        Ok(()) => match by_id.insert(subscription.id(), subscription) {
            Ok(_) => Ok(()),
            Err(back) => {
                trees::remove(trees, &back);
                Err(back)
            }
        },
    }
}

/// Takes the subscription of that id out of the rows and the trees, if it stands.
fn take(by_id: &mut Rows, trees: &mut Trees, id: u64)
    requires { IsTable by_id.old trees.old }
    ensures table { IsTable by_id.new trees.new }
    ensures left { values_of by_id.new ≡ filter (λ (s : Subscription). not (s.id == id)) (values_of by_id.old) }
{
    let _gone = take_out(by_id, trees, id);
}

/// Takes the subscriptions of a connection's ids out of the rows and the trees.
#[tactic(auto, using(crate::proofs::BySid::one_out, crate::proofs::BySid::none_out))]
pub(crate) fn take_each(by_id: &mut Rows, trees: &mut Trees, own: &Own)
    requires { IsTable by_id.old trees.old }
    ensures table { IsTable by_id.new trees.new }
    ensures left { values_of by_id.new ≡ filter (λ (s : Subscription). not (is_one_of (values own.now) s)) (values_of by_id.old) }
    ensures unique { IsUnique same_sid own.now }
{
    for id in own.values() {
        take(by_id, trees, *id);
    }
}
