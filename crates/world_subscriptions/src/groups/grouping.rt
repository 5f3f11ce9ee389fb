//! Whether queue groups leave all of some subscriptions, or one of them.
ghost use Rattle.std.specs.Prelude.{◌≡◌, map};
ghost use Rattle.std.specs.List.{list_any};
ghost use Rattle.world_subscriptions.specs.groups.Chosen.{Rising, is_queued, is_outside};
ghost use Rattle.world_subscriptions.specs.groups.Grouped.{AreGrouped};

use crate::SharedSubscription;
use crate::groups::groups::first_queue;
use subjects::Subject;

/// How subscriptions are grouped.
#[derive(Clone, Copy, Debug, PartialEq, Eq)]
pub enum Grouping {
    /// None is a member of a queue group.
    Plain,
    /// All are members of one queue group.
    OneGroup,
    /// They are of several queue groups, or of one and of none.
    Various,
}

/// Returns whether a subscription is not of a queue group.
fn is_outside(subscription: &SharedSubscription, queue: &Subject) -> bool
    ensures { result ≡ is_outside queue.now subscription.now.queue }
{
    match subscription.queue() {
        None => true,
        Some(other) => queue.bytes() != other.bytes(),
    }
}

/// Returns whether one of the subscriptions is not of a queue group.
fn has_outside(all: &[&SharedSubscription], queue: &Subject) -> bool
    ensures { result ≡ list_any (λ s. is_outside queue.now s.queue) (map (λ s. s.now) all.now) }
{
    for subscription in all {
        if is_outside(subscription, queue) {
            return true;
        }
    }
    false
}

/// Returns how subscriptions are grouped. It takes no memory.
pub fn grouping_of(all: &[&SharedSubscription]) -> Grouping
    requires { Rising (map (λ s. s.now) all.now) }
    ensures { AreGrouped result (map (λ s. s.now) all.now) }
{
    match first_queue(all) {
        None => Grouping::Plain,
        Some(queue) => {
            if has_outside(all, queue) {
                Grouping::Various
            } else {
                Grouping::OneGroup
            }
        }
    }
}
