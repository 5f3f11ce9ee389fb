//! What was planned for a publish is done.
ghost use Rattle.std.specs.Prelude.{◌≡◌, ◌≤◌, ◌⊎◌, List};
ghost use Rattle.policy_ready.specs.declared.imports.rows.ImportRow.{ImportRow};
ghost use Rattle.receivers.specs.cache.Cached.{IsCurrent, IsEmpty};
ghost use Rattle.world_subscriptions.specs.Counting.{entered_ids, in_turn};
ghost use Rattle.world_routing.specs.Handing.{handed_over};

use crate::granted_response::GrantedResponse;
use base::Items;
use events::{Addressed, Item};
use world_sessions::Sessions;
use world_subscriptions::Subscriptions;
use world_views::RouteChange;
use world_views::addressing::Receivers;

/// Deliveries that are to be handed over, of a message that may be an answer: oldest view first, and in each view the oldest
/// subscription first.
#[derive(Drop)]
pub struct Deliveries {
    /// Each with what its session is to note.
    pub all: Items<Addressed>,
    /// The publish, where a grant has allowed it.
    pub answered: Option<GrantedResponse>,
}

/// Deliveries of a message by which response routes may change.
#[derive(Drop)]
pub struct Routing {
    /// What is to be handed over.
    pub deliveries: Deliveries,
    /// The routes that are opened, or the one that is ended.
    pub routes: RouteChange,
}

/// Clears the cache of receivers where fewer subscriptions are left than there were before.
fn clear_if_fewer(receivers: &mut Receivers, before: usize, left: usize)
    ensures { IsEmpty receivers.new.cache ⊎ ((receivers.new.cache ≡ receivers.old.cache) × (before ≤ left)) }
{
    if left < before {
        receivers.clear_cache();
    }
}

/// Counts the deliveries of a message that have entered, as the items tell, and hands them over. Where a subscription ends
/// by it, whom the publisher's next message is for is found anew. It takes no memory.
#[inline(always)]
pub fn carry_publish(
    sessions: &mut Sessions,
    subscriptions: &mut Subscriptions,
    receivers: &mut Receivers,
    deliveries: Deliveries,
    items: &[Item],
    now: u64,
)
    ensures sessions { sessions.new ≡ handed_over now deliveries.answered deliveries.all sessions.old }
    ensures subscriptions { subscriptions.new ≡ in_turn (entered_ids deliveries.all items.now) subscriptions.old }
    ensures cached { (rows : List ImportRow) → IsCurrent rows sessions.old subscriptions.old receivers.old.cache → IsCurrent rows sessions.new subscriptions.new receivers.new.cache }
{
    let Deliveries { all, answered } = deliveries;
    let mut all = all.into_vec();
    let before = subscriptions.len();
    subscriptions.count(all.as_slice(), items);
    hand_over(sessions, &mut all, now, answered);
    clear_if_fewer(receivers, before, subscriptions.len());
    receivers.keep_memory(all);
}

/// Hands deliveries over in turn, of a message that may be a response: that is counted before, and its grant goes after
/// where as many responses have passed on it as may.
#[inline(always)]
fn hand_over(
    sessions: &mut Sessions,
    all: &mut Vec<Addressed>,
    now: u64,
    answered: Option<GrantedResponse>,
)
    ensures { sessions.new ≡ handed_over now answered all.old.items sessions.old }
{
    match answered {
        None => sessions.hand_over_all(all, now),
        Some(answered) => {
            let subject = answered.message.subject();
            sessions.spend(answered.conn, &subject);
            sessions.hand_over_all(all, now);
            sessions.end(answered.conn, &subject);
        }
    }
}
