//! Which subscriptions still stand behind deliveries of the same message, before any of these is counted.
ghost use Rattle.std.specs.Prelude.{◌≡◌, ◌==◌, ◌&&◌, nat_lt};
ghost use Rattle.std.specs.Option.{option_copied};
ghost use Rattle.world_sessions.specs.deliveries.Delivered.{room_in};
ghost use Rattle.world_subscriptions.specs.Limit.{has_ended};
ghost use Rattle.world_views.specs.addressing.Standing.{times_entering, counted_more, stands_behind};

use events::Addressed;
use receivers::views::Open;
use world_sessions::{Session, Sessions};
use world_subscriptions::{Keeps, SharedSubscription};

/// Returns how much more may wait for a session. There is no room without one.
fn room_in(session: Option<&Session>) -> usize
    ensures { result ≡ room_in (option_copied session.entry) }
{
    match session {
        None => 0,
        Some(session) => session.outbox.room(),
    }
}

/// Returns whether a delivery takes some of the room that is left to a connection.
fn takes_room(addressed: &Addressed, conn: u64, room: usize) -> bool
    ensures { result ≡ ((addressed.now.conn == conn) && nat_lt 0 room) }
{
    addressed.conn == conn && 0 < room
}

/// Returns how often a message enters for an id, where the id's connection has so much room: of the deliveries for the
/// connection the first ones enter.
fn times_entering(all: &[Addressed], conn: u64, id: u64, room: usize) -> usize
    ensures { result ≡ times_entering conn id room all.now }
{
    let mut left = room;
    let mut times = 0;
    for addressed in all {
        if takes_room(addressed, conn, left) {
            left -= 1;
            if addressed.id == id {
                times += 1;
            }
        }
    }
    times
}

/// Returns whether a subscription has ended once it has counted so many messages more.
fn has_ended_after(subscription: &SharedSubscription, more: usize) -> bool
    ensures { result ≡ has_ended (counted_more more subscription.now) }
{
    match subscription.most() {
        None => false,
        Some(most) => most <= subscription.received().saturating_add(more as u64),
    }
}

/// Returns whether a subscription still stands behind these deliveries. Nothing is asked of one without a limit.
fn stands_behind(
    sessions: &Sessions,
    before: &[Addressed],
    subscription: &SharedSubscription,
) -> bool
    ensures { result ≡ stands_behind sessions.now before.now subscription.now }
{
    match subscription.most() {
        None => true,
        Some(_) => {
            let conn = subscription.conn();
            let room = room_in(sessions.find(conn));
            let times = times_entering(before, conn, subscription.id(), room);
            !has_ended_after(subscription, times)
        }
    }
}

/// Which subscriptions may be sent a message of a publisher on a subject, and still stand behind deliveries of it.
#[derive(Drop)]
pub(crate) struct Standing<'a> {
    pub open: Open<'a>,
    pub before: &'a [Addressed],
}

impl Keeps for Standing<'_> {
    ghost use Rattle.std.specs.Prelude.{◌&&◌};
    ghost use Rattle.receivers.specs.views.Marked.{is_marked_open};
    ghost use Rattle.world_views.specs.addressing.Standing.{stands_behind};

    ghost keeps = { λ test sub. is_marked_open test.open.marks.now test.open.sessions.now test.open.publisher.now test.open.subject.now sub && stands_behind test.open.sessions.now test.before.now sub };

    fn keeps(&self, subscription: &SharedSubscription) -> bool {
        self.open.keeps(subscription)
            && stands_behind(self.open.sessions, self.before, subscription)
    }
}
