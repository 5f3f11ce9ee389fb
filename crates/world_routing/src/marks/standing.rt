ghost use Rattle.std.specs.Prelude.{◌≡◌, ◌<◌, ◌≤◌, ◌+◌, ◌*◌, ◌++◌, ◌∷◌, List, [], OnOk, All, length};
ghost use Rattle.receivers.specs.views.Marked.{AreMarked};
ghost use Rattle.world_sessions.specs.declared.deliveries.session.Session.{Session};
ghost use Rattle.world_rows.specs.declared.subscription.Subscription.{Subscription};
ghost use Rattle.world_subscriptions.specs.Subscriptions.{subscription_of};

use base::NoMemory;
use permissions::deny_marks::{DenyMarks, Marks, Stands};
use world_sessions::Sessions;
use world_subscriptions::{NewSubscription, Subscriptions};

/// The ids of those that stand.
#[derive(Drop)]
struct StandingIds<'s> {
    subscriptions: &'s Subscriptions,
}

impl Stands for StandingIds<'_> {
    ghost use Rattle.std.specs.Prelude.{◌≡◌, length};
    ghost use Rattle.permissions.specs.deny_marks.Table.{is_among};
    ghost use Rattle.world_routing.specs.marks.Standing.{ids_of};

    ghost ids = { λ s. ids_of s.subscriptions.now };

    fn stands(&self, id: u64) -> bool
        ensures { result ≡ is_among (ids_of self.now.subscriptions.now) id }
    {
        self.subscriptions.get(id).is_some()
    }

    fn count(&self) -> usize
        ensures { result ≡ length (ids_of self.now.subscriptions.now) }
    {
        self.subscriptions.len()
    }
}

/// Drops marks of subscriptions that have gone, where most are of such. Those that stand keep theirs. After it there are at
/// most twice as many marks as subscriptions, and one.
pub fn trim_marks(marks: &mut DenyMarks, subscriptions: &Subscriptions)
    ensures bounded { length marks.new ≤ 2 * length subscriptions.now + 1 }
    ensures kept { (zs : List Session) → AreMarked zs subscriptions.now marks.old → AreMarked zs subscriptions.now marks.new }
{
    marks.trim(&StandingIds { subscriptions });
}

/// Returns the marks of a subscription that is to stand, by the lists of its session's user.
fn marks_for(sessions: &Sessions, wanted: &NewSubscription) -> Marks
    ensures { AreMarksFor result wanted.now (session_of sessions.now wanted.now.conn) }
{
    match sessions.find(wanted.conn) {
        None => Marks::Unmarked,
        Some(session) => Marks::of(&session.user.rules, wanted.subject.get(), &wanted.queue),
    }
}

/// Puts the marks of a subscription that is to stand next under this id. Those that stand keep theirs, also where memory could
/// not be had. Marks of subscriptions that have gone are dropped first, where most are of such.
#[inline(never)]
pub fn mark_next(
    marks: &mut DenyMarks,
    sessions: &Sessions,
    subscriptions: &Subscriptions,
    id: u64,
    wanted: &NewSubscription,
) -> Result<(), NoMemory>
    requires above { All (λ (s : Subscription). s.id < id) subscriptions.now }
    requires marked { AreMarked sessions.now subscriptions.now marks.old }
    ensures bounded { length marks.new ≤ 2 * length subscriptions.now + 2 }
    ensures kept { AreMarked sessions.now subscriptions.now marks.new }
    ensures ok { OnOk result (AreMarked sessions.now (subscriptions.now
        ++ subscription_of id wanted.now.conn wanted.now.account wanted.now.subject wanted.now.queue wanted.now.sid ∷ []) marks.new) }
{
    trim_marks(marks, subscriptions);
    marks.put(id, marks_for(sessions, wanted))?;
    Ok(())
}

ghost use Rattle.world_sessions.specs.deliveries.Sessions.{session_of};
ghost use Rattle.world_routing.specs.marks.Standing.{AreMarksFor};
