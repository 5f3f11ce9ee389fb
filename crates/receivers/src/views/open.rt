//! Who may be sent a message.
ghost use Rattle.std.specs.Prelude.{◌≡◌};
ghost use Rattle.std.specs.Option.{option_copied};
ghost use Rattle.receivers.specs.views.Marked.{is_marked_open, lets_marked};

use permissions::deny_marks::DenyMarks;
use subjects::SubjectRef;
use world_sessions::{Session, Sessions};
use world_subscriptions::{Keeps, SharedSubscription};

/// Returns whether the deny marks of a session's subscription let the subject through to it.
fn lets_through(
    marks: &DenyMarks,
    session: Option<&Session>,
    subject: &SubjectRef<'_>,
    subscription: &SharedSubscription,
) -> bool
    ensures { result ≡ lets_marked marks.now subject.now subscription.now (option_copied session.entry) }
{
    match session {
        None => false,
        Some(session) => {
            let rules = &session.user.rules;
            marks.admits(subscription.id(), rules, subject, subscription.queue())
        }
    }
}

/// Which subscriptions may be sent a message of a publisher on a subject.
#[derive(Drop)]
pub struct Open<'a> {
    /// The sessions.
    pub sessions: &'a Sessions,
    /// The deny marks of their subscriptions.
    pub marks: &'a DenyMarks,
    /// Whose message it is.
    pub publisher: &'a Session,
    /// The subject.
    pub subject: &'a SubjectRef<'a>,
}

impl Keeps for Open<'_> {
    ghost use Rattle.receivers.specs.views.Marked.{is_marked_open};

    ghost keeps = { λ test. is_marked_open test.marks.now test.sessions.now test.publisher.now test.subject.now };

    /// A connection may be sent a message unless it is the publisher's own, and that one isn't sent its own messages; its
    /// permissions let the subject through.
    #[inline(always)]
    fn keeps(&self, subscription: &SharedSubscription) -> bool {
        let conn = subscription.conn();
        (self.publisher.echo || conn != self.publisher.conn)
            && lets_through(
                self.marks,
                self.sessions.find(conn),
                self.subject,
                subscription,
            )
    }
}
