//! Whether a session may publish on a subject.
ghost use Rattle.std.specs.Prelude.{◌≡◌, Some};
ghost use Rattle.permissions.specs.Verdicts.{publish_verdict, IsJustifiedPublish};
ghost use Rattle.policy_ready.specs.Users.{user_named};
ghost use Rattle.world_routing.specs.Granting.{verdict_on};
ghost use Rattle.world_routing.specs.Remembered.{AreRemembered};

use permissions::verdict_cache::Verdicts;
use permissions::{By, Verdict};
use policy_ready::CompiledPolicy;
use subjects::SubjectRef;
use world_sessions::Session;

/// Returns the verdict on a publish at a moment: the lists', and where they refuse, a live grant's. The lists' verdict may be one
/// that is remembered under the policy in force; a grant's never is.
#[inline(always)]
pub(crate) fn on_publish(
    verdicts: &mut Verdicts,
    _in_force: &CompiledPolicy,
    session: &Session,
    subject: &SubjectRef<'_>,
    now: u64,
) -> Verdict
    requires verdicts { AreRemembered _in_force.now verdicts.old }
    requires user { user_named _in_force.now session.now.user.user ≡ Some session.now.user }
    ensures verdict { result ≡ verdict_on now session.now subject.now }
    ensures justified { IsJustifiedPublish subject.now session.now.user.rules.publish (publish_verdict session.now.user.rules subject.now) }
    ensures verdicts { AreRemembered _in_force.now verdicts.new }
{
    let user = &session.user;
    let verdict = verdicts.on_publish(user.user.as_slice(), &user.rules, subject);
    if !verdict.is_allowed() && session.is_granted(subject, now) {
        Verdict::Allowed(By::Grant)
    } else {
        verdict
    }
}
