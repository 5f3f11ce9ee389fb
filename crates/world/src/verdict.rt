//! What a user's permissions say of a subscription that may be of a queue group.
ghost use Rattle.std.specs.Prelude.{◌≡◌};
ghost use Rattle.permissions.specs.Verdicts.{subscribe_verdict, IsJustifiedSubscribe};

use permissions::{Compiled, Verdict};
use subjects::{Pattern, Subject};

/// Returns the verdict on a subscription to a pattern, as a member of that queue group or of none.
pub(crate) fn on_subscription(
    rules: &Compiled,
    pattern: &Pattern,
    queue: &Option<Subject>,
) -> Verdict
    ensures verdict { result ≡ subscribe_verdict rules.now pattern.now queue.now }
    ensures justified { IsJustifiedSubscribe pattern.now queue.now rules.now.subscribe result }
{
    match queue {
        None => rules.subscribe(pattern, None),
        Some(queue) => rules.subscribe(pattern, Some(queue)),
    }
}
