//! Whether two users may do the same by their permissions.
ghost use Rattle.std.specs.Prelude.{◌≡◌, None};
ghost use Rattle.std.specs.Bool.{Decides};
ghost use Rattle.permissions.specs.Lists.{open_rules};

use crate::Compiled;
use base::Alike;
use policy_doc::permission_doc::{Direction, PermDoc};

// No permissions, and permissions that neither allow nor deny by a list and have no response terms, are the same.
impl Alike for Compiled {
    fn is_like(&self, other: &Compiled) -> bool {
        match self.permissions() {
            None => match other.permissions() {
                None => true,
                Some(other) => is_open(other),
            },
            Some(one) => match other.permissions() {
                None => is_open(one),
                Some(other) => {
                    one.publish.is_like(&other.publish)
                        && one.subscribe.is_like(&other.subscribe)
                        && one.allow_responses.is_like(&other.allow_responses)
                }
            },
        }
    }
}

/// Whether neither direction has a list, and the user has no response terms.
fn is_open(permissions: &PermDoc) -> bool
    ensures { Decides result ((permissions.now.publish ≡ open_rules) × (permissions.now.subscribe ≡ open_rules) × (permissions.now.allow_responses ≡ None)) }
{
    has_no_list(&permissions.publish)
        && has_no_list(&permissions.subscribe)
        && permissions.allow_responses.is_none()
}

/// Whether a direction has the lists of a user without permissions.
pub(crate) fn has_no_list(one: &Direction) -> bool
    ensures { Decides result (one.now ≡ open_rules) }
{
    one.allow.is_none() && one.deny.is_empty()
}
