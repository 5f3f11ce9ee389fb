//! Imports that no user of their account can use.
use crate::users::is_denied;
use base::NoMemory;
use policy_doc::{Direction, ImportDoc, Kind, PermDoc, UserDoc};
use std::alloc::Global;
use subjects::Pattern;

/// Whether no user of an account can use its import: hear a stream, or ask a service. A user without permissions of
/// its own has the usual ones. `NoMemory` where memory could not be had.
pub(crate) fn is_unused(
    alloc: Global,
    import: &ImportDoc,
    users: &[UserDoc],
    usual: Option<&PermDoc>,
) -> Result<bool, NoMemory> {
    match import.mapping(alloc) {
        Ok(mapping) => {
            let local = mapping.local();
            let kind = import.kind;
            Ok(!users.iter().any(|user| may_use(user, usual, kind, local)))
        }
        Err(_) => Err(NoMemory),
    }
}

/// Whether a user may hear, or ask, some subject of a pattern.
fn may_use(user: &UserDoc, usual: Option<&PermDoc>, kind: Kind, local: &Pattern) -> bool {
    match user.permissions.as_ref().or(usual) {
        None => true,
        Some(permissions) => match kind {
            Kind::Stream => may_meet(&permissions.subscribe, local),
            // (a user with terms may publish an answer wherever a request asks for it)
            Kind::Service => {
                permissions.allow_responses.is_some() || may_meet(&permissions.publish, local)
            }
        },
    }
}

/// Whether a direction may allow some subject of a pattern: no plain deny entry has all of them, and some allow entry
/// has one, if there is a list.
fn may_meet(direction: &Direction, local: &Pattern) -> bool {
    !is_denied(direction, local) && is_met(direction, local)
}

fn is_met(direction: &Direction, local: &Pattern) -> bool {
    match &direction.allow {
        None => true,
        Some(allow) => allow
            .as_slice()
            .iter()
            .any(|entry| entry.subject.overlaps(local)),
    }
}
