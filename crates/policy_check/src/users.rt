//! Users who can do nothing, or never come in.
use crate::entries::Idle;
use base::NoMemory;
use json::Writer;
use policy_doc::{Direction, PermDoc, UserDoc};
use std::alloc::Global;
use std::str;
use subjects::Pattern;

/// The most bytes of a CONNECT's line, without its end, and those of it that are neither the user's name nor the
/// password.
const MOST_LINE: usize = 4_096;

const REST: usize = b"CONNECT {\"user\":,\"pass\":}".len();

/// Whether a line of CONNECT is too short for a user's name and password, in the shortest JSON that has both.
/// `NoMemory` where memory could not be had.
pub(crate) fn has_no_connect(alloc: Global, user: &UserDoc) -> Result<bool, NoMemory> {
    let name = written(alloc, user.user.as_slice())?;
    let password = written(alloc, user.password.as_slice())?;
    Ok(MOST_LINE - REST < name.saturating_add(password))
}

/// How many bytes a text has in JSON.
fn written(alloc: Global, text: &[u8]) -> Result<usize, NoMemory> {
    let mut out = Writer::new(Vec::new(alloc));
    if let Ok(text) = str::from_utf8(text) {
        out.string(text)?;
    }
    Ok(out.into_inner().len())
}

/// Whether permissions allow nothing, of whose allow entries these decide nothing: no subscription, and no publish,
/// since a user who is sent no request has none to answer.
pub(crate) fn allow_nothing(
    permissions: &PermDoc,
    publish: &[Idle],
    subscribe: &[Idle],
    any: &Pattern,
) -> bool {
    allows_none(&permissions.subscribe, subscribe, any)
        && (allows_none(&permissions.publish, publish, any) || answers_alone(permissions))
}

/// Whether permissions allow to publish answers alone: there are terms, and no allow list.
fn answers_alone(permissions: &PermDoc) -> bool {
    permissions.allow_responses.is_some() && permissions.publish.allow.is_none()
}

/// Whether a direction allows nothing: there is an allow list, and each of its entries is denied, or there is none,
/// and a plain deny entry has all.
fn allows_none(direction: &Direction, idle: &[Idle], any: &Pattern) -> bool {
    match &direction.allow {
        Some(allow) => {
            let denied = idle.iter().filter(|entry| entry.is_denied).count();
            denied == allow.as_slice().len()
        }
        None => is_denied(direction, any),
    }
}

/// Whether a plain deny entry of a direction has all subjects of a pattern.
pub(crate) fn is_denied(direction: &Direction, pattern: &Pattern) -> bool {
    direction.deny.as_slice().iter().any(|entry| entry.queue.is_none()
        && entry.subject.covers(pattern))
}
