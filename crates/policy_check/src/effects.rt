//! Entries without which nothing is judged otherwise.
use crate::entries::Idle;
use crate::samples::Sampling;
use base::{Copying, Items, NoMemory};
use message_changes::changes_between;
use permissions::Compiled;
use policy_doc::{Direction, PermDoc, PermEntry};
use policy_permissions::Side;
use std::alloc::Global;

/// The most entries of a list that are asked about.
const MOST_ENTRIES: usize = 1_000;

/// A list of permissions.
#[derive(Clone, Copy, Debug)]
pub(crate) struct ListOf {
    pub side: Side,
    pub is_deny: bool,
}

/// An entry without which nothing is judged otherwise.
#[derive(Clone, Copy, Debug)]
pub(crate) struct Free {
    pub list: ListOf,
    /// Its index.
    pub entry: usize,
}

/// Returns the entries that change nothing, besides those that are told of both allow lists: without all of these each
/// publish, subscription and delivery is judged as with them. Of two entries of which either could be left out it is
/// the later. Permissions with a list of more than 1,000 entries are passed over. `NoMemory` where memory could not be
/// had.
pub(crate) fn free_in(
    alloc: Global,
    permissions: &PermDoc,
    publish: &[Idle],
    subscribe: &[Idle],
) -> Result<Vec<Free>, NoMemory> {
    let mut free = Vec::new(alloc);
    if is_long(&permissions.publish) || is_long(&permissions.subscribe) {
        return Ok(free);
    }
    let left = PermDoc {
        publish: untold(alloc, &permissions.publish, publish)?,
        subscribe: untold(alloc, &permissions.subscribe, subscribe)?,
        allow_responses: permissions.allow_responses,
    };
    let left = push_side(alloc, left, permissions, Side::Publish, publish, &mut free)?;
    push_side(
        alloc,
        left,
        permissions,
        Side::Subscribe,
        subscribe,
        &mut free,
    )?;
    Ok(free)
}

/// Appends the entries of a direction that change nothing and aren't told, those of the allow list first. Returns the
/// permissions without them. The deny list is asked about before allow entries that it hides are left out.
fn push_side(
    alloc: Global,
    permissions: PermDoc,
    all: &PermDoc,
    side: Side,
    told: &[Idle],
    free: &mut Vec<Free>,
) -> Result<PermDoc, NoMemory> {
    let mut denied = Vec::new(alloc);
    let deny = ListOf {
        side,
        is_deny: true,
    };
    let left = push_free(alloc, permissions, all, deny, &[], &mut denied)?;
    let allow = ListOf {
        side,
        is_deny: false,
    };
    let left = push_free(alloc, left, all, allow, told, free)?;
    for entry in denied {
        free.push(entry)?;
    }
    Ok(left)
}

/// Whether a list of a direction has too many entries to be asked about.
fn is_long(direction: &Direction) -> bool {
    MOST_ENTRIES < allow_of(direction).len() || MOST_ENTRIES < direction.deny.len()
}

/// Returns a direction without the allow entries that others cover.
fn untold(alloc: Global, direction: &Direction, told: &[Idle]) -> Result<Direction, NoMemory> {
    let allow = match &direction.allow {
        None => None,
        Some(entries) => Some(untold_of(alloc, entries.as_slice(), told)?),
    };
    Ok(Direction {
        allow,
        deny: direction.deny.copy(alloc)?,
    })
}

/// Returns the entries but those that others cover.
fn untold_of(
    alloc: Global,
    entries: &[PermEntry],
    told: &[Idle],
) -> Result<Items<PermEntry>, NoMemory> {
    let mut left = Vec::with_capacity(alloc, entries.len())?;
    for index in 0..entries.len() {
        if !is_covered(told, index) {
            left.push(entries[index].copy(alloc)?)?;
        }
    }
    Ok(Items::from_vec(left))
}

/// Whether another entry is told to cover this one. One that is denied stays, as long as the deny list is asked about.
fn is_covered(told: &[Idle], index: usize) -> bool {
    told.iter()
        .any(|idle| idle.entry == index && !idle.is_denied)
}

/// Appends the entries of a list that change nothing and aren't told, by their indexes before any was left out. Returns
/// the permissions without them.
fn push_free(
    alloc: Global,
    permissions: PermDoc,
    all: &PermDoc,
    list: ListOf,
    told: &[Idle],
    free: &mut Vec<Free>,
) -> Result<PermDoc, NoMemory> {
    let count = entries_of(&permissions, list).len();
    let places = places_of(alloc, entries_of(all, list).len(), told)?;
    let (left, mut found) = leave_out(alloc, permissions, list, count)?;
    found.reverse();
    for at in found {
        if let Some(entry) = places.as_slice().get(at) {
            push_untold(free, list, *entry, told)?;
        }
    }
    Ok(left)
}

/// Appends an entry, if it isn't told.
fn push_untold(
    free: &mut Vec<Free>,
    list: ListOf,
    entry: usize,
    told: &[Idle],
) -> Result<(), NoMemory> {
    if told.iter().any(|idle| idle.entry == entry) {
        return Ok(());
    }
    free.push(Free { list, entry })?;
    Ok(())
}

/// Returns the indexes of so many entries but those that others cover.
fn places_of(alloc: Global, count: usize, told: &[Idle]) -> Result<Vec<usize>, NoMemory> {
    let mut places = Vec::new(alloc);
    for index in 0..count {
        if !is_covered(told, index) {
            places.push(index)?;
        }
    }
    Ok(places)
}

/// Leaves out each of so many entries of a list that changes nothing, from the last on. Returns their indexes too.
fn leave_out(
    alloc: Global,
    permissions: PermDoc,
    list: ListOf,
    count: usize,
) -> Result<(PermDoc, Vec<usize>), NoMemory> {
    let sampling = Sampling::of(alloc, direction_of(&permissions, list.side))?;
    let mut left = permissions;
    let mut found = Vec::new(alloc);
    for behind in 0..count {
        let at = count - 1 - behind;
        if !is_needed(alloc, &left, list, at, &sampling)? {
            let rest = without(alloc, &left, list, at)?;
            if are_alike(alloc, &left, &rest, list)? {
                found.push(at)?;
                left = rest;
            }
        }
    }
    Ok((left, found))
}

/// Returns a direction of permissions.
fn direction_of(permissions: &PermDoc, side: Side) -> &Direction {
    match side {
        Side::Publish => &permissions.publish,
        Side::Subscribe => &permissions.subscribe,
    }
}

/// Returns the entries of a list.
fn entries_of(permissions: &PermDoc, list: ListOf) -> &[PermEntry] {
    let direction = direction_of(permissions, list.side);
    if list.is_deny {
        return direction.deny.as_slice();
    }
    allow_of(direction)
}

fn allow_of(direction: &Direction) -> &[PermEntry] {
    match &direction.allow {
        None => &[],
        Some(entries) => entries.as_slice(),
    }
}

/// Whether an entry's sample shows that it changes something: no other entry of its list has the sample. Then of an
/// allow list none denies it; of a deny list of publishes an allow entry has it, or there is no list, or answers are
/// allowed. What is sent to a subscription each deny entry refuses.
fn is_needed(
    alloc: Global,
    permissions: &PermDoc,
    list: ListOf,
    at: usize,
    sampling: &Sampling,
) -> Result<bool, NoMemory> {
    let entries = entries_of(permissions, list);
    let Some(entry) = entries.get(at) else {
        return Ok(true);
    };
    let Some(text) = sampling.sample_of(alloc, &entry.subject)? else {
        return Ok(false);
    };
    let sample = text.as_slice();
    if has_another(entries, at, sample) {
        return Ok(false);
    }
    let direction = direction_of(permissions, list.side);
    if !list.is_deny {
        return Ok(!has(direction.deny.as_slice(), sample));
    }
    match list.side {
        Side::Subscribe => Ok(true),
        Side::Publish => Ok(allows_all(permissions) || has(allow_of(direction), sample)),
    }
}

/// Whether publishes need no allow entry: there is no list, or answers pass without one.
fn allows_all(permissions: &PermDoc) -> bool {
    permissions.publish.allow.is_none() || permissions.allow_responses.is_some()
}

/// Whether an entry has the subject with this text.
fn has(entries: &[PermEntry], text: &[u8]) -> bool {
    entries.iter().any(|entry| entry.subject.matches_text(text))
}

/// Whether an entry but the one with an index has the subject with this text.
fn has_another(entries: &[PermEntry], at: usize, text: &[u8]) -> bool {
    for index in 0..entries.len() {
        if index != at && entries[index].subject.matches_text(text) {
            return true;
        }
    }
    false
}

/// Whether both permissions judge all alike. Where they differ in a deny entry for publishes and answers are allowed,
/// each publish may be one, so that no allow list counts.
fn are_alike(
    alloc: Global,
    one: &PermDoc,
    other: &PermDoc,
    list: ListOf,
) -> Result<bool, NoMemory> {
    let one = judged_by(alloc, one, list)?;
    let other = judged_by(alloc, other, list)?;
    let found = changes_between(alloc, &one, &other)?;
    Ok(found.is_empty())
}

/// Returns the lists that judge what a list's entry may change.
fn judged_by(alloc: Global, permissions: &PermDoc, list: ListOf) -> Result<Compiled, NoMemory> {
    match list.side {
        Side::Publish => {
            if list.is_deny && permissions.allow_responses.is_some() {
                let denied = denied_alone(alloc, permissions)?;
                return Compiled::of_permissions(alloc, Some(&denied));
            }
        }
        Side::Subscribe => {}
    }
    Compiled::of_permissions(alloc, Some(permissions))
}

/// Returns permissions with the deny list of publishes, and no allow list.
fn denied_alone(alloc: Global, permissions: &PermDoc) -> Result<PermDoc, NoMemory> {
    Ok(PermDoc {
        publish: Direction {
            allow: None,
            deny: permissions.publish.deny.copy(alloc)?,
        },
        subscribe: permissions.subscribe.copy(alloc)?,
        allow_responses: None,
    })
}

/// Returns permissions without an entry.
fn without(
    alloc: Global,
    permissions: &PermDoc,
    list: ListOf,
    at: usize,
) -> Result<PermDoc, NoMemory> {
    let (publish, subscribe) = (&permissions.publish, &permissions.subscribe);
    let (publish, subscribe) = match list.side {
        Side::Publish => (
            less(alloc, publish, list.is_deny, at)?,
            subscribe.copy(alloc)?,
        ),
        Side::Subscribe => (
            publish.copy(alloc)?,
            less(alloc, subscribe, list.is_deny, at)?,
        ),
    };
    Ok(PermDoc {
        publish,
        subscribe,
        allow_responses: permissions.allow_responses,
    })
}

/// Returns a direction without the entry at an index of its deny list, or of its allow list.
fn less(
    alloc: Global,
    direction: &Direction,
    is_deny: bool,
    at: usize,
) -> Result<Direction, NoMemory> {
    if is_deny {
        return Ok(Direction {
            allow: direction.allow.copy(alloc)?,
            deny: entries_less(alloc, direction.deny.as_slice(), at)?,
        });
    }
    let allow = match &direction.allow {
        None => None,
        Some(entries) => Some(entries_less(alloc, entries.as_slice(), at)?),
    };
    Ok(Direction {
        allow,
        deny: direction.deny.copy(alloc)?,
    })
}

/// Returns entries without the one at an index.
fn entries_less(
    alloc: Global,
    entries: &[PermEntry],
    at: usize,
) -> Result<Items<PermEntry>, NoMemory> {
    let mut left = Vec::with_capacity(alloc, entries.len())?;
    for index in 0..entries.len() {
        if index != at {
            left.push(entries[index].copy(alloc)?)?;
        }
    }
    Ok(Items::from_vec(left))
}
