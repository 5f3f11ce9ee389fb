//! Allow entries that decide nothing.
use base::NoMemory;
use pattern_sets::{Cover, Reason};
use policy_doc::{Direction, PermEntry};
use std::alloc::Global;
use subjects::Pattern;

/// Which entries of a list are asked about.
#[derive(Clone, Copy, Debug, PartialEq, Eq)]
enum Kinds {
    Plain,
    Queued,
    All,
}

/// An allow entry that decides nothing.
#[derive(Clone, Copy, Debug, PartialEq, Eq)]
pub(crate) struct Idle {
    /// Its index.
    pub entry: usize,
    /// The index of the entry that decides in its place.
    pub by: usize,
    /// Whether that is a deny entry, and not another allow entry.
    pub is_denied: bool,
}

/// Returns the allow entries of a direction that decide nothing: each of which a deny entry has all, or another allow
/// entry. A deny entry for queues leaves a plain one something, and plain entries decide nothing where one for the
/// queue is. `NoMemory` where memory could not be had.
pub(crate) fn idle_in(alloc: Global, direction: &Direction) -> Result<Vec<Idle>, NoMemory> {
    let any = any(alloc)?;
    let mut idle = Vec::new(alloc);
    if let Some(allow) = &direction.allow {
        let deny = direction.deny.as_slice();
        let allow = allow.as_slice();
        push_idle(
            alloc,
            (allow, Kinds::Plain),
            (deny, Kinds::Plain),
            &any,
            &mut idle,
        )?;
        push_idle(
            alloc,
            (allow, Kinds::Queued),
            (deny, Kinds::All),
            &any,
            &mut idle,
        )?;
    }
    Ok(idle)
}

/// The pattern of all subjects.
pub(crate) fn any(alloc: Global) -> Result<Pattern, NoMemory> {
    match Pattern::parse(alloc, b">") {
        Ok(any) => Ok(any),
        Err(_) => Err(NoMemory),
    }
}

/// Appends the allow entries of some kinds that decide nothing beside deny entries of some kinds.
fn push_idle<'a>(
    alloc: Global,
    allow: (&'a [PermEntry], Kinds),
    deny: (&'a [PermEntry], Kinds),
    any: &'a Pattern,
    idle: &mut Vec<Idle>,
) -> Result<(), NoMemory> {
    let (reasons, places) = reasons_of(alloc, allow.0, allow.1, any)?;
    let allowing = Cover::of(alloc, reasons)?;
    let (reasons, denied) = reasons_of(alloc, deny.0, deny.1, any)?;
    let denying = Cover::of(alloc, reasons)?;
    for (at, reason) in allowing.reasons().iter().enumerate() {
        let found = match denying.first(reason) {
            Some(by) => idle_by(places.as_slice(), at, denied.as_slice(), by, true),
            None => match allowing.first_wider(reason, at) {
                Some(by) => idle_by(places.as_slice(), at, places.as_slice(), by, false),
                None => None,
            },
        };
        if let Some(found) = found {
            idle.push(found)?;
        }
    }
    Ok(())
}

/// The entry at an index of a group that decides nothing beside that of another group.
fn idle_by(
    places: &[usize],
    at: usize,
    others: &[usize],
    by: usize,
    is_denied: bool,
) -> Option<Idle> {
    match (places.get(at), others.get(by)) {
        (Some(entry), Some(by)) => Some(Idle {
            entry: *entry,
            by: *by,
            is_denied,
        }),
        _ => None,
    }
}

/// The entries of these kinds as reasons, and their indexes in the list. A plain entry is one for any queue.
/// `NoMemory` where memory could not be had.
fn reasons_of<'a>(
    alloc: Global,
    entries: &'a [PermEntry],
    kinds: Kinds,
    any: &'a Pattern,
) -> Result<(Vec<Reason<'a>>, Vec<usize>), NoMemory> {
    let mut reasons = Vec::new(alloc);
    let mut places = Vec::new(alloc);
    for (place, entry) in entries.iter().enumerate() {
        if is_of(entry, kinds) {
            reasons.push(Reason {
                subject: &entry.subject,
                queue: entry.queue.as_ref().unwrap_or(any),
            })?;
            places.push(place)?;
        }
    }
    Ok((reasons, places))
}

/// Whether an entry is of these kinds.
fn is_of(entry: &PermEntry, kinds: Kinds) -> bool {
    match kinds {
        Kinds::Plain => entry.queue.is_none(),
        Kinds::Queued => entry.queue.is_some(),
        Kinds::All => true,
    }
}
