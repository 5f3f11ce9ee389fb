//! Sets of accounts that exchange messages.
use crate::{Change, PolicyFile};
use base::{Alike, Items, NoMemory};
use bytes::Bytes;
use policy_sets::closed_sets;
use std::alloc::Global;
use std::cmp::Ordering;

/// Appends the smallest closed sets that only one of two policies has.
pub(crate) fn add_sets<'a>(
    alloc: Global,
    changes: &mut Vec<Change<'a>>,
    old: &PolicyFile,
    new: &PolicyFile,
) -> Result<(), NoMemory> {
    let olds = closed_sets(alloc, old.policy())?;
    let news = closed_sets(alloc, new.policy())?;
    let mut told = Vec::new(alloc);
    add_others(alloc, &mut told, &news, &olds, true)?;
    add_others(alloc, &mut told, &olds, &news, false)?;
    told.sort_unstable_by(|one, other| order_of(one, other));
    for (accounts, is_new) in told {
        changes.push(Change::Set { accounts, is_new })?;
    }
    Ok(())
}

/// Appends those of some sets that aren't among others.
fn add_others(
    alloc: Global,
    told: &mut Vec<(Items<Bytes>, bool)>,
    sets: &Vec<Items<Bytes>>,
    others: &Vec<Items<Bytes>>,
    is_new: bool,
) -> Result<(), NoMemory> {
    for set in sets.as_slice() {
        if !others.as_slice().iter().any(|other| other.is_like(set)) {
            told.push((copy_of(alloc, set)?, is_new))?;
        }
    }
    Ok(())
}

/// Returns the first name of a set.
fn first_of(set: &Items<Bytes>) -> &[u8] {
    match set.as_slice().first() {
        None => &[],
        Some(name) => name.as_slice(),
    }
}

/// Which of two sets comes first: by their first names, and then what comes.
fn order_of(one: &(Items<Bytes>, bool), other: &(Items<Bytes>, bool)) -> Ordering {
    let order = first_of(&one.0).cmp(first_of(&other.0));
    order.then(other.1.cmp(&one.1))
}

/// Returns the names of a set again.
fn copy_of(alloc: Global, set: &Items<Bytes>) -> Result<Items<Bytes>, NoMemory> {
    let mut names = Vec::new(alloc);
    for name in set.as_slice() {
        names.push(name.clone()?)?;
    }
    Ok(Items::from_vec(names))
}
