//! Where the messages on a subject go, by an account's mappings.
use account_mappings::{AccountMap, Destination, Mapped};
use base::NoMemory;
use std::alloc::Global;
use std::cmp::Ordering;
use subjects::Subject;

/// How many of a hundred messages go where.
#[derive(Drop)]
pub struct Share {
    pub weight: u64,
    pub to: ShareTo,
}

/// Where messages go.
#[derive(Drop)]
pub enum ShareTo {
    /// On under this subject.
    Subject(Vec<u8>),
    /// Nowhere, since no destination takes them.
    Dropped,
    /// Nowhere, since their subject would have more than 512 tokens.
    TooLong,
}

/// Returns the shares of the messages on a subject, by the source that has it, if one has: the largest first, then by
/// their subjects. `NoMemory` where memory could not be had.
pub(crate) fn shares_of(
    alloc: Global,
    map: Option<&AccountMap>,
    subject: &Subject,
) -> Result<Vec<Share>, NoMemory> {
    let mut shares = Vec::new(alloc);
    match map {
        None => add_share(&mut shares, 100, on(alloc, subject)?)?,
        Some(map) => {
            let taken = add_taken(alloc, &mut shares, map.destinations(), subject)?;
            let left = 100_u64.saturating_sub(taken);
            if left > 0 {
                let to = if map.is_dropped() {
                    ShareTo::Dropped
                } else {
                    on(alloc, subject)?
                };
                add_share(&mut shares, left, to)?;
            }
        }
    }
    shares.sort_unstable_by(|one, other| order_of(one, other));
    Ok(shares)
}

/// Whether two lists of shares are the same.
pub(crate) fn are_same(some: &[Share], others: &[Share]) -> bool {
    if some.len() != others.len() {
        return false;
    }
    for at in 0..some.len() {
        if order_of(&some[at], &others[at]) != Ordering::Equal {
            return false;
        }
    }
    true
}

/// Appends the shares that destinations take, and returns how many of a hundred messages they are.
fn add_taken(
    alloc: Global,
    shares: &mut Vec<Share>,
    destinations: &[Destination],
    subject: &Subject,
) -> Result<u64, NoMemory> {
    let mut taken: u64 = 0;
    for destination in destinations {
        let weight = destination.percent();
        let to = match destination.reached(alloc, 0, &subject.lend())? {
            Mapped::Same => on(alloc, subject)?,
            Mapped::To(onward) => on(alloc, &onward)?,
            Mapped::Unmapped => ShareTo::Dropped,
            Mapped::TooLong(_) => ShareTo::TooLong,
        };
        add_share(shares, weight, to)?;
        taken = taken.saturating_add(weight);
    }
    Ok(taken)
}

/// Returns that messages go on under a subject.
fn on(alloc: Global, subject: &Subject) -> Result<ShareTo, NoMemory> {
    Ok(ShareTo::Subject(Vec::from_slice(alloc, subject.bytes())?))
}

/// Adds a share to that which goes to the same, or behind all.
fn add_share(shares: &mut Vec<Share>, weight: u64, to: ShareTo) -> Result<(), NoMemory> {
    for share in shares.as_mut_slice() {
        if goes_to(&share.to).cmp(&goes_to(&to)) == Ordering::Equal {
            share.weight = share.weight.saturating_add(weight);
            return Ok(());
        }
    }
    shares.push(Share { weight, to })?;
    Ok(())
}

/// Returns where a share goes, as what can be compared.
fn goes_to(to: &ShareTo) -> (u8, &[u8]) {
    match to {
        ShareTo::Subject(subject) => (0, subject.as_slice()),
        ShareTo::Dropped => (1, &[]),
        ShareTo::TooLong => (2, &[]),
    }
}

/// Which of two shares comes first: the larger, or else by where they go.
fn order_of(one: &Share, other: &Share) -> Ordering {
    match other.weight.cmp(&one.weight) {
        Ordering::Equal => goes_to(&one.to).cmp(&goes_to(&other.to)),
        order => order,
    }
}
