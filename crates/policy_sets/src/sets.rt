ghost use Rattle.std.specs.Prelude.{◌≡◌, ◌<◌, ◌==◌, IfOk, length};
ghost use Rattle.policy_doc.specs.Accounts.{IsByName};
ghost use Rattle.policy_sets.specs.Sets.{AreClosedSets, first_of, names_of, set_of, sets_by, sets_of};
ghost use Rattle.policy_sets.specs.Firsts.{AreFirsts, name_at};

use crate::joining::firsts_of;
use base::{Items, NoMemory};
use bytes::Bytes;
use policy_doc::{NamedAccount, Policy};
use std::alloc::Global;

/// Returns the smallest closed sets of a policy's accounts: the parts into which its import rows join them, each as the
/// names of its accounts. A message is seen only within the set of the account that it is published in, so that the sets
/// can be served by processes of their own. `NoMemory` where memory could not be had.
///
/// It takes as many steps as the square of the number of accounts, and of a search by halves for each row.
pub fn closed_sets(alloc: Global, policy: &Policy) -> Result<Vec<Items<Bytes>>, NoMemory>
    ensures sets { IfOk result (λ sets. sets.items ≡ sets_of policy.now.accounts) }
    ensures meaning { IfOk result (λ sets. AreClosedSets policy.now sets.items) }
{
    let accounts = policy.doc().accounts.as_slice();
    let firsts = firsts_of(alloc, accounts)?;
    let sets = sets_by(alloc, accounts, firsts.as_slice())?;
    Ok(sets)
}

/// Returns the sets by the place of each account's first one.
fn sets_by(
    alloc: Global,
    accounts: &[NamedAccount],
    firsts: &[usize],
) -> Result<Vec<Items<Bytes>>, NoMemory>
    requires order { IsByName accounts.now }
    requires firsts { AreFirsts (names_of accounts.now) (first_of accounts.now) firsts.now }
    ensures { IfOk result (λ sets. sets.items ≡ sets_by (first_of accounts.now) (names_of accounts.now)) }
{
    let mut sets = Vec::new(alloc);
    for place in 0..accounts.len() {
        if firsts[place] == place {
            sets.push(set_of(alloc, accounts, firsts, place)?)?;
        }
    }
    Ok(sets)
}

/// Returns the names of the accounts whose first one has this place.
fn set_of(
    alloc: Global,
    accounts: &[NamedAccount],
    firsts: &[usize],
    first: usize,
) -> Result<Items<Bytes>, NoMemory>
    requires order { IsByName accounts.now }
    requires firsts { AreFirsts (names_of accounts.now) (first_of accounts.now) firsts.now }
    requires first { first < length accounts.now }
    ensures { IfOk result (λ set. set ≡ set_of (first_of accounts.now) (names_of accounts.now) (name_at (names_of accounts.now) first)) }
{
    let mut names = Vec::new(alloc);
    for (place, named) in accounts.iter().enumerate() {
        if firsts[place] == first {
            names.push(named.name.clone()?)?;
        }
    }
    Ok(Items::from_vec(names))
}
