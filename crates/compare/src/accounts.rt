//! Accounts that come and go.
use crate::{AccountChange, PolicyFile};
use base::NoMemory;
use policy_doc::PolicyDoc;
use std::alloc::Global;

/// Returns the accounts that only one of two policies has, by their names.
pub(crate) fn accounts_between<'a>(
    alloc: Global,
    old: &'a PolicyFile,
    new: &'a PolicyFile,
) -> Result<Vec<AccountChange<'a>>, NoMemory> {
    let mut told = Vec::new(alloc);
    add_others(&mut told, new.doc(), old.doc(), true)?;
    add_others(&mut told, old.doc(), new.doc(), false)?;
    told.sort_unstable_by(|one, other| one.name.cmp(other.name));
    Ok(told)
}

/// Appends the accounts of a policy that another hasn't.
fn add_others<'a>(
    told: &mut Vec<AccountChange<'a>>,
    doc: &'a PolicyDoc,
    other: &PolicyDoc,
    is_new: bool,
) -> Result<(), NoMemory> {
    for named in doc.accounts.as_slice() {
        if other.accounts.get(&named.name).is_none() {
            let name = named.name.as_slice();
            told.push(AccountChange { name, is_new })?;
        }
    }
    Ok(())
}
