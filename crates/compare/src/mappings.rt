//! Where messages are sent on otherwise.
use crate::{Change, PolicyFile};
use base::{Alike, NoMemory};
use mapping_changes::mapping_change;
use policy_doc::NamedAccount;
use std::alloc::Global;

/// Appends a subject for each account of both policies that sends messages on otherwise.
pub(crate) fn add_mappings<'a>(
    alloc: Global,
    changes: &mut Vec<Change<'a>>,
    old: &PolicyFile,
    new: &'a PolicyFile,
) -> Result<(), NoMemory> {
    for named in new.doc().accounts.as_slice() {
        if let Some(before) = old.doc().accounts.get(&named.name) {
            if !before.account.mappings.is_like(&named.account.mappings) {
                add_account(alloc, changes, before, named)?;
            }
        }
    }
    Ok(())
}

/// Appends a subject that an account sends on otherwise, if there is one.
fn add_account<'a>(
    alloc: Global,
    changes: &mut Vec<Change<'a>>,
    old: &NamedAccount,
    new: &'a NamedAccount,
) -> Result<(), NoMemory> {
    let (olds, news) = (&old.account.mappings, &new.account.mappings);
    if let Some(change) = mapping_change(alloc, olds.as_slice(), news.as_slice())? {
        changes.push(Change::Mapping {
            account: new.name.as_slice(),
            change,
        })?;
    }
    Ok(())
}
