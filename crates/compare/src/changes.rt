//! All that two policies have or say differently.
ghost use Rattle.std.specs.Prelude.{IfOk};
ghost use Rattle.compare.specs.Users.{AreToldOfUsers};

use crate::accounts::accounts_between;
use crate::answers::add_answers;
use crate::exchanges::add_exchanges;
use crate::lists::lists_between;
use crate::mappings::add_mappings;
use crate::members::Members;
use crate::rows::rows_of;
use crate::services::add_services;
use crate::sets::add_sets;
use crate::users::users_between;
use crate::{Change, Changes, PolicyFile};
use base::NoMemory;
use std::alloc::Global;

/// Returns what two policies have or say differently: accounts; users; what each user that both have may do; and what
/// else changes. `NoMemory` where memory could not be had.
pub fn changes_of<'a>(
    alloc: Global,
    old: &'a PolicyFile,
    new: &'a PolicyFile,
) -> Result<Changes<'a>, NoMemory>
    ensures { IfOk result (AreToldOfUsers old.now new.now) }
{
    let was = Members::of(alloc, old)?;
    let now = Members::of(alloc, new)?;
    let accounts = accounts_between(alloc, old, new)?;
    let users = users_between(alloc, &was, &now)?;
    let lists = lists_between(alloc, (old, &was), (new, &now))?;
    let others = others_between(alloc, old, new, &was, &now)?;
    Ok(Changes {
        accounts,
        users,
        lists,
        others,
    })
}

/// Returns what else changes: on what terms users may answer; what imports carry; on what terms services are answered;
/// where messages are sent on; and the sets of accounts that exchange messages.
fn others_between<'a>(
    alloc: Global,
    old: &'a PolicyFile,
    new: &'a PolicyFile,
    was: &Members<'a>,
    now: &Members<'a>,
) -> Result<Vec<Change<'a>>, NoMemory> {
    let mut changes = Vec::new(alloc);
    add_answers(&mut changes, was, now)?;
    let (had, has) = (rows_of(alloc, old)?, rows_of(alloc, new)?);
    let (before, after) = ((old, had.as_slice()), (new, has.as_slice()));
    add_exchanges(alloc, &mut changes, before, after)?;
    add_services(alloc, &mut changes, before, after)?;
    add_mappings(alloc, &mut changes, old, new)?;
    add_sets(alloc, &mut changes, old, new)?;
    Ok(changes)
}
