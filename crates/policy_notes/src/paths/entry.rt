//! The path of an entry of the permissions that hold for a user.
ghost use Rattle.std.specs.Prelude.{◌≡◌, IfOk};
ghost use Rattle.serde_json.specs.View.{view};
ghost use Rattle.policy_notes.specs.paths.Entries.{direction_path, either, entry_named, entry_path, is_there, list_path, named_path, permissions_path};

use base::NoMemory;
use permissions::{By, Verdict};
use policy_permissions::Side;
use policy_walk::Path;
use serde_json::Value;
use std::alloc::Global;

/// The list of a direction that has an entry.
#[derive(Clone, Copy, Debug)]
pub(crate) enum EntryList {
    Allow,
    Deny,
}

/// An entry by its list, and its index there.
#[derive(Clone, Copy, Debug)]
pub(crate) struct NamedEntry {
    list: EntryList,
    index: usize,
}

/// Returns the path of the entry that a verdict on a user names, if it names one, in the JSON value of the policy, where the
/// user's path is known. A user without permissions has the default ones. A list of one entry may be that entry, and a direction
/// its allow list. `NoMemory` where memory could not be had.
pub fn entry_path(
    alloc: Global,
    value: &Value,
    user: &Path,
    side: Side,
    verdict: Verdict,
) -> Result<Option<Path>, NoMemory>
    ensures { IfOk result (λ path. path ≡ entry_path (view value.now) user.now side verdict) }
{
    match entry_named(verdict) {
        None => Ok(None),
        Some(entry) => {
            let permissions = permissions_path(alloc, value, user)?;
            let direction = direction_path(alloc, value, &permissions, side)?;
            Ok(Some(named_path(alloc, value, direction, entry)?))
        }
    }
}

/// Returns the entry that a verdict names, if it names one.
fn entry_named(verdict: Verdict) -> Option<NamedEntry>
    ensures { result ≡ entry_named verdict }
{
    match verdict {
        Verdict::Allowed(by) => match by {
            By::All => None,
            By::Index(index) => Some(NamedEntry {
                list: EntryList::Allow,
                index,
            }),
            By::Grant => None,
        },
        Verdict::DeniedBy(index) => Some(NamedEntry {
            list: EntryList::Deny,
            index,
        }),
        Verdict::NoAllow => None,
        Verdict::NoQueueAllow(index) => Some(NamedEntry {
            list: EntryList::Allow,
            index,
        }),
    }
}

/// Returns the path of a user's permissions, or of the default ones where it has none of its own.
fn permissions_path(alloc: Global, value: &Value, user: &Path) -> Result<Path, NoMemory>
    ensures { IfOk result (λ path. path ≡ permissions_path (view value.now) user.now) }
{
    let own = user.key(alloc, "permissions")?;
    let usual = Path::whole(alloc).key(alloc, "default_permissions")?;
    Ok(either(value, own, usual))
}

/// Returns the path of a direction of permissions, by that of its spellings which is there.
fn direction_path(
    alloc: Global,
    value: &Value,
    permissions: &Path,
    side: Side,
) -> Result<Path, NoMemory>
    ensures { IfOk result (λ path. path ≡ direction_path (view value.now) permissions.now side) }
{
    match side {
        Side::Publish => {
            let short = permissions.key(alloc, "pub")?;
            let long = permissions.key(alloc, "publish")?;
            Ok(either(value, long, short))
        }
        Side::Subscribe => {
            let short = permissions.key(alloc, "sub")?;
            let long = permissions.key(alloc, "subscribe")?;
            Ok(either(value, long, short))
        }
    }
}

/// Returns the path of an entry of a direction.
fn named_path(
    alloc: Global,
    value: &Value,
    direction: Path,
    entry: NamedEntry,
) -> Result<Path, NoMemory>
    ensures { IfOk result (λ path. path ≡ named_path (view value.now) direction entry) }
{
    let list = list_path(alloc, value, direction, entry.list)?;
    let item = list.index(alloc, entry.index)?;
    Ok(either(value, item, list))
}

/// Returns the path of a list of a direction: that of its key, or the direction's, which is an allow list then.
fn list_path(
    alloc: Global,
    value: &Value,
    direction: Path,
    list: EntryList,
) -> Result<Path, NoMemory>
    ensures { IfOk result (λ path. path ≡ list_path (view value.now) direction list) }
{
    match list {
        EntryList::Allow => {
            let key = direction.key(alloc, "allow")?;
            Ok(either(value, key, direction))
        }
        EntryList::Deny => {
            let key = direction.key(alloc, "deny")?;
            Ok(either(value, key, direction))
        }
    }
}

/// Returns a path, if something stands there, or else another.
fn either(value: &Value, path: Path, other: Path) -> Path
    ensures { result ≡ either (view value.now) path other }
{
    if is_there(value, &path) { path } else { other }
}

/// Returns whether something stands under a path.
fn is_there(value: &Value, path: &Path) -> bool
    ensures { result ≡ is_there (view value.now) path.now }
{
    value.pointer(path.as_str()).is_some()
}
