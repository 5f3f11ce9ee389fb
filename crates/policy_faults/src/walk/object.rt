//! An object of a policy: its kind, all its unknown keys, and all that must be there.
ghost use Rattle.std.specs.Prelude.{◌≡◌, OnOk, map};
ghost use Rattle.std.specs.List.{list_any};
ghost use Rattle.serde_json.specs.View.{members_view, view};
ghost use Rattle.policy_walk.specs.Object.{is_known, row_of};
ghost use Rattle.policy_faults.specs.walk.Walk.{with_missing, with_missing_key, with_object, with_unknown, with_unknown_key};

use crate::finding::{Finding, Wanted, push, push_wrong};
use base::NoMemory;
use policy_walk::{ConfigFault, Path};
use serde_json::{Map, Value};
use std::alloc::Global;

/// Appends the faults of a value that has to be an object of a table, but for those of what stands under its keys:
/// that it is no object, or each key that the table hasn't, and each that must be there and isn't. The table's rows
/// are keys, each with whether it must be there.
pub(crate) fn check_object(
    alloc: Global,
    rows: &[(&str, bool)],
    wanted: Wanted,
    path: &Path,
    value: &Value,
    found: &mut Vec<Finding>,
) -> Result<(), NoMemory>
    ensures { OnOk result (found.new.items ≡ with_object (map row_of rows.now) wanted path.now (view value.now) found.old.items) }
{
    match value.as_object() {
        None => Ok(push_wrong(alloc, path, wanted, found)?),
        Some(members) => {
            push_unknown(alloc, rows, path, members, found)?;
            Ok(push_missing(alloc, rows, path, value, found)?)
        }
    }
}

/// Appends each key that the table hasn't.
#[tactic(auto, unfolding(crate::specs::walk::Walk::with_unknown))]
fn push_unknown(
    alloc: Global,
    rows: &[(&str, bool)],
    path: &Path,
    members: &Map<String, Value>,
    found: &mut Vec<Finding>,
) -> Result<(), NoMemory>
    ensures { OnOk result (found.new.items ≡ with_unknown (map row_of rows.now) path.now (members_view members.now.entries) found.old.items) }
{
    for (key, _member) in members.iter() {
        push_if_unknown(alloc, rows, path, key.as_str(), found)?;
    }
    Ok(())
}

/// Appends a key if the table hasn't it.
fn push_if_unknown(
    alloc: Global,
    rows: &[(&str, bool)],
    path: &Path,
    key: &str,
    found: &mut Vec<Finding>,
) -> Result<(), NoMemory>
    ensures { OnOk result (found.new.items ≡ with_unknown_key (map row_of rows.now) path.now key.now found.old.items) }
{
    if is_known(rows, key) {
        return Ok(());
    }
    let below = path.key(alloc, key)?;
    push(found, ConfigFault::UnknownKey(below), Wanted::KnownKey)?;
    Ok(())
}

/// Whether a table has a key.
fn is_known(rows: &[(&str, bool)], key: &str) -> bool
    ensures { result ≡ is_known (map row_of rows.now) key.now }
{
    for (known, _required) in rows {
        if *known == key {
            return true;
        }
    }
    false
}

/// Appends each key of a table that must be there and isn't.
#[tactic(auto, unfolding(crate::specs::walk::Walk::with_missing))]
fn push_missing(
    alloc: Global,
    rows: &[(&str, bool)],
    path: &Path,
    value: &Value,
    found: &mut Vec<Finding>,
) -> Result<(), NoMemory>
    ensures { OnOk result (found.new.items ≡ with_missing (map row_of rows.now) path.now (view value.now) found.old.items) }
{
    for (key, required) in rows {
        push_if_missing(alloc, *key, *required, path, value, found)?;
    }
    Ok(())
}

/// Appends a key if it must be there and isn't.
fn push_if_missing(
    alloc: Global,
    key: &str,
    required: bool,
    path: &Path,
    value: &Value,
    found: &mut Vec<Finding>,
) -> Result<(), NoMemory>
    ensures { OnOk result (found.new.items ≡ with_missing_key (key.now, required) path.now (view value.now) found.old.items) }
{
    if required && value.get(key).is_none() {
        let below = path.key(alloc, key)?;
        push(found, ConfigFault::WrongType(below), Wanted::Key)?;
        return Ok(());
    }
    Ok(())
}
