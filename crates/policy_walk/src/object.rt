//! An object of a policy: its kind, its unknown keys, and those that must be there.
ghost use Rattle.std.specs.Prelude.{◌≡◌, map, option_map};
ghost use Rattle.serde_json.specs.View.{view, members_view};
ghost use Rattle.policy_walk.specs.declared.fault.ConfigFault.TheVariants.{UnknownKey, WrongType};
ghost use Rattle.policy_walk.specs.Fault.{Gives};
ghost use Rattle.policy_walk.specs.Object.{is_known, judged, members_at, missing_key, refuse, row_of, unknown_key};

use crate::ConfigFault;
use crate::paths::Path;
use serde_json::{Map, Value};
use std::alloc::Global;

/// Refuses a value that is no object of the table: its rows are keys, each with whether it must be
/// there. `WrongType` where it is no object, else `UnknownKey` at the least key that the table
/// doesn't have, else `WrongType` at the first that must be there and isn't.
#[tactic(auto, unfolding(crate::specs::Object::judged))]
pub fn judge(
    alloc: Global,
    rows: &[(&str, bool)],
    path: &Path,
    value: &Value,
) -> Result<(), ConfigFault>
    ensures { Gives (λ x. x) result (judged (map row_of rows.now) path.now (view value.now)) }
{
    let members = members_of(alloc, path, value)?;
    refuse_unknown(alloc, path, first_unknown(rows, members))?;
    refuse_missing(alloc, path, first_missing(rows, value))?;
    Ok(())
}

/// The members of a value that has to be an object. `WrongType` where it is none.
pub fn members_of<'v>(
    alloc: Global,
    path: &Path,
    value: &'v Value,
) -> Result<&'v Map<String, Value>, ConfigFault>
    ensures { Gives (λ m. members_view m.now.entries) result (members_at path.now (view value.now)) }
{
    match value.as_object() {
        Some(members) => Ok(members),
        None => Err(ConfigFault::WrongType(path.copy(alloc)?)),
    }
}

/// The least key of an object that its table doesn't have, if there is one.
fn first_unknown<'v>(rows: &[(&str, bool)], members: &'v Map<String, Value>) -> Option<&'v str>
    ensures { option_map (λ key. key.now) result ≡ unknown_key (map row_of rows.now) (members_view members.now.entries) }
{
    for (key, _member) in members.iter() {
        if !is_known(rows, key.as_str()) {
            return Some(key.as_str());
        }
    }
    None
}

/// Whether the table has a key.
fn is_known(rows: &[(&str, bool)], key: &str) -> bool
    ensures { result ≡ is_known (map row_of rows.now) key.now }
{
    for (known, _required) in rows {
        if *known == key {
            return true;
        }
    }
    false
}

/// The first key of a table that must be there and isn't, if there is one.
fn first_missing<'r>(rows: &[(&'r str, bool)], value: &Value) -> Option<&'r str>
    ensures { option_map (λ key. key.now) result ≡ missing_key (map row_of rows.now) (view value.now) }
{
    for (key, required) in rows {
        if *required && value.get(*key).is_none() {
            return Some(*key);
        }
    }
    None
}

/// Refuses a key that the table doesn't have, if one was found: `UnknownKey` at its path.
fn refuse_unknown(alloc: Global, path: &Path, key: Option<&str>) -> Result<(), ConfigFault>
    ensures { Gives (λ x. x) result (refuse UnknownKey path.now (option_map (λ k. k.now) key.entry)) }
{
    match key {
        None => Ok(()),
        Some(key) => Err(ConfigFault::UnknownKey(path.key(alloc, key)?)),
    }
}

/// Refuses an object without a key that must be there: `WrongType` at the key's path.
fn refuse_missing(alloc: Global, path: &Path, key: Option<&str>) -> Result<(), ConfigFault>
    ensures { Gives (λ x. x) result (refuse WrongType path.now (option_map (λ k. k.now) key.entry)) }
{
    match key {
        None => Ok(()),
        Some(key) => Err(ConfigFault::WrongType(path.key(alloc, key)?)),
    }
}
