//! A user's permissions.
ghost use Rattle.std.specs.Prelude.{◌≡◌, ◌&&◌, OnOk, is_some};
ghost use Rattle.serde_json.specs.Find.{get};
ghost use Rattle.serde_json.specs.View.{view};
ghost use Rattle.policy_faults.specs.walk.Permissions.{with_direction, with_entries, with_permissions, with_responses, with_spelled, with_terms};

use crate::finding::{Finding, Wanted, push};
use crate::walk::checker::{Checker, Listed, check_under};
use crate::walk::object::check_object;
use crate::walk::texts::{Max, TextKind};
use base::NoMemory;
use policy_walk::{ConfigFault, Path};
use serde_json::Value;
use std::alloc::Global;

/// Checks a user's permissions.
#[derive(Clone, Copy, Debug, PartialEq, Eq)]
pub(crate) struct Permissions;

impl Checker for Permissions {
    ghost finds = { λ _. with_permissions };

    fn check(
        &self,
        alloc: Global,
        path: &Path,
        value: &Value,
        found: &mut Vec<Finding>,
    ) -> Result<(), NoMemory> {
        let rows = [
            ("publish", false),
            ("pub", false),
            ("subscribe", false),
            ("sub", false),
            ("allow_responses", false),
        ];
        check_object(alloc, &rows, Wanted::Object, path, value, found)?;
        check_spelled(
            alloc,
            TextKind::PublishEntry,
            ("publish", "pub"),
            path,
            value,
            found,
        )?;
        check_spelled(
            alloc,
            TextKind::SubscribeEntry,
            ("subscribe", "sub"),
            path,
            value,
            found,
        )?;
        check_under(alloc, &Responses, "allow_responses", path, value, found)?;
        Ok(())
    }
}

/// Checks a direction of permissions, whose entries are of a kind.
#[derive(Clone, Copy, Debug, PartialEq, Eq)]
struct Direction {
    entries: Entries,
}

/// How a direction is checked whose entries are of a kind.
fn direction_of(entry: TextKind) -> Direction
    ensures { result ≡ record { entries = record { entry = entry } } }
{
    Direction {
        entries: Entries { entry },
    }
}

/// Appends the faults of a direction under the one of two spellings that is there, or that both are.
fn check_spelled(
    alloc: Global,
    entry: TextKind,
    spellings: (&str, &str),
    path: &Path,
    value: &Value,
    found: &mut Vec<Finding>,
) -> Result<(), NoMemory>
    ensures { OnOk result (found.new.items ≡ with_spelled entry spellings.entry.0.now spellings.entry.1.now path.now (view value.now) found.old.items) }
{
    let (long, short) = spellings;
    if has_both(value, long, short) {
        let below = path.key(alloc, short)?;
        push(found, ConfigFault::WrongType(below), Wanted::Spelling)?;
        return Ok(());
    }
    let direction = direction_of(entry);
    check_under(alloc, &direction, long, path, value, found)?;
    check_under(alloc, &direction, short, path, value, found)?;
    Ok(())
}

/// Whether something stands under each of two keys.
fn has_both(value: &Value, long: &str, short: &str) -> bool
    ensures { result ≡ (is_some (get long.now (view value.now)) && is_some (get short.now (view value.now))) }
{
    value.get(long).is_some() && value.get(short).is_some()
}

impl Checker for Direction {
    ghost finds = { λ direction. with_direction direction.entries.entry };

    fn check(
        &self,
        alloc: Global,
        path: &Path,
        value: &Value,
        found: &mut Vec<Finding>,
    ) -> Result<(), NoMemory> {
        if !value.is_object() {
            self.entries.check(alloc, path, value, found)?;
            return Ok(());
        }
        let rows = [("allow", false), ("deny", false)];
        check_object(alloc, &rows, Wanted::Direction, path, value, found)?;
        check_under(alloc, &self.entries, "allow", path, value, found)?;
        check_under(alloc, &self.entries, "deny", path, value, found)?;
        Ok(())
    }
}

/// Checks one entry, or a list of them.
#[derive(Clone, Copy, Debug, PartialEq, Eq)]
struct Entries {
    entry: TextKind,
}

impl Checker for Entries {
    ghost finds = { λ entries. with_entries entries.entry };

    fn check(
        &self,
        alloc: Global,
        path: &Path,
        value: &Value,
        found: &mut Vec<Finding>,
    ) -> Result<(), NoMemory> {
        if value.is_string() {
            self.entry.check(alloc, path, value, found)?;
            return Ok(());
        }
        let listed = Listed {
            values: self.entry,
            wanted: Wanted::Entries,
        };
        listed.check(alloc, path, value, found)?;
        Ok(())
    }
}

/// Checks on what terms a user may respond: true, false or an object.
#[derive(Clone, Copy, Debug, PartialEq, Eq)]
struct Responses;

impl Checker for Responses {
    ghost finds = { λ _. with_responses };

    fn check(
        &self,
        alloc: Global,
        path: &Path,
        value: &Value,
        found: &mut Vec<Finding>,
    ) -> Result<(), NoMemory> {
        if value.is_boolean() {
            return Ok(());
        }
        let rows = [("max", false), ("expires", false)];
        check_object(alloc, &rows, Wanted::Responses, path, value, found)?;
        check_under(alloc, &Max, "max", path, value, found)?;
        check_under(alloc, &TextKind::Duration, "expires", path, value, found)?;
        Ok(())
    }
}
