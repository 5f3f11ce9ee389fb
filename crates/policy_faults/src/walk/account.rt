//! The accounts of a policy, and their users.
ghost use Rattle.std.specs.Prelude.{◌≡◌, OnOk};
ghost use Rattle.serde_json.specs.View.{members_view, view};
ghost use Rattle.policy_text.specs.account_config.Policy.{account_rows};
ghost use Rattle.policy_faults.specs.declared.finding.Wanted.TheVariants as wanted;
ghost use Rattle.policy_faults.specs.walk.Walk.{with_object};
ghost use Rattle.policy_faults.specs.walk.Accounts.{with_account, with_accounts, with_named_accounts, with_user};

use crate::finding::{Finding, Wanted, push_wrong};
use crate::walk::checker::{Checker, check_under, list_of};
use crate::walk::mappings::Mappings;
use crate::walk::object::check_object;
use crate::walk::rows::{Export, Import};
use crate::walk::texts::{TextKind, check_named};
use crate::walk::user_permissions::Permissions;
use base::NoMemory;
use policy_doc::Version;
use policy_walk::Path;
use serde_json::{Map, Value};
use std::alloc::Global;

/// Checks an object with an account under each name.
#[derive(Clone, Copy, Debug, PartialEq, Eq)]
pub(crate) struct Accounts {
    pub version: Version,
}

impl Checker for Accounts {
    ghost finds = { λ accounts. with_accounts accounts.version };

    fn check(
        &self,
        alloc: Global,
        path: &Path,
        value: &Value,
        found: &mut Vec<Finding>,
    ) -> Result<(), NoMemory> {
        match value.as_object() {
            Some(members) => Ok(check_named_accounts(alloc, self.version, path, members, found)?),
            None => Ok(push_wrong(alloc, path, Wanted::Object, found)?),
        }
    }
}

/// Appends the faults of each account, of its name first.
#[tactic(auto, unfolding(crate::specs::walk::Accounts::with_named_accounts))]
fn check_named_accounts(
    alloc: Global,
    version: Version,
    path: &Path,
    members: &Map<String, Value>,
    found: &mut Vec<Finding>,
) -> Result<(), NoMemory>
    ensures { OnOk result (found.new.items ≡ with_named_accounts version path.now (members_view members.now.entries) found.old.items) }
{
    for (name, value) in members.iter() {
        let below = path.key(alloc, name.as_str())?;
        check_named(
            alloc,
            TextKind::AccountName,
            &below,
            name.as_str().as_bytes(),
            found,
        )?;
        check_account(alloc, version, &below, value, found)?;
    }
    Ok(())
}

/// Appends the faults of an account. Those of the first version have no mappings.
fn check_account(
    alloc: Global,
    version: Version,
    path: &Path,
    value: &Value,
    found: &mut Vec<Finding>,
) -> Result<(), NoMemory>
    ensures { OnOk result (found.new.items ≡ with_account version path.now (view value.now) found.old.items) }
{
    check_table(alloc, version, path, value, found)?;
    check_under(alloc, &list_of(User), "users", path, value, found)?;
    check_under(alloc, &list_of(Export), "exports", path, value, found)?;
    check_under(alloc, &list_of(Import), "imports", path, value, found)?;
    match version {
        Version::One => Ok(()),
        Version::Two => Ok(check_under(alloc, &Mappings, "mappings", path, value, found)?),
    }
}

/// Appends the faults of an account by its table.
fn check_table(
    alloc: Global,
    version: Version,
    path: &Path,
    value: &Value,
    found: &mut Vec<Finding>,
) -> Result<(), NoMemory>
    ensures { OnOk result (found.new.items ≡ with_object (account_rows version) wanted.Object path.now (view value.now) found.old.items) }
{
    let rows = [
        ("users", false),
        ("exports", false),
        ("imports", false),
        ("mappings", false),
    ];
    match version {
        Version::One => Ok(check_object(alloc, &rows[..3], Wanted::Object, path, value, found)?),
        Version::Two => Ok(check_object(alloc, &rows, Wanted::Object, path, value, found)?),
    }
}

/// Checks a user.
#[derive(Clone, Copy, Debug, PartialEq, Eq)]
struct User;

impl Checker for User {
    ghost finds = { λ _. with_user };

    fn check(
        &self,
        alloc: Global,
        path: &Path,
        value: &Value,
        found: &mut Vec<Finding>,
    ) -> Result<(), NoMemory> {
        let rows = [("user", true), ("password", true), ("permissions", false)];
        check_object(alloc, &rows, Wanted::Object, path, value, found)?;
        check_under(alloc, &TextKind::UserName, "user", path, value, found)?;
        check_under(alloc, &TextKind::Password, "password", path, value, found)?;
        check_under(alloc, &Permissions, "permissions", path, value, found)?;
        Ok(())
    }
}
