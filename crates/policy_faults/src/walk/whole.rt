//! The whole of a policy.
ghost use Rattle.std.specs.Prelude.{◌≡◌, [], IfOk, OnOk};
ghost use Rattle.std.specs.Option.{unwrap_or};
ghost use Rattle.serde_json.specs.View.{view};
ghost use Rattle.policy_doc.specs.declared.document.Version.TheVariants.{One};
ghost use Rattle.policy_text.specs.account_config.Policy.{top_rows, version_in, version_of};
ghost use Rattle.policy_faults.specs.walk.Whole.{faults_in, with_defaults, with_table};

use crate::finding::{Finding, Wanted};
use crate::walk::account::Accounts;
use crate::walk::checker::check_under;
use crate::walk::object::check_object;
use crate::walk::texts::VersionNumber;
use crate::walk::user_permissions::Permissions;
use base::NoMemory;
use policy_doc::Version;
use policy_walk::Path;
use serde_json::Value;
use std::alloc::Global;

/// Returns every fault of the JSON value of a policy as a document, in the order in which `read_policy` looks for the
/// first. Where a value is of a wrong kind, nothing below it is one. `NoMemory` where memory could not be had.
pub fn faults_of_value(alloc: Global, value: &Value) -> Result<Vec<Finding>, NoMemory>
    ensures { IfOk result (λ found. found.items ≡ faults_in (view value.now)) }
{
    let version = version_in(value);
    let path = Path::whole(alloc);
    let mut found = Vec::new(alloc);
    check_table(alloc, version, &path, value, &mut found)?;
    check_under(
        alloc,
        &Accounts { version },
        "accounts",
        &path,
        value,
        &mut found,
    )?;
    check_under(alloc, &VersionNumber, "version", &path, value, &mut found)?;
    check_defaults(alloc, version, &path, value, &mut found)?;
    Ok(found)
}

/// Appends the faults of a document by its table. Those of the first version have no default permissions.
fn check_table(
    alloc: Global,
    version: Version,
    path: &Path,
    value: &Value,
    found: &mut Vec<Finding>,
) -> Result<(), NoMemory>
    ensures { OnOk result (found.new.items ≡ with_table version path.now (view value.now) found.old.items) }
{
    let rows = [
        ("accounts", true),
        ("version", false),
        ("default_permissions", false),
    ];
    match version {
        Version::One => Ok(check_object(alloc, &rows[..2], Wanted::Object, path, value, found)?),
        Version::Two => Ok(check_object(alloc, &rows, Wanted::Object, path, value, found)?),
    }
}

/// Appends the faults of a document's default permissions, which the second version alone has.
fn check_defaults(
    alloc: Global,
    version: Version,
    path: &Path,
    value: &Value,
    found: &mut Vec<Finding>,
) -> Result<(), NoMemory>
    ensures { OnOk result (found.new.items ≡ with_defaults version path.now (view value.now) found.old.items) }
{
    match version {
        Version::One => Ok(()),
        Version::Two => Ok(check_under(
            alloc,
            &Permissions,
            "default_permissions",
            path,
            value,
            found,
        )?),
    }
}

/// The version whose keys a document has: the second where one is written, else the first.
fn version_in(value: &Value) -> Version
    ensures { result ≡ version_in (view value.now) }
{
    match value.get("version") {
        None => Version::One,
        Some(found) => version_of(found),
    }
}

/// The second version where a value is the number 2, else the first.
fn version_of(value: &Value) -> Version
    ensures { result ≡ unwrap_or (version_of (view value.now)) One }
{
    match value.as_u64() {
        Some(1) => Version::One,
        Some(2) => Version::Two,
        _ => Version::One,
    }
}
