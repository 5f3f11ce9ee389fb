//! The accounts of a policy.
ghost use Rattle.std.specs.Prelude.{◌≡◌, []};
ghost use Rattle.serde_json.specs.View.{view, members_view};
ghost use Rattle.policy_walk.specs.Fault.{Gives};
ghost use Rattle.policy_text.specs.account_config.Policy.{account_at, account_name_from, account_rows, accounts_at, accounts_from, exports_under, imports_under, mappings_under, named_account_at};
ghost use Rattle.policy_walk.specs.Object.{judged};

use crate::account_config::user::User;
use crate::mappings::mappings_under;
use crate::rows::{account_name_from, exports_under, imports_under};
use policy_doc::{AccountDoc, Accounts, NamedAccount, Version};
use policy_walk::{ConfigFault, Path, judge, list_under, members_of};
use serde_json::{Map, Value};
use std::alloc::Global;

/// The accounts of an object, name by name, each with the keys of a version.
#[tactic(auto, unfolding(crate::specs::account_config::Policy::accounts_at))]
pub(crate) fn accounts_of(
    alloc: Global,
    version: Version,
    path: &Path,
    value: &Value,
) -> Result<Accounts, ConfigFault>
    ensures { Gives (λ x. x) result (accounts_at version path.now (view value.now)) }
{
    let members = members_of(alloc, path, value)?;
    Ok(each_account(alloc, version, path, members)?)
}

/// The accounts of an object's members, in the order of their names.
fn each_account(
    alloc: Global,
    version: Version,
    path: &Path,
    members: &Map<String, Value>,
) -> Result<Accounts, ConfigFault>
    ensures { Gives (λ x. x) result (accounts_from version [] path.now (members_view members.now.entries)) }
{
    let mut accounts = Accounts::new(alloc);
    for (key, value) in members.iter() {
        let NamedAccount { name, account } = named_account_of(
            alloc,
            version,
            path,
            key.as_str(),
            value,
        )?;
        accounts.insert(name, account)?;
    }
    Ok(accounts)
}

/// An account under its name, which is judged first.
#[tactic(auto, unfolding(crate::specs::account_config::Policy::named_account_at))]
fn named_account_of(
    alloc: Global,
    version: Version,
    path: &Path,
    key: &str,
    value: &Value,
) -> Result<NamedAccount, ConfigFault>
    ensures { Gives (λ x. x) result (named_account_at version path.now key.now (view value.now)) }
{
    let below = path.key(alloc, key)?;
    let name = account_name_from(alloc, &below, key.as_bytes())?;
    let account = account_of(alloc, version, &below, value)?;
    Ok(NamedAccount { name, account })
}

/// What an account has: its users, its exports, its imports and its mappings, each if they are there.
#[tactic(auto, unfolding(crate::specs::account_config::Policy::account_at))]
fn account_of(
    alloc: Global,
    version: Version,
    path: &Path,
    value: &Value,
) -> Result<AccountDoc, ConfigFault>
    ensures { Gives (λ x. x) result (account_at version path.now (view value.now)) }
{
    judge_account(alloc, version, path, value)?;
    let below = path.key(alloc, "users")?;
    let users = list_under(alloc, &User, &below, value.get("users"))?;
    let below = path.key(alloc, "exports")?;
    let exports = exports_under(alloc, &below, value.get("exports"))?;
    let below = path.key(alloc, "imports")?;
    let imports = imports_under(alloc, &below, value.get("imports"))?;
    let below = path.key(alloc, "mappings")?;
    let mappings = mappings_under(alloc, &below, value.get("mappings"))?;
    Ok(AccountDoc {
        users,
        exports,
        imports,
        mappings,
    })
}

/// Refuses a value that is no object with the keys of an account. Those of the first version have no mappings.
fn judge_account(
    alloc: Global,
    version: Version,
    path: &Path,
    value: &Value,
) -> Result<(), ConfigFault>
    ensures { Gives (λ x. x) result (judged (account_rows version) path.now (view value.now)) }
{
    let rows = [
        ("users", false),
        ("exports", false),
        ("imports", false),
        ("mappings", false),
    ];
    match version {
        Version::One => Ok(judge(alloc, &rows[..3], path, value)?),
        Version::Two => Ok(judge(alloc, &rows, path, value)?),
    }
}
