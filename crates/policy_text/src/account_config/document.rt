//! A policy document from its text.
ghost use Rattle.std.specs.Prelude.{◌≡◌, option_map};
ghost use Rattle.serde_json.specs.View.{view};
ghost use Rattle.policy_walk.specs.Fault.{Gives};
ghost use Rattle.policy_walk.specs.Object.{judged};
ghost use Rattle.policy_text.specs.account_config.Policy.{document_at, json_at, json_from, policy_of, top_rows, version_in, version_of, version_under};
ghost use Rattle.policy_text.specs.account_config.Written.{IsAnsweredFor};

use crate::account_config::account::accounts_of;
use json_text::JsonError;
use policy_doc::{PolicyDoc, Version};
use policy_permissions::permissions_under;
use policy_walk::{ConfigFault, Path, judge, required_of};
use serde_json::Value;
use std::alloc::Global;

/// The most bytes that the text of a policy may have.
pub const MOST_BYTES: usize = 1_048_576;

/// The document that a text writes, or the text's first fault, with the path of where it stands. The
/// faults come in this order: `TooLarge`, `NotJson`, then those of a walk. At a value this is first
/// its kind, then the least unknown key by bytes, then the keys that must be there, then the known
/// keys in the order of their table, lists by index, accounts and the sources of mappings by name. That a source's weights
/// add up to more than 100 comes after all else of it. `default_permissions` and `mappings` are known keys where `version`
/// is the whole number 2. `NoMemory` wherever memory could not be had.
#[tactic(auto, using(crate::proofs::account_config::Law::answered, crate::proofs::account_config::Law::answered_err), unfolding(crate::specs::account_config::Policy::policy_of))]
pub fn read_policy(alloc: Global, text: &[u8]) -> Result<PolicyDoc, ConfigFault>
    ensures reads { Gives (λ x. x) result (policy_of text.now) }
    ensures first { IsAnsweredFor text.now result }
{
    let value = json_of(alloc, text)?;
    Ok(document_of(alloc, &Path::whole(alloc), &value)?)
}

/// The JSON value of a text. `TooLarge` above `MOST_BYTES`, and what `read_json` says of another.
fn json_of(alloc: Global, text: &[u8]) -> Result<Value, ConfigFault>
    ensures { Gives (λ value. view value) result (json_from text.now) }
{
    if MOST_BYTES < text.len() {
        return Err(ConfigFault::TooLarge);
    }
    Ok(read_json(alloc, text)?)
}

/// The JSON value of a text.
fn read_json(alloc: Global, text: &[u8]) -> Result<Value, ConfigFault>
    ensures { Gives (λ value. view value) result (json_at text.now) }
{
    match json_text::read_json(alloc, text) {
        Ok(value) => Ok(value),
        Err(JsonError::NotJson) => Err(ConfigFault::NotJson),
        Err(JsonError::NoMemory) => Err(ConfigFault::NoMemory),
    }
}

/// The document of a JSON value.
#[tactic(auto, unfolding(crate::specs::account_config::Policy::document_at))]
fn document_of(alloc: Global, path: &Path, value: &Value) -> Result<PolicyDoc, ConfigFault>
    ensures { Gives (λ x. x) result (document_at path.now (view value.now)) }
{
    let version = version_in(value);
    judge_document(alloc, version, path, value)?;
    let found = required_of(alloc, "accounts", path, value)?;
    let below = path.key(alloc, "accounts")?;
    let accounts = accounts_of(alloc, version, &below, found)?;
    let below = path.key(alloc, "version")?;
    version_under(alloc, &below, value.get("version"))?;
    let below = path.key(alloc, "default_permissions")?;
    let default_permissions = permissions_under(alloc, &below, value.get("default_permissions"))?;
    Ok(PolicyDoc {
        accounts,
        version,
        default_permissions,
    })
}

/// Refuses a value that is no object with the keys of a document. Those of the first version have no default permissions.
fn judge_document(
    alloc: Global,
    version: Version,
    path: &Path,
    value: &Value,
) -> Result<(), ConfigFault>
    ensures { Gives (λ x. x) result (judged (top_rows version) path.now (view value.now)) }
{
    let rows = [
        ("accounts", true),
        ("version", false),
        ("default_permissions", false),
    ];
    match version {
        Version::One => Ok(judge(alloc, &rows[..2], path, value)?),
        Version::Two => Ok(judge(alloc, &rows, path, value)?),
    }
}

/// The version whose keys a document has: the second where one is written, else the first.
fn version_in(value: &Value) -> Version
    ensures { result ≡ version_in (view value.now) }
{
    match value.get("version") {
        None => Version::One,
        Some(found) => version_of(found).unwrap_or(Version::One),
    }
}

/// Refuses what is no version.
fn version_under(alloc: Global, path: &Path, found: Option<&Value>) -> Result<(), ConfigFault>
    ensures { Gives (λ x. x) result (version_under path.now (option_map (λ v. view v.now) found.entry)) }
{
    match found {
        None => Ok(()),
        Some(value) => match version_of(value) {
            Some(_) => Ok(()),
            None => Err(ConfigFault::WrongType(path.copy(alloc)?)),
        },
    }
}

/// The version that a value writes, which is the whole number 1 or 2.
fn version_of(value: &Value) -> Option<Version>
    ensures { result ≡ version_of (view value.now) }
{
    match value.as_u64() {
        Some(1) => Some(Version::One),
        Some(2) => Some(Version::Two),
        _ => None,
    }
}
