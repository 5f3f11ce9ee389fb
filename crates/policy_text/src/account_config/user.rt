//! A user of a policy.
ghost use Rattle.std.specs.Prelude.{◌≡◌};
ghost use Rattle.serde_json.specs.View.{view};
ghost use Rattle.policy_walk.specs.Fault.{Gives};
ghost use Rattle.policy_text.specs.account_config.Policy.{has_name_length, is_hashed, password_at, password_from, user_at, user_name_at, user_name_from, user_permissions_at};

use crate::rows::has_name_length;
use bytes::Bytes;
use policy_doc::UserDoc;
use policy_doc::permission_doc::PermDoc;
use policy_permissions::permissions_under;
use policy_walk::{ConfigFault, Path, Reader, judge, required_text_of};
use serde_json::Value;
use std::alloc::Global;

/// Reads a user.
#[derive(Drop)]
pub(crate) struct User;

impl Reader for User {
    type Out = UserDoc;

    ghost reads = { λ _. user_at };

    fn read(&self, alloc: Global, path: &Path, value: &Value) -> Result<UserDoc, ConfigFault> {
        user_of(alloc, path, value)
    }
}

/// A user: its name, its password and, if they are there, its permissions.
#[tactic(auto, unfolding(crate::specs::account_config::Policy::user_at))]
fn user_of(alloc: Global, path: &Path, value: &Value) -> Result<UserDoc, ConfigFault>
    ensures { Gives (λ x. x) result (user_at path.now (view value.now)) }
{
    let rows = [("user", true), ("password", true), ("permissions", false)];
    judge(alloc, &rows, path, value)?;
    let user = user_name_of(alloc, path, value)?;
    let password = password_of(alloc, path, value)?;
    let permissions = user_permissions_of(alloc, path, value)?;
    Ok(UserDoc {
        user,
        password,
        permissions,
    })
}

/// The name under `user`.
#[tactic(auto, unfolding(crate::specs::account_config::Policy::user_name_at))]
fn user_name_of(alloc: Global, path: &Path, value: &Value) -> Result<Bytes, ConfigFault>
    ensures { Gives (λ x. x) result (user_name_at path.now (view value.now)) }
{
    let name = required_text_of(alloc, "user", path, value)?;
    let below = path.key(alloc, "user")?;
    Ok(user_name_from(alloc, &below, name.as_bytes())?)
}

/// The password under `password`.
#[tactic(auto, unfolding(crate::specs::account_config::Policy::password_at))]
fn password_of(alloc: Global, path: &Path, value: &Value) -> Result<Bytes, ConfigFault>
    ensures { Gives (λ x. x) result (password_at path.now (view value.now)) }
{
    let password = required_text_of(alloc, "password", path, value)?;
    let below = path.key(alloc, "password")?;
    Ok(password_from(alloc, &below, password.as_bytes())?)
}

/// What is under `permissions`, if it is there.
#[tactic(auto, unfolding(crate::specs::account_config::Policy::user_permissions_at))]
fn user_permissions_of(
    alloc: Global,
    path: &Path,
    value: &Value,
) -> Result<Option<PermDoc>, ConfigFault>
    ensures { Gives (λ x. x) result (user_permissions_at path.now (view value.now)) }
{
    let below = path.key(alloc, "permissions")?;
    Ok(permissions_under(alloc, &below, value.get("permissions"))?)
}

/// A user's name. `BadName` where it hasn't 1 to 256 bytes.
fn user_name_from(alloc: Global, path: &Path, name: &[u8]) -> Result<Bytes, ConfigFault>
    ensures { Gives (λ x. x) result (user_name_from path.now name.now) }
{
    if has_name_length(name) {
        Ok(Bytes::copy_from_slice(alloc, name)?)
    } else {
        Err(ConfigFault::BadName(path.copy(alloc)?))
    }
}

/// A copy of a password in clear. `HashedPassword` where it begins with `$2`.
fn password_from(alloc: Global, path: &Path, password: &[u8]) -> Result<Bytes, ConfigFault>
    ensures { Gives (λ x. x) result (password_from path.now password.now) }
{
    if is_hashed(password) {
        Err(ConfigFault::HashedPassword(path.copy(alloc)?))
    } else {
        Ok(Bytes::copy_from_slice(alloc, password)?)
    }
}

/// Whether a password is a hashed one: these begin with `$2`.
pub fn is_hashed(password: &[u8]) -> bool
    ensures { result ≡ is_hashed password.now }
{
    match password {
        [b'$', b'2', ..] => true,
        _ => false,
    }
}
