//! The path of a user.
ghost use Rattle.std.specs.Prelude.{◌≡◌, IfOk, position};
ghost use Rattle.std.specs.List.{find, list_any};
ghost use Rattle.std.specs.Option.{option_copied, option_map};
ghost use Rattle.policy_notes.specs.paths.Users.{has_name, has_user, path_in, row_path, text_if, user_path};

use base::NoMemory;
use bytes::Bytes;
use policy_doc::{NamedAccount, PolicyDoc, UserDoc};
use policy_walk::Path;
use std::alloc::Global;
use std::str;

/// Returns the path of the first user of a name, by the accounts' order, if there is one. `NoMemory` where memory could not be
/// had.
pub fn user_path(alloc: Global, doc: &PolicyDoc, name: &[u8]) -> Result<Option<Path>, NoMemory>
    ensures { IfOk result (λ path. path ≡ user_path doc.now name.now) }
{
    match account_with(doc.accounts.as_slice(), name) {
        None => Ok(None),
        Some(account) => path_in(alloc, account, name),
    }
}

/// Returns the first account that has a user of a name.
fn account_with<'a>(accounts: &'a [NamedAccount], name: &[u8]) -> Option<&'a NamedAccount>
    ensures { option_copied result ≡ find (has_user name.now) accounts.now }
{
    accounts.iter().find(|account| has_user(account, name))
}

/// Returns whether an account has a user of a name.
fn has_user(account: &NamedAccount, name: &[u8]) -> bool
    ensures { result ≡ has_user name.now account.now }
{
    is_among(account.account.users.as_slice(), name)
}

/// Returns whether one of these users has a name.
fn is_among(users: &[UserDoc], name: &[u8]) -> bool
    ensures { result ≡ list_any (has_name name.now) users.now }
{
    users.iter().any(|user| user.user.as_slice() == name)
}

/// Returns the row of the first of these users that has a name.
fn row_of(users: &[UserDoc], name: &[u8]) -> Option<usize>
    ensures { result ≡ position (has_name name.now) users.now }
{
    users.iter().position(|user| user.user.as_slice() == name)
}

/// Returns the path of the first user of a name in an account, if it has one and its own name is text.
fn path_in(alloc: Global, account: &NamedAccount, name: &[u8]) -> Result<Option<Path>, NoMemory>
    ensures { IfOk result (λ path. path ≡ path_in name.now account.now) }
{
    match text_if(&account.name) {
        None => Ok(None),
        Some(text) => match row_of(account.account.users.as_slice(), name) {
            None => Ok(None),
            Some(row) => Ok(Some(row_path(alloc, text, "users", row)?)),
        },
    }
}

/// Returns a name as a text, if it is one.
fn text_if(name: &Bytes) -> Option<&str>
    ensures { option_map (λ text. text.now) result ≡ text_if name.now }
{
    match str::from_utf8(name.as_slice()) {
        Ok(text) => Some(text),
        Err(_) => None,
    }
}

/// Returns the path of a row of an account, in the list under this key. `NoMemory` where memory could not be had.
pub fn row_path(alloc: Global, account: &str, list: &str, row: usize) -> Result<Path, NoMemory>
    ensures { IfOk result (λ path. path ≡ row_path account.now list.now row) }
{
    let rows = Path::whole(alloc)
        .key(alloc, "accounts")?
        .key(alloc, account)?
        .key(alloc, list)?;
    Ok(rows.index(alloc, row)?)
}
