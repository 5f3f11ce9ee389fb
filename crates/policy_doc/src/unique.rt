//! Whether user names are unique over all accounts.
ghost use Rattle.std.specs.Prelude.{◌≡◌, ◌++◌, ◌∷◌, [], IfOk, IsTrue, MatchOption, map};
ghost use Rattle.std.specs.List.{IsDistinct, list_any};
ghost use Rattle.std.specs.Str.{bytes_eq};
ghost use Rattle.policy_doc.specs.declared.document.NamedAccount.{NamedAccount};
ghost use Rattle.policy_doc.specs.Document.{users_of, user_name, is_taken, HaveUniqueNames, IsTwinRow, IsFirstTwin};

use crate::{NamedAccount, Place, UserDoc};
use base::NoMemory;
use bytes::Bytes;
use indexmap::IndexSet;
use std::alloc::Global;

/// The first user, by account and row, whose name stands before it. Names are put into a set, which tells of a policy
/// without twins that it has none; a walk over all pairs finds the first twin, and is taken too where memory could not be had
/// for the set.
pub(crate) fn first_twin(alloc: Global, accounts: &[NamedAccount]) -> Option<Place>
    ensures { MatchOption result (HaveUniqueNames (users_of accounts.now)) (IsFirstTwin accounts.now) }
{
    match are_unique(alloc, accounts) {
        Ok(true) => None,
        Ok(false) => searched_twin(accounts),
        Err(_) => searched_twin(accounts),
    }
}

/// Whether user names are unique over all accounts. `NoMemory` where memory could not be had to see it.
fn are_unique(alloc: Global, accounts: &[NamedAccount]) -> Result<bool, NoMemory>
    ensures { IfOk result (λ unique. IsTrue unique → HaveUniqueNames (users_of accounts.now)) }
{
    let mut names = IndexSet::new(alloc);
    for named in accounts {
        if !are_new(&mut names, named.account.users.as_slice())? {
            return Ok(false);
        }
    }
    Ok(true)
}

/// Puts the names of users to others. Whether none of them was there before it.
fn are_new(names: &mut IndexSet<Bytes>, users: &[UserDoc]) -> Result<bool, NoMemory>
    requires { IsDistinct bytes_eq names.old.keys }
    ensures added { IfOk result (λ new. IsTrue new → names.new.keys ≡ names.old.keys ++ map user_name users.now) }
    ensures distinct { IfOk result (λ new. IsTrue new → IsDistinct bytes_eq names.new.keys) }
{
    for user in users {
        if !is_new(names, &user.user)? {
            return Ok(false);
        }
    }
    Ok(true)
}

/// Puts a name to others. Whether it wasn't there.
fn is_new(names: &mut IndexSet<Bytes>, name: &Bytes) -> Result<bool, NoMemory>
    requires { IsDistinct bytes_eq names.old.keys }
    ensures added { IfOk result (λ new. IsTrue new → names.new.keys ≡ names.old.keys ++ name.now ∷ []) }
    ensures distinct { IfOk result (λ new. IsTrue new → IsDistinct bytes_eq names.new.keys) }
{
    let name = name.clone()?;
    match names.insert(name) {
        Ok(new) => Ok(new),
        Err(_) => Err(NoMemory),
    }
}

/// The first user, by account and row, whose name stands before it, by a walk over all pairs.
fn searched_twin(accounts: &[NamedAccount]) -> Option<Place>
    ensures { MatchOption result (HaveUniqueNames (users_of accounts.now)) (IsFirstTwin accounts.now) }
{
    for (account, named) in accounts.iter().enumerate() {
        match twin_row(&accounts[..account], named.account.users.as_slice()) {
            Some(row) => return Some(Place { account, row }),
            None => {}
        }
    }
    None
}

/// The first of an account's users whose name stands before it, there or in an earlier account.
fn twin_row(earlier: &[NamedAccount], users: &[UserDoc]) -> Option<usize>
    requires { HaveUniqueNames (users_of earlier.now) }
    ensures { MatchOption result (HaveUniqueNames (users_of earlier.now ++ users.now))
        (IsTwinRow (users_of earlier.now) users.now) }
{
    for (row, user) in users.iter().enumerate() {
        if stands_before(earlier, &users[..row], &user.user) {
            return Some(row);
        }
    }
    None
}

/// Whether a user has the name, in one of the accounts or among the users.
pub fn stands_before(accounts: &[NamedAccount], users: &[UserDoc], name: &Bytes) -> bool
    ensures { result ≡ is_taken name.now (users_of accounts.now ++ users.now) }
{
    in_an_account(accounts, name) || has_user(users, name)
}

/// Whether a user of one of the accounts has the name.
fn in_an_account(accounts: &[NamedAccount], name: &Bytes) -> bool
    ensures { result ≡ list_any (λ (a : NamedAccount). is_taken name.now a.account.users) accounts.now }
{
    accounts
        .iter()
        .any(|named| has_user(named.account.users.as_slice(), name))
}

/// Whether one of the users has the name.
fn has_user(users: &[UserDoc], name: &Bytes) -> bool
    ensures { result ≡ is_taken name.now users.now }
{
    users.iter().any(|user| *name == user.user)
}
