ghost use Rattle.std.specs.Prelude.{◌≡◌, ◌++◌, IfOk, OnOk};

use crate::imports::Rows;
use account_mappings::Mappings;
use base::{Alike, Copying, NoMemory, SharedText};
use bytes::Bytes;
use permissions::Compiled;
use policy_doc::{NamedAccount, PermDoc, Policy, PolicyDoc, UserDoc};
use std::alloc::Global;
use std::marker::Model;
use std::sync::Arc;

/// A user of a policy, with its permissions compiled, and with its account's mappings.
#[derive(Debug)]
pub struct User {
    /// The name of its account.
    pub account: Bytes,
    /// Its own name, which no other user has.
    pub user: Bytes,
    /// The password with which it connects.
    pub password: Bytes,
    /// What it may publish and subscribe to.
    pub rules: Compiled,
    /// Under which subjects what it publishes is sent on.
    pub mappings: Mappings,
}

impl Drop for User {
    fn drop(self) {
        let Self {
            account: _,
            user: _,
            password: _,
            rules: _,
            mappings: _,
        } = self;
    }
}

impl Copying for User {
    fn copy(&self, alloc: Global) -> Result<User, NoMemory> {
        Ok(User {
            account: self.account.clone()?,
            user: self.user.clone()?,
            password: self.password.clone()?,
            rules: self.rules.copy(alloc)?,
            mappings: self.mappings.copy(alloc)?,
        })
    }
}

impl Alike for User {
    fn is_like(&self, other: &User) -> bool {
        self.account.is_like(&other.account)
            && self.user.is_like(&other.user)
            && self.password.is_like(&other.password)
            && self.rules.is_like(&other.rules)
            && self.mappings.is_like(&other.mappings)
    }
}

/// The name of a user, and its place among all users.
#[derive(Debug, Drop)]
struct Named {
    name: Bytes,
    place: usize,
}

/// A policy with its users, each with compiled permissions, and its import rows.
#[derive(Debug, Drop)]
struct Parts {
    policy: Policy,
    users: Vec<User>,
    /// Where each user is likely to stand, by rising names. Whoever is looked for is compared there.
    by_name: Vec<Named>,
    rows: Rows,
}

/// A policy made ready to be asked: each of its users has compiled permissions, each import row its mapping. Copies share
/// it. A clause sees the policy.
#[derive(Debug)]
pub struct CompiledPolicy {
    shared: Arc<Parts>,
}

impl Drop for CompiledPolicy {
    fn drop(self) {
        let Self { shared: _ } = self;
    }
}

impl Model for CompiledPolicy {
    ghost use Rattle.std.specs.Prelude.{◌≡◌};
    ghost use Rattle.policy_doc.specs.declared.document.PolicyDoc.{PolicyDoc};

    ghost Value = { PolicyDoc };

    ghost use Rattle.policy_ready.specs.Users.{users_of};
    ghost use Rattle.std.specs.Arc.{arc_value};
    ghost use Rattle.policy_doc.specs.Document.{IsValidPolicy};
    ghost use Rattle.policy_ready.specs.imports.Views.{rows_of};

    ghost view = { λ r. (arc_value r.shared).policy };

    ghost invariant = { λ r. IsValidPolicy (arc_value r.shared).policy
        × ((arc_value r.shared).users.items ≡ users_of (arc_value r.shared).policy)
        × ((arc_value r.shared).rows ≡ rows_of (arc_value r.shared).policy) };
}

impl CompiledPolicy {
    ghost use Rattle.std.specs.Prelude.{◌≡◌, Some, IfOk, IfErr};
    ghost use Rattle.std.specs.Option.{option_copied, option_map};
    ghost use Rattle.policy_ready.specs.Users.{users_of, user_named, user_with_password, user_again};
    ghost use Rattle.policy_ready.specs.imports.Views.{rows_of};

    /// The policy, made ready. Where memory could not be had, the policy is handed back.
    pub fn of(alloc: Global, policy: Policy) -> Result<CompiledPolicy, (Policy, NoMemory)>
        ensures ok { IfOk result (λ ready. ready ≡ policy) }
        ensures err { IfErr result (λ refused. refused.0 ≡ policy) }
    {
        let users = match users_of(alloc, policy.doc()) {
            Ok(users) => users,
            Err(refused) => return Err((policy, refused)),
        };
        let rows = match Rows::of(alloc, &policy) {
            Ok(rows) => rows,
            Err(refused) => return Err((policy, refused)),
        };
        match names_of(alloc, users.as_slice()) {
            Ok(by_name) => share(
                alloc,
                Parts {
                    policy,
                    users,
                    by_name,
                    rows,
                },
            ),
            Err(refused) => Err((policy, refused)),
        }
    }

    /// The policy.
    pub fn policy(&self) -> &Policy
        ensures { result.now ≡ self.now }
    {
        &self.shared.policy
    }

    /// The users, account by account, each with its permissions.
    pub fn users(&self) -> &[User]
        ensures { result.now ≡ users_of self.now }
    {
        self.shared.users.as_slice()
    }

    /// The import rows.
    pub fn rows(&self) -> &Rows
        ensures { result.now ≡ rows_of self.now }
    {
        &self.shared.rows
    }

    /// The compiled permissions of the user with that name, if there is one.
    pub fn compiled(&self, user: &[u8]) -> Option<&Compiled>
        ensures { option_copied result ≡ option_map (λ found. found.rules) (user_named self.now user.now) }
    {
        match find_user(self.shared.users.as_slice(), user) {
            None => None,
            Some(found) => Some(&found.rules),
        }
    }

    /// The user with that name and password, if there is one. Without a name there is none.
    pub fn user_with_password(
        &self,
        name: &Option<SharedText>,
        password: &SharedText,
    ) -> Option<&User>
        ensures { option_copied result ≡ user_with_password self.now name.now password.now }
    {
        match name {
            None => None,
            Some(name) => self.user_named(name.as_slice(), password.as_slice()),
        }
    }

    fn user_named(&self, name: &[u8], password: &[u8]) -> Option<&User>
        ensures { option_copied result ≡ user_with_password self.now (Some name.now) password.now }
    {
        self.shared.users.iter().find(|user| user.user.as_slice() == name
            && user.password.as_slice() == password)
    }

    /// The user with the same name, password and account as another, if there is one.
    pub fn user_again(&self, user: &User) -> Option<&User>
        ensures { option_copied result ≡ user_again self.now user.now }
    {
        let users = self.shared.users.as_slice();
        match place_again(users, self.shared.by_name.as_slice(), user) {
            Some(place) => Some(&users[place]),
            None => users.iter().find(|known| is_same_user(known, user)),
        }
    }
}

impl Copying for CompiledPolicy {
    fn copy(&self, _alloc: Global) -> Result<CompiledPolicy, NoMemory> {
        Ok(CompiledPolicy {
            shared: Arc::try_clone(&self.shared)?,
        })
    }
}

impl Alike for CompiledPolicy {
    fn is_like(&self, other: &CompiledPolicy) -> bool {
        self.policy().doc().is_like(other.policy().doc())
    }
}

ghost use Rattle.std.specs.Prelude.{◌<◌, IfErr, IfSome, true, length, nat_eq, find};
ghost use Rattle.std.specs.Cmp.Lexicographic.{pointwise};
ghost use Rattle.policy_ready.specs.declared.ready.User.{User};
ghost use Rattle.std.specs.List.{HoldsAt};
ghost use Rattle.std.specs.Option.{option_copied};
ghost use Rattle.permissions.specs.Lists.{lists_of, lists_with};
ghost use Rattle.policy_ready.specs.Users.{is_same_user, users_in, users_of as all_users_of};
ghost use Rattle.policy_ready.specs.imports.Views.{rows_of};

/// Shares what was made ready. Where memory could not be had, the policy is handed back.
fn share(alloc: Global, parts: Parts) -> Result<CompiledPolicy, (Policy, NoMemory)>
    requires users { parts.users.items ≡ all_users_of parts.policy }
    requires rows { parts.rows ≡ rows_of parts.policy }
    ensures ok { IfOk result (λ ready. ready ≡ parts.policy) }
    ensures err { IfErr result (λ refused. refused.0 ≡ parts.policy) }
{
    match Arc::new(alloc, parts) {
        Ok(shared) => Ok(CompiledPolicy { shared }),
        Err(refused) => Err((refused.value.policy, NoMemory)),
    }
}

/// The user with that name, if there is one.
fn find_user<'a>(users: &'a [User], name: &[u8]) -> Option<&'a User>
    ensures { option_copied result ≡ find (λ (u : User). pointwise nat_eq u.user name.now) users.now }
{
    users.iter().find(|known| known.user.as_slice() == name)
}

/// Whether two users have the same name, password and account.
fn is_same_user(known: &User, user: &User) -> bool
    ensures { result ≡ is_same_user known.now user.now }
{
    known.user == user.user && known.password == user.password && known.account == user.account
}

/// Where the same user stands, if it is found by its name.
fn place_again(users: &[User], by_name: &[Named], user: &User) -> Option<usize>
    ensures within { IfSome result (λ place. place < length users.now) }
    ensures same { IfSome result (HoldsAt (λ u. is_same_user u user.now ≡ true) users.now) }
{
    match by_name.binary_search_by(|named| named.name.as_slice().cmp(user.user.as_slice())) {
        Err(_) => None,
        Ok(at) => {
            let place = by_name[at].place;
            if place < users.len() && is_same_user(&users[place], user) {
                Some(place)
            } else {
                None
            }
        }
    }
}

/// The place of each user, by rising names.
fn names_of(alloc: Global, users: &[User]) -> Result<Vec<Named>, NoMemory> {
    let mut by_name = Vec::with_capacity(alloc, users.len())?;
    for (place, user) in users.iter().enumerate() {
        by_name.push(Named {
            name: user.user.clone()?,
            place,
        })?;
    }
    by_name.sort_unstable_by(|one, other| one.name.as_slice().cmp(other.name.as_slice()));
    Ok(by_name)
}

fn users_of(alloc: Global, doc: &PolicyDoc) -> Result<Vec<User>, NoMemory>
    ensures { IfOk result (λ users. users.items ≡ all_users_of doc.now) }
{
    let default = doc.default_permissions.as_ref();
    let usual = Compiled::of_permissions(alloc, default)?;
    let mut users = Vec::new(alloc);
    for account in doc.accounts.as_slice() {
        add_users(alloc, &mut users, default, &usual, account)?;
    }
    Ok(users)
}

/// Appends the users of an account. Those that have the default permissions share them, made ready.
fn add_users(
    alloc: Global,
    users: &mut Vec<User>,
    default: Option<&PermDoc>,
    usual: &Compiled,
    account: &NamedAccount,
) -> Result<(), NoMemory>
    requires { usual.now ≡ lists_with (option_copied default) }
    ensures { OnOk result (users.new.items ≡ users.old.items ++ users_in (option_copied default.entry) account.now) }
{
    let mappings = Mappings::of(alloc, &account.account.mappings)?;
    for user in account.account.users.as_slice() {
        let rules = rules_of(alloc, default, usual, user)?;
        users.push(user_of(alloc, &account.name, user, rules, &mappings)?)?;
    }
    Ok(())
}

/// The permissions of a user, made ready.
fn rules_of(
    alloc: Global,
    default: Option<&PermDoc>,
    usual: &Compiled,
    user: &UserDoc,
) -> Result<Compiled, NoMemory>
    requires { usual.now ≡ lists_with (option_copied default) }
    ensures { IfOk result (λ rules. rules ≡ lists_of user.now (option_copied default.entry)) }
{
    match &user.permissions {
        None => usual.copy(alloc),
        Some(_) => Compiled::of(alloc, user, default),
    }
}

fn user_of(
    alloc: Global,
    account: &Bytes,
    user: &UserDoc,
    rules: Compiled,
    mappings: &Mappings,
) -> Result<User, NoMemory>
    ensures { IfOk result (λ made. made ≡ record { account = account.now; user = user.now.user; password = user.now.password; rules = rules; mappings = mappings.now }) }
{
    Ok(User {
        account: account.clone()?,
        user: user.user.clone()?,
        password: user.password.clone()?,
        rules,
        mappings: mappings.copy(alloc)?,
    })
}
