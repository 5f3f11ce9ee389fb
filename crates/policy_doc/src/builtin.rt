//! The policy that holds where none is given (docs/POLICY.md, "The built-in policy").
ghost use Rattle.std.specs.Prelude.{◌≡◌, ◌∷◌, [], None, IfOk};
ghost use Rattle.subjects.specs.Subject.{tokens_of};
ghost use Rattle.subjects.specs.Fault.{pattern_fault};
ghost use Rattle.policy_doc.specs.Document.{limited_direction, limited_user, demo_user, builtin_doc};
ghost use Rattle.policy_doc.specs.permission_doc.Entries.{entry_of};

use crate::{AccountDoc, Accounts, Direction, PermDoc, PermEntry, PolicyDoc, UserDoc, Version};
use base::{Items, NoMemory};
use bytes::Bytes;
use std::alloc::Global;
use subjects::Pattern;

/// The built-in document.
pub(crate) fn builtin_document(alloc: Global) -> Result<PolicyDoc, NoMemory>
    ensures { IfOk result (λ doc. doc ≡ builtin_doc) }
{
    let mut users = Vec::with_capacity(alloc, 2)?;
    users.push(demo())?;
    users.push(limited(alloc)?)?;
    let account = AccountDoc {
        users: Items::from_vec(users),
        exports: Items::new(alloc),
        imports: Items::new(alloc),
        mappings: Items::new(alloc),
    };
    let mut accounts = Accounts::new(alloc);
    accounts.insert(Bytes::from_static(b"DEMO"), account)?;
    Ok(PolicyDoc {
        accounts,
        version: Version::One,
        default_permissions: None,
    })
}

/// The user that may do everything.
fn demo() -> UserDoc
    ensures { result ≡ demo_user }
{
    UserDoc {
        user: Bytes::from_static(b"demo"),
        password: Bytes::from_static(b"demo"),
        permissions: None,
    }
}

/// The user that may publish and subscribe below `foo`, and not on `foo.bar`.
fn limited(alloc: Global) -> Result<UserDoc, NoMemory>
    ensures { IfOk result (λ user. user ≡ limited_user) }
{
    let permissions = PermDoc {
        publish: below_foo(alloc)?,
        subscribe: below_foo(alloc)?,
        allow_responses: None,
    };
    Ok(UserDoc {
        user: Bytes::from_static(b"limited"),
        password: Bytes::from_static(b"limited"),
        permissions: Some(permissions),
    })
}

/// All below `foo` but `foo.bar`.
fn below_foo(alloc: Global) -> Result<Direction, NoMemory>
    ensures { IfOk result (λ direction. direction ≡ limited_direction) }
{
    let allow = sole_entry(alloc, b"foo.>")?;
    let deny = sole_entry(alloc, b"foo.bar")?;
    Ok(Direction {
        allow: Some(allow),
        deny,
    })
}

/// The list whose one entry is the pattern of a text.
fn sole_entry(alloc: Global, text: &[u8]) -> Result<Items<PermEntry>, NoMemory>
    requires { pattern_fault text.now ≡ None }
    ensures { IfOk result (λ entries. entries ≡ entry_of (tokens_of text.now) ∷ []) }
{
    let mut entries = Vec::with_capacity(alloc, 1)?;
    entries.push(PermEntry {
        subject: pattern_of(alloc, text)?,
        queue: None,
    })?;
    Ok(Items::from_vec(entries))
}

/// The pattern of a text that has no fault.
fn pattern_of(alloc: Global, text: &[u8]) -> Result<Pattern, NoMemory>
    requires { pattern_fault text.now ≡ None }
    ensures { IfOk result (λ pattern. pattern ≡ tokens_of text.now) }
{
    match Pattern::parse(alloc, text) {
        Ok(pattern) => Ok(pattern),
        Err(_) => Err(NoMemory),
    }
}
