use crate::services::served;
use base::Items;
use bytes::Bytes;
use policy_doc::permission_doc::{Direction, PermDoc, PermEntry};
use policy_doc::{AccountDoc, Accounts, Policy, PolicyDoc, UserDoc, Version};
use policy_ready::CompiledPolicy;
use std::alloc::Global;
use subjects::Pattern;

/// The policies of the tests. User demo, if there is one, is of account A.
#[derive(Clone, Copy)]
pub enum Given {
    /// User demo may do everything.
    All,
    /// User demo may subscribe to this subject alone.
    Only(&'static str),
    /// There is no user.
    Nobody,
    /// User demo may publish `ask`, `x.secret`, and subjects of so many forms that verdicts are remembered, `t.x.y.z.8` among
    /// them. `ask` is a service of account B, of user serve, that account A imports. Any number of answers may come.
    Wide,
    /// As `Wide`, but user demo may not publish `t.x.y.z.8` and isn't sent `x.secret`, and account A imports another service first.
    Narrow,
}

/// The policy, ready for use. There is none where memory could not be had.
pub fn ready_of(alloc: Global, given: Given) -> Option<CompiledPolicy> {
    let users = match given {
        Given::All => one_user(alloc, b"demo", None)?,
        Given::Only(subject) => only(alloc, subject)?,
        Given::Nobody => Items::new(alloc),
        Given::Wide => return ready(alloc, served(alloc, "t.*.*.*.8", &[], &["ask"])?),
        Given::Narrow => {
            let hidden = ["y.*", "x.secret"];
            return ready(
                alloc,
                served(alloc, "t.*.*.*.9", &hidden, &["else", "ask"])?,
            );
        }
    };
    let mut accounts = Accounts::new(alloc);
    accounts
        .insert(Bytes::from_static(b"A"), account(alloc, users))
        .ok()?;
    ready(alloc, accounts)
}

fn only(alloc: Global, subject: &str) -> Option<Items<UserDoc>> {
    let permissions = permissions(entry(alloc, subject)?, alloc)?;
    one_user(alloc, b"demo", Some(permissions))
}

pub(crate) fn entry(alloc: Global, subject: &str) -> Option<PermEntry> {
    Some(PermEntry {
        subject: Pattern::parse(alloc, subject.as_bytes()).ok()?,
        queue: None,
    })
}

fn permissions(entry: PermEntry, alloc: Global) -> Option<PermDoc> {
    let mut entries = Vec::new(alloc);
    entries.push(entry).ok()?;
    Some(PermDoc {
        publish: Direction {
            allow: None,
            deny: Items::new(alloc),
        },
        subscribe: Direction {
            allow: Some(Items::from_vec(entries)),
            deny: Items::new(alloc),
        },
        allow_responses: None,
    })
}

/// One user, whose password is its name.
pub(crate) fn one_user(
    alloc: Global,
    name: &'static [u8],
    permissions: Option<PermDoc>,
) -> Option<Items<UserDoc>> {
    let mut users = Vec::new(alloc);
    let user = UserDoc {
        user: Bytes::from_static(name),
        password: Bytes::from_static(name),
        permissions,
    };
    users.push(user).ok()?;
    Some(Items::from_vec(users))
}

fn account(alloc: Global, users: Items<UserDoc>) -> AccountDoc {
    AccountDoc {
        users,
        exports: Items::new(alloc),
        imports: Items::new(alloc),
        mappings: Items::new(alloc),
    }
}

fn ready(alloc: Global, accounts: Accounts) -> Option<CompiledPolicy> {
    let doc = PolicyDoc {
        accounts,
        version: Version::One,
        default_permissions: None,
    };
    let policy = Policy::check(alloc, doc).ok()?;
    CompiledPolicy::of(alloc, policy).ok()
}
