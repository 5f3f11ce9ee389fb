//! Accounts of which one imports services of the other.
use crate::policies::{entry, one_user};
use base::Items;
use bytes::Bytes;
use policy_doc::permission_doc::{Direction, PermDoc, PermEntry};
use policy_doc::{AccountDoc, Accounts, ExportDoc, ImportDoc, Kind, ResponseTerms};
use std::alloc::Global;
use subjects::Pattern;

/// Two accounts. User demo of account A may publish what some entries and this last one allow, and isn't sent what is hidden.
/// Account A imports these services of account B, where user serve may do everything.
pub(crate) fn served(
    alloc: Global,
    last: &str,
    hidden: &[&str],
    services: &[&str],
) -> Option<Accounts> {
    let mut accounts = Accounts::new(alloc);
    let asking = asking(alloc, permissions(alloc, last, hidden)?, services)?;
    accounts.insert(Bytes::from_static(b"A"), asking).ok()?;
    let serving = serving(alloc)?;
    accounts.insert(Bytes::from_static(b"B"), serving).ok()?;
    Some(accounts)
}

fn asking(alloc: Global, permissions: PermDoc, services: &[&str]) -> Option<AccountDoc> {
    let imports = imports(alloc, services)?;
    Some(AccountDoc {
        users: one_user(alloc, b"demo", Some(permissions))?,
        exports: Items::new(alloc),
        imports,
        mappings: Items::new(alloc),
    })
}

fn serving(alloc: Global) -> Option<AccountDoc> {
    let mut exports = Vec::new(alloc);
    exports.push(export(alloc)?).ok()?;
    Some(AccountDoc {
        users: one_user(alloc, b"serve", None)?,
        exports: Items::from_vec(exports),
        imports: Items::new(alloc),
        mappings: Items::new(alloc),
    })
}

fn permissions(alloc: Global, last: &str, hidden: &[&str]) -> Option<PermDoc> {
    Some(PermDoc {
        publish: Direction {
            allow: Some(entries(alloc, &published(last))?),
            deny: Items::new(alloc),
        },
        subscribe: Direction {
            allow: None,
            deny: entries(alloc, hidden)?,
        },
        allow_responses: None,
    })
}

/// What user demo may publish. It has no clause, so that the prover knows nothing of the texts.
fn published(last: &str) -> [&str; 10] {
    [
        "ask",
        "x.secret",
        "t.a.b.c.1",
        "t.*.b.c.2",
        "t.a.*.c.3",
        "t.a.b.*.4",
        "t.*.*.c.5",
        "t.*.b.*.6",
        "t.a.*.*.7",
        last,
    ]
}

fn entries(alloc: Global, subjects: &[&str]) -> Option<Items<PermEntry>> {
    let mut entries = Vec::new(alloc);
    for subject in subjects {
        entries.push(entry(alloc, subject)?).ok()?;
    }
    Some(Items::from_vec(entries))
}

fn imports(alloc: Global, services: &[&str]) -> Option<Items<ImportDoc>> {
    let mut imports = Vec::new(alloc);
    for service in services {
        imports.push(import(alloc, service)?).ok()?;
    }
    Some(Items::from_vec(imports))
}

/// A service of account B, under its own name.
fn import(alloc: Global, service: &str) -> Option<ImportDoc> {
    Some(ImportDoc {
        kind: Kind::Service,
        account: Bytes::from_static(b"B"),
        subject: Pattern::parse(alloc, service.as_bytes()).ok()?,
        to: None,
        prefix: None,
    })
}

/// All subjects of one token as services, of which any number of answers may come.
fn export(alloc: Global) -> Option<ExportDoc> {
    Some(ExportDoc {
        kind: Kind::Service,
        subject: Pattern::parse(alloc, b"*").ok()?,
        accounts: None,
        response: ResponseTerms {
            ttl: 120_000,
            single: false,
        },
    })
}
