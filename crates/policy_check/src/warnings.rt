//! What is told of a policy that is likely a mistake.
use crate::effects::{Free, free_in};
use crate::entries::{Idle, any, idle_in};
use crate::imports::is_unused;
use crate::users::{allow_nothing, has_no_connect};
use base::NoMemory;
use bytes::Bytes;
use json::Writer;
use permissions::{By, Verdict};
use policy_doc::{NamedAccount, PermDoc, Policy, UserDoc};
use policy_notes::paths::entry_path;
use policy_notes::positions::{Spot, at_of, place_at, spots_of};
use policy_permissions::Side;
use policy_walk::Path;
use serde_json::Value;
use std::alloc::Global;
use std::str;

/// What is likely a mistake, and where.
#[derive(Debug, Drop)]
pub struct Warning {
    /// What it is, in words.
    pub words: String,
    /// The path of where it stands.
    pub path: Path,
    /// The path of what it stands against, if that is an entry.
    pub against: Option<Path>,
}

/// Returns a text for each part of a policy that is likely a mistake, by its place in the policy: the lists of
/// default permissions, and by accounts their users and imports. `NoMemory` where memory could not be had.
pub fn warnings_of(alloc: Global, text: &str, policy: &Policy) -> Result<Vec<String>, NoMemory> {
    // (the text was read before, so it is JSON)
    let Ok(value) = Value::from_str(alloc, text) else {
        return Err(NoMemory);
    };
    let doc = policy.doc();
    let mut found = Vec::new(alloc);
    if let Some(usual) = &doc.default_permissions {
        let path = Path::whole(alloc).key(alloc, "default_permissions")?;
        let whose = String::from_str(alloc, "default_permissions")?;
        let whole = Path::whole(alloc);
        warn_of_lists(alloc, &value, usual, (&whose, &whole), path, &mut found)?;
    }
    for named in doc.accounts.as_slice() {
        warn_of_users(alloc, &value, named, &mut found)?;
        warn_of_imports(alloc, named, doc.default_permissions.as_ref(), &mut found)?;
    }
    placed(alloc, text, found.as_slice())
}

/// Returns the texts of warnings, with the places of their paths.
fn placed(alloc: Global, text: &str, found: &[Warning]) -> Result<Vec<String>, NoMemory> {
    let spots = spots_of(alloc, text)?;
    let mut warnings = Vec::new(alloc);
    for warning in found {
        warnings.push(placed_one(alloc, text, spots.as_slice(), warning)?)?;
    }
    Ok(warnings)
}

fn placed_one(
    alloc: Global,
    text: &str,
    spots: &[Spot],
    warning: &Warning,
) -> Result<String, NoMemory> {
    let words = &warning.words;
    let place = place_at(text.as_bytes(), at_of(spots, &warning.path).unwrap_or(0));
    match &warning.against {
        None => Ok(format!(in alloc; "{words}, at {place}")?),
        Some(path) => {
            let other = place_at(text.as_bytes(), at_of(spots, path).unwrap_or(0));
            Ok(format!(in alloc; "{words}, at {other} and at {place}")?)
        }
    }
}

/// Appends what is likely a mistake of an account's users.
fn warn_of_users(
    alloc: Global,
    value: &Value,
    named: &NamedAccount,
    found: &mut Vec<Warning>,
) -> Result<(), NoMemory> {
    let users = path_of_account(alloc, named)?.key(alloc, "users")?;
    for (row, user) in named.account.users.as_slice().iter().enumerate() {
        let path = users.index(alloc, row)?;
        warn_of_user(alloc, value, user, path, found)?;
    }
    Ok(())
}

/// The path of an account.
fn path_of_account(alloc: Global, named: &NamedAccount) -> Result<Path, NoMemory> {
    let accounts = Path::whole(alloc).key(alloc, "accounts")?;
    Ok(accounts.key(alloc, text_of(&named.name))?)
}

/// A name as a text. Each name of a policy's text is one.
fn text_of(name: &Bytes) -> &str {
    match str::from_utf8(name.as_slice()) {
        Ok(text) => text,
        Err(_) => "",
    }
}

/// Appends what is likely a mistake of a user at a path.
fn warn_of_user(
    alloc: Global,
    value: &Value,
    user: &UserDoc,
    path: Path,
    found: &mut Vec<Warning>,
) -> Result<(), NoMemory> {
    let name = quoted(alloc, text_of(&user.user))?;
    if has_no_connect(alloc, user)? {
        let words = format!(in alloc; "no CONNECT has room for the password of {name}")?;
        push(found, words, path.key(alloc, "password")?, None)?;
    }
    match &user.permissions {
        None => Ok(()),
        Some(permissions) => {
            let whose = format!(in alloc; "user {name}")?;
            let own = path.key(alloc, "permissions")?;
            warn_of_lists(alloc, value, permissions, (&whose, &path), own, found)
        }
    }
}

/// Appends what is likely a mistake of permissions at a path: that they allow nothing, or else entries that decide
/// nothing, or change nothing. `whose` says whose they are, with the user's path.
fn warn_of_lists(
    alloc: Global,
    value: &Value,
    permissions: &PermDoc,
    whose: (&String, &Path),
    path: Path,
    found: &mut Vec<Warning>,
) -> Result<(), NoMemory> {
    let publish = idle_in(alloc, &permissions.publish)?;
    let subscribe = idle_in(alloc, &permissions.subscribe)?;
    if allow_nothing(
        permissions,
        publish.as_slice(),
        subscribe.as_slice(),
        &any(alloc)?,
    ) {
        let words = format!(in alloc; "{} may do nothing", whose.0)?;
        return push(found, words, path, None);
    }
    warn_of_entries(
        alloc,
        value,
        Side::Publish,
        publish.as_slice(),
        whose,
        found,
    )?;
    warn_of_entries(
        alloc,
        value,
        Side::Subscribe,
        subscribe.as_slice(),
        whose,
        found,
    )?;
    for free in free_in(alloc, permissions, publish.as_slice(), subscribe.as_slice())? {
        warn_of_free(alloc, value, free, whose, found)?;
    }
    Ok(())
}

/// Appends a warning for an entry without which nothing is judged otherwise.
fn warn_of_free(
    alloc: Global,
    value: &Value,
    free: Free,
    whose: (&String, &Path),
    found: &mut Vec<Warning>,
) -> Result<(), NoMemory> {
    let (entry, owner, side) = (free.entry, whose.0, free.list.side);
    let (verdict, list) = if free.list.is_deny {
        (Verdict::DeniedBy(entry), "deny")
    } else {
        (Verdict::Allowed(By::Index(entry)), "allow")
    };
    let Some(path) = entry_path(alloc, value, whose.1, side, verdict)? else {
        return Ok(());
    };
    let to = side_word(side);
    let words = format!(in alloc; "{to} {list} entry {entry} of {owner} changes nothing")?;
    push(found, words, path, None)
}

/// Returns what a direction is called.
fn side_word(side: Side) -> &'static str {
    match side {
        Side::Publish => "publish",
        Side::Subscribe => "subscribe",
    }
}

/// Appends a warning for each entry of a direction that decides nothing.
fn warn_of_entries(
    alloc: Global,
    value: &Value,
    side: Side,
    idle: &[Idle],
    whose: (&String, &Path),
    found: &mut Vec<Warning>,
) -> Result<(), NoMemory> {
    for entry in idle {
        warn_of_entry(alloc, value, side, *entry, whose, found)?;
    }
    Ok(())
}

/// Appends a warning for an entry that decides nothing.
fn warn_of_entry(
    alloc: Global,
    value: &Value,
    side: Side,
    idle: Idle,
    whose: (&String, &Path),
    found: &mut Vec<Warning>,
) -> Result<(), NoMemory> {
    let allowed = Verdict::Allowed(By::Index(idle.entry));
    let Some(path) = entry_path(alloc, value, whose.1, side, allowed)? else {
        return Ok(());
    };
    let (entry, by, owner) = (idle.entry, idle.by, whose.0);
    let to = side_word(side);
    let (other, words) = if idle.is_denied {
        (
            Verdict::DeniedBy(by),
            format!(in alloc; "{to} deny entry {by} of {owner} hides allow entry {entry} whole")?,
        )
    } else {
        (
            Verdict::Allowed(By::Index(by)),
            format!(in alloc; "{to} allow entry {by} of {owner} covers allow entry {entry}")?,
        )
    };
    let against = entry_path(alloc, value, whose.1, side, other)?;
    push(found, words, path, against)
}

/// Appends a warning for each import of an account that no user of it can use.
fn warn_of_imports(
    alloc: Global,
    named: &NamedAccount,
    usual: Option<&PermDoc>,
    found: &mut Vec<Warning>,
) -> Result<(), NoMemory> {
    let account = text_of(&named.name);
    let imports = path_of_account(alloc, named)?.key(alloc, "imports")?;
    for (row, import) in named.account.imports.as_slice().iter().enumerate() {
        if is_unused(alloc, import, named.account.users.as_slice(), usual)? {
            let words = format!(in alloc; "no user of {account} can use import {row}")?;
            push(found, words, imports.index(alloc, row)?, None)?;
        }
    }
    Ok(())
}

/// Appends a warning.
fn push(
    found: &mut Vec<Warning>,
    words: String,
    path: Path,
    against: Option<Path>,
) -> Result<(), NoMemory> {
    found.push(Warning {
        words,
        path,
        against,
    })?;
    Ok(())
}

/// Returns a text as JSON writes it.
fn quoted(alloc: Global, text: &str) -> Result<String, NoMemory> {
    let mut out = Writer::new(Vec::new(alloc));
    out.string(text)?;
    match String::from_utf8(out.into_inner()) {
        Ok(quoted) => Ok(quoted),
        Err(_) => Ok(String::new(alloc)),
    }
}
