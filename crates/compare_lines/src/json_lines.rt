//! The JSON object of each change.
use crate::members::{put_item, put_number, put_text, put_word};
use crate::words::{
    coming_word, gain_word, import_word, kind_word, response_word, user_word, verdict_word,
};
use base::{Items, NoMemory};
use bytes::Bytes;
use compare::{
    AccountChange, Becoming, Change, Changes, ExchangeChange, Judged, ListChange, MappingChange,
    ServiceTerms, Share, ShareTo, UserChange,
};
use json::Writer;
use permissions::{By, Verdict};
use policy_doc::permission_doc::Terms;
use policy_notes::positions::Place;
use std::alloc::Global;

/// Returns a JSON object for each change, each with its LF. Its first members are the words of the change's text,
/// `change` and `what`; then come the names, and `old` and `new`, what the two policies say, where both say
/// something. `NoMemory` where memory could not be had.
pub fn json_of(alloc: Global, changes: &Changes<'_>) -> Result<Vec<u8>, NoMemory> {
    let mut lines = Vec::new(alloc);
    for change in changes.accounts.as_slice() {
        let mut out = begun(alloc)?;
        put_account(alloc, &mut out, *change)?;
        end_line(&mut lines, out)?;
    }
    for change in changes.users.as_slice() {
        let mut out = begun(alloc)?;
        put_user_change(alloc, &mut out, *change)?;
        end_line(&mut lines, out)?;
    }
    for change in changes.lists.as_slice() {
        let mut out = begun(alloc)?;
        put_list(alloc, &mut out, change)?;
        end_line(&mut lines, out)?;
    }
    for change in changes.others.as_slice() {
        let mut out = begun(alloc)?;
        put_change(alloc, &mut out, change)?;
        end_line(&mut lines, out)?;
    }
    Ok(lines)
}

/// Returns an object that has no member yet.
fn begun(alloc: Global) -> Result<Writer, NoMemory> {
    let mut out = Writer::new(Vec::new(alloc));
    out.begin_object()?;
    Ok(out)
}

/// Ends an object and appends it with its LF.
fn end_line(lines: &mut Vec<u8>, object: Writer) -> Result<(), NoMemory> {
    let mut out = object;
    out.end_object()?;
    lines.extend_from_slice(out.into_inner().as_slice())?;
    lines.push(b'\n')?;
    Ok(())
}

/// Appends the members of an account that comes or goes.
fn put_account(alloc: Global, out: &mut Writer, change: AccountChange<'_>) -> Result<(), NoMemory> {
    put_head(out, coming_word(change.is_new), "account")?;
    put_text(alloc, out, "account", change.name)
}

/// Appends the members of what becomes of a user.
fn put_user_change(
    alloc: Global,
    out: &mut Writer,
    change: UserChange<'_>,
) -> Result<(), NoMemory> {
    put_head(out, user_word(change.what), "user")?;
    match change.what {
        Becoming::MovedTo(new) => {
            put_text(alloc, out, "user", change.user)?;
            put_text(alloc, out, "old", change.account)?;
            put_text(alloc, out, "new", new)
        }
        _ => put_user(alloc, out, change.account, change.user),
    }
}

/// Appends the members of a change.
fn put_change(alloc: Global, out: &mut Writer, change: &Change<'_>) -> Result<(), NoMemory> {
    match change {
        Change::Answers {
            account,
            user,
            old,
            new,
        } => put_both_answers(alloc, out, (account, user), *old, *new),
        Change::Exchange(change) => put_exchange(alloc, out, change),
        Change::Service {
            importer,
            index,
            old,
            new,
        } => put_service(alloc, out, (importer, *index), *old, *new),
        Change::Mapping { account, change } => put_mapping(alloc, out, account, change),
        Change::Set { accounts, is_new } => {
            put_head(out, coming_word(*is_new), "set")?;
            put_accounts(alloc, out, accounts)
        }
    }
}

/// Appends the terms on which a user of an account answered requests, and those on which it may.
fn put_both_answers(
    alloc: Global,
    out: &mut Writer,
    user: (&[u8], &[u8]),
    old: Option<Terms>,
    new: Option<Terms>,
) -> Result<(), NoMemory> {
    put_head(out, "changes", "answers")?;
    put_user(alloc, out, user.0, user.1)?;
    put_answers(out, "old", old)?;
    put_answers(out, "new", new)
}

/// Appends what the requests of an import meet: the import by its importer and its index there, and both policies'
/// terms.
fn put_service(
    alloc: Global,
    out: &mut Writer,
    import: (&[u8], usize),
    old: ServiceTerms<'_>,
    new: ServiceTerms<'_>,
) -> Result<(), NoMemory> {
    put_head(out, "changes", "service")?;
    put_text(alloc, out, "importer", import.0)?;
    put_number(out, "import", import.1 as u64)?;
    put_terms(alloc, out, "old", old)?;
    put_terms(alloc, out, "new", new)
}

/// Appends where an account's messages on a subject went, and where they go.
fn put_mapping(
    alloc: Global,
    out: &mut Writer,
    account: &[u8],
    change: &MappingChange,
) -> Result<(), NoMemory> {
    put_head(out, "changes", "mapping")?;
    put_text(alloc, out, "account", account)?;
    put_text(alloc, out, "subject", change.subject.as_slice())?;
    put_shares(alloc, out, "old", change.old.as_slice())?;
    put_shares(alloc, out, "new", change.new.as_slice())
}

/// Appends the accounts of a set.
fn put_accounts(alloc: Global, out: &mut Writer, accounts: &Items<Bytes>) -> Result<(), NoMemory> {
    out.key("accounts")?;
    out.begin_array()?;
    for account in accounts.as_slice() {
        put_item(alloc, out, account.as_slice())?;
    }
    out.end_array()?;
    Ok(())
}

/// Appends the words that a change begins with.
fn put_head(out: &mut Writer, change: &str, what: &str) -> Result<(), NoMemory> {
    put_word(out, "change", change)?;
    put_word(out, "what", what)
}

/// Appends an account and a user.
fn put_user(alloc: Global, out: &mut Writer, account: &[u8], user: &[u8]) -> Result<(), NoMemory> {
    put_text(alloc, out, "account", account)?;
    put_text(alloc, out, "user", user)
}

/// Appends what a user gains or loses.
fn put_list(alloc: Global, out: &mut Writer, change: &ListChange<'_>) -> Result<(), NoMemory> {
    put_head(out, gain_word(change.is_gain), kind_word(change.kind))?;
    put_user(alloc, out, change.account, change.user)?;
    put_text(alloc, out, "subject", change.asked.subject.as_slice())?;
    if let Some(queue) = &change.asked.queue {
        put_text(alloc, out, "queue", queue.bytes())?;
    }
    put_judged(alloc, out, "old", &change.old)?;
    put_judged(alloc, out, "new", &change.new)
}

/// Appends a verdict, with the entry that it names and its place.
fn put_judged(
    alloc: Global,
    out: &mut Writer,
    name: &str,
    judged: &Judged<'_>,
) -> Result<(), NoMemory> {
    out.key(name)?;
    out.begin_object()?;
    put_word(out, "verdict", verdict_word(judged.verdict))?;
    if let Some(index) = index_of(judged.verdict) {
        put_number(out, "index", index as u64)?;
    }
    if let Some(entry) = judged.entry {
        let mut text = Vec::new(alloc);
        entry.write_to(&mut text)?;
        put_text(alloc, out, "entry", text.as_slice())?;
    }
    put_place(out, judged.place)?;
    out.end_object()?;
    Ok(())
}

/// Returns the index of the entry that a verdict names, if it names one.
fn index_of(verdict: Verdict) -> Option<usize> {
    match verdict {
        Verdict::Allowed(by) => match by {
            By::Index(index) => Some(index),
            By::All => None,
            By::Grant => None,
        },
        Verdict::DeniedBy(index) => Some(index),
        Verdict::NoAllow => None,
        Verdict::NoQueueAllow(index) => Some(index),
    }
}

/// Appends a line and a column, if they are known.
fn put_place(out: &mut Writer, place: Option<Place>) -> Result<(), NoMemory> {
    match place {
        None => Ok(()),
        Some(place) => {
            put_number(out, "line", place.line as u64)?;
            put_number(out, "column", place.column as u64)
        }
    }
}

/// Appends on what terms requests may be answered: an object with those that bound them, or null.
fn put_answers(out: &mut Writer, name: &str, terms: Option<Terms>) -> Result<(), NoMemory> {
    out.key(name)?;
    match terms {
        None => Ok(out.null()?),
        Some(terms) => {
            out.begin_object()?;
            if let Some(max) = terms.max {
                put_number(out, "max", max)?;
            }
            if let Some(expires) = terms.expires {
                put_number(out, "expires", expires)?;
            }
            Ok(out.end_object()?)
        }
    }
}

/// Appends a message that crosses under one policy alone.
fn put_exchange(
    alloc: Global,
    out: &mut Writer,
    change: &ExchangeChange<'_>,
) -> Result<(), NoMemory> {
    put_head(out, gain_word(change.is_gain), import_word(change.kind))?;
    put_text(alloc, out, "from", change.from)?;
    put_text(alloc, out, "from_subject", change.from_subject.as_slice())?;
    put_text(alloc, out, "to", change.to)?;
    put_text(alloc, out, "to_subject", change.to_subject.as_slice())?;
    let (with, without) = if change.is_gain {
        ("new", "old")
    } else {
        ("old", "new")
    };
    out.key(with)?;
    out.begin_object()?;
    put_number(out, "import", change.import as u64)?;
    put_place(out, change.place)?;
    out.end_object()?;
    out.key(without)?;
    Ok(out.null()?)
}

/// Appends what a service's requests meet.
fn put_terms(
    alloc: Global,
    out: &mut Writer,
    name: &str,
    terms: ServiceTerms<'_>,
) -> Result<(), NoMemory> {
    out.key(name)?;
    out.begin_object()?;
    match terms {
        ServiceTerms::Response(terms) => {
            put_word(out, "response_type", response_word(terms.single))?;
            put_number(out, "response_ttl", terms.ttl)?;
        }
        ServiceTerms::Template(None) => {}
        ServiceTerms::Template(Some(text)) => put_text(alloc, out, "to", text)?,
    }
    Ok(out.end_object()?)
}

/// Appends shares.
fn put_shares(
    alloc: Global,
    out: &mut Writer,
    name: &str,
    shares: &[Share],
) -> Result<(), NoMemory> {
    out.key(name)?;
    out.begin_array()?;
    for share in shares {
        out.begin_object()?;
        put_number(out, "weight", share.weight)?;
        match &share.to {
            ShareTo::Subject(subject) => put_text(alloc, out, "subject", subject.as_slice())?,
            ShareTo::Dropped => put_word(out, "lost", "dropped")?,
            ShareTo::TooLong => put_word(out, "lost", "too long")?,
        }
        out.end_object()?;
    }
    out.end_array()?;
    Ok(())
}
