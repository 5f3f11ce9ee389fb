//! The text of each change.
use crate::words::{coming_word, gain_word, import_word, kind_word, response_word, user_word};
use base::{Items, NoMemory};
use bytes::Bytes;
use compare::{
    AccountChange, Becoming, Change, Changes, ExchangeChange, Judged, ListChange, MappingChange,
    ServiceTerms, Share, ShareTo, UserChange,
};
use explain::write_verdict;
use itoa::Buffer;
use json::Writer;
use policy_doc::permission_doc::{PermEntry, Terms};
use policy_notes::positions::Place;
use std::alloc::Global;

/// Returns a line for each change, each with its LF: what changes, and behind a TAB each what the old policy says and
/// what the new one says, where both say something. Names and tokens stand as they are where they have visible ASCII
/// but quotes and `\` alone, and else as JSON writes them. `NoMemory` where memory could not be had.
pub fn text_of(alloc: Global, changes: &Changes<'_>) -> Result<Vec<u8>, NoMemory> {
    let mut out = Vec::new(alloc);
    for change in changes.accounts.as_slice() {
        write_account(alloc, &mut out, *change)?;
    }
    for change in changes.users.as_slice() {
        write_user(alloc, &mut out, *change)?;
    }
    for change in changes.lists.as_slice() {
        write_list(alloc, &mut out, change)?;
    }
    for change in changes.others.as_slice() {
        write_change(alloc, &mut out, change)?;
        out.push(b'\n')?;
    }
    Ok(out)
}

/// Appends the line of an account.
fn write_account(
    alloc: Global,
    out: &mut Vec<u8>,
    change: AccountChange<'_>,
) -> Result<(), NoMemory> {
    write_words(out, &["account", coming_word(change.is_new)])?;
    write_name(alloc, out, change.name)?;
    out.push(b'\n')?;
    Ok(())
}

/// Appends the line of what becomes of a user.
fn write_user(alloc: Global, out: &mut Vec<u8>, change: UserChange<'_>) -> Result<(), NoMemory> {
    write_words(out, &["user", user_word(change.what)])?;
    match change.what {
        Becoming::MovedTo(new) => write_names(alloc, out, &[change.user, change.account, new])?,
        _ => write_names(alloc, out, &[change.account, change.user])?,
    }
    out.push(b'\n')?;
    Ok(())
}

/// Appends the words of a change.
fn write_change(alloc: Global, out: &mut Vec<u8>, change: &Change<'_>) -> Result<(), NoMemory> {
    match change {
        Change::Answers {
            account,
            user,
            old,
            new,
        } => write_both_answers(alloc, out, (account, user), *old, *new),
        Change::Exchange(change) => write_exchange(alloc, out, change),
        Change::Service {
            importer,
            index,
            old,
            new,
        } => write_service(alloc, out, (importer, *index), *old, *new),
        Change::Mapping { account, change } => write_mapping(alloc, out, account, change),
        Change::Set { accounts, is_new } => {
            write_words(out, &["set", coming_word(*is_new)])?;
            write_accounts(alloc, out, accounts)
        }
    }
}

/// Appends the terms on which a user of an account answered requests, and those on which it may.
fn write_both_answers(
    alloc: Global,
    out: &mut Vec<u8>,
    user: (&[u8], &[u8]),
    old: Option<Terms>,
    new: Option<Terms>,
) -> Result<(), NoMemory> {
    write_words(out, &["changes", "answers"])?;
    write_names(alloc, out, &[user.0, user.1])?;
    write_answers(out, old)?;
    write_answers(out, new)
}

/// Appends what the requests of an import meet: the import by its importer and its index there, and both policies'
/// terms.
fn write_service(
    alloc: Global,
    out: &mut Vec<u8>,
    import: (&[u8], usize),
    old: ServiceTerms<'_>,
    new: ServiceTerms<'_>,
) -> Result<(), NoMemory> {
    write_words(out, &["changes", "service"])?;
    write_names(alloc, out, &[import.0])?;
    write_number(out, b" ", import.1 as u64)?;
    write_terms(alloc, out, old)?;
    write_terms(alloc, out, new)
}

/// Appends where an account's messages on a subject went, and where they go.
fn write_mapping(
    alloc: Global,
    out: &mut Vec<u8>,
    account: &[u8],
    change: &MappingChange,
) -> Result<(), NoMemory> {
    write_words(out, &["changes", "mapping"])?;
    write_name(alloc, out, account)?;
    write_name(alloc, out, change.subject.as_slice())?;
    write_shares(alloc, out, change.old.as_slice())?;
    write_shares(alloc, out, change.new.as_slice())
}

/// Appends the line of what a user gains or loses.
fn write_list(alloc: Global, out: &mut Vec<u8>, change: &ListChange<'_>) -> Result<(), NoMemory> {
    write_words(out, &[gain_word(change.is_gain), kind_word(change.kind)])?;
    write_names(alloc, out, &[change.account, change.user])?;
    write_name(alloc, out, change.asked.subject.as_slice())?;
    if let Some(queue) = &change.asked.queue {
        write_name(alloc, out, queue.bytes())?;
    }
    write_judged(alloc, out, &change.old)?;
    write_judged(alloc, out, &change.new)?;
    out.push(b'\n')?;
    Ok(())
}

/// Appends a TAB and a verdict, with the entry that it names and its place.
fn write_judged(alloc: Global, out: &mut Vec<u8>, judged: &Judged<'_>) -> Result<(), NoMemory> {
    out.push(b'\t')?;
    write_verdict(out, judged.verdict)?;
    if let Some(entry) = judged.entry {
        write_entry(alloc, out, entry)?;
    }
    write_place(out, judged.place)
}

/// Appends an entry behind a space, and its queue part if it has one.
fn write_entry(alloc: Global, out: &mut Vec<u8>, entry: &PermEntry) -> Result<(), NoMemory> {
    write_names(alloc, out, &[entry.subject.bytes()])?;
    match &entry.queue {
        None => Ok(()),
        Some(queue) => write_names(alloc, out, &[queue.bytes()]),
    }
}

/// Appends a space, a line and a column, if they are known.
fn write_place(out: &mut Vec<u8>, place: Option<Place>) -> Result<(), NoMemory> {
    match place {
        None => Ok(()),
        Some(place) => {
            write_number(out, b" ", place.line as u64)?;
            write_number(out, b":", place.column as u64)
        }
    }
}

/// Appends a TAB, and on what terms requests may be answered.
fn write_answers(out: &mut Vec<u8>, terms: Option<Terms>) -> Result<(), NoMemory> {
    match terms {
        None => Ok(out.extend_from_slice(b"\tnone")?),
        Some(terms) => {
            match terms.max {
                None => out.extend_from_slice(b"\tmax any")?,
                Some(max) => write_number(out, b"\tmax ", max)?,
            }
            match terms.expires {
                None => Ok(out.extend_from_slice(b" expires never")?),
                Some(expires) => write_number(out, b" expires ", expires),
            }
        }
    }
}

/// Appends a message that crosses under one policy alone.
fn write_exchange(
    alloc: Global,
    out: &mut Vec<u8>,
    change: &ExchangeChange<'_>,
) -> Result<(), NoMemory> {
    write_words(out, &[gain_word(change.is_gain), import_word(change.kind)])?;
    write_name(alloc, out, change.from)?;
    write_name(alloc, out, change.from_subject.as_slice())?;
    write_name(alloc, out, change.to)?;
    write_name(alloc, out, change.to_subject.as_slice())?;
    if change.is_gain {
        out.extend_from_slice(b"\tnone")?;
    }
    write_number(out, b"\timport ", change.import as u64)?;
    write_place(out, change.place)?;
    if !change.is_gain {
        out.extend_from_slice(b"\tnone")?;
    }
    Ok(())
}

/// Appends a TAB, and what a service's requests meet.
fn write_terms(alloc: Global, out: &mut Vec<u8>, terms: ServiceTerms<'_>) -> Result<(), NoMemory> {
    out.push(b'\t')?;
    match terms {
        ServiceTerms::Response(terms) => {
            out.extend_from_slice(response_word(terms.single).as_bytes())?;
            write_number(out, b" ", terms.ttl)
        }
        ServiceTerms::Template(None) => Ok(out.extend_from_slice(b"no to")?),
        ServiceTerms::Template(Some(text)) => {
            out.extend_from_slice(b"to")?;
            write_names(alloc, out, &[text])
        }
    }
}

/// Appends a TAB and shares, with a comma and a space between them.
fn write_shares(alloc: Global, out: &mut Vec<u8>, shares: &[Share]) -> Result<(), NoMemory> {
    for (place, share) in shares.iter().enumerate() {
        let lead: &[u8] = if place == 0 { b"\t" } else { b", " };
        write_number(out, lead, share.weight)?;
        match &share.to {
            ShareTo::Subject(subject) => write_names(alloc, out, &[subject.as_slice()])?,
            ShareTo::Dropped => out.extend_from_slice(b" dropped")?,
            ShareTo::TooLong => out.extend_from_slice(b" too long")?,
        }
    }
    Ok(())
}

/// Appends the names of accounts, each behind a space.
fn write_accounts(
    alloc: Global,
    out: &mut Vec<u8>,
    accounts: &Items<Bytes>,
) -> Result<(), NoMemory> {
    for account in accounts.as_slice() {
        write_names(alloc, out, &[account.as_slice()])?;
    }
    Ok(())
}

/// Appends words with a space between them.
fn write_words(out: &mut Vec<u8>, words: &[&str]) -> Result<(), NoMemory> {
    for (place, word) in words.iter().enumerate() {
        if place > 0 {
            out.push(b' ')?;
        }
        out.extend_from_slice(word.as_bytes())?;
    }
    Ok(())
}

/// Appends names and tokens, each behind a space.
fn write_names(alloc: Global, out: &mut Vec<u8>, names: &[&[u8]]) -> Result<(), NoMemory> {
    for name in names {
        write_name(alloc, out, name)?;
    }
    Ok(())
}

/// Appends a name or a token behind a space.
fn write_name(alloc: Global, out: &mut Vec<u8>, name: &[u8]) -> Result<(), NoMemory> {
    out.push(b' ')?;
    if is_bare(name) {
        out.extend_from_slice(name)?;
        Ok(())
    } else {
        write_quoted(alloc, out, name)
    }
}

/// Whether a name stands as it is.
fn is_bare(name: &[u8]) -> bool {
    !name.is_empty() && name.iter().all(|byte| is_visible(*byte))
}

/// Whether a byte is visible ASCII, but no quote and no `\`.
fn is_visible(byte: u8) -> bool {
    0x21 <= byte && byte <= 0x7e && byte != b'"' && byte != b'\\'
}

/// Appends a name as JSON writes it. What isn't UTF-8 is replaced by U+FFFD.
fn write_quoted(alloc: Global, out: &mut Vec<u8>, name: &[u8]) -> Result<(), NoMemory> {
    let shown = String::from_utf8_lossy(alloc, name)?;
    let mut quoted = Writer::new(Vec::new(alloc));
    quoted.string(shown.as_str())?;
    out.extend_from_slice(quoted.into_inner().as_slice())?;
    Ok(())
}

/// Appends words and a number.
fn write_number(out: &mut Vec<u8>, words: &[u8], number: u64) -> Result<(), NoMemory> {
    out.extend_from_slice(words)?;
    out.extend_from_slice(Buffer::new().format(number).as_bytes())?;
    Ok(())
}
