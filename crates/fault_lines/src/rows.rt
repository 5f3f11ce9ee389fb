//! What an operator is told of the faults of a document as a policy.
use crate::lines::{MOST_FAULTS, place_under, push_rest, quoted};
use crate::nearest::nearest_to;
use base::NoMemory;
use bytes::Bytes;
use policy_doc::exports::ExportDoc;
use policy_doc::{ImportDoc, Kind, NamedAccount, Place, PolicyDoc, PolicyFault};
use policy_notes::positions::Spot;
use policy_walk::Path;
use std::alloc::Global;
use std::str;

/// Returns the lines on these faults of the document of a text.
pub(crate) fn row_lines(
    alloc: Global,
    text: &str,
    spots: &[Spot],
    doc: &PolicyDoc,
    faults: &[PolicyFault],
) -> Result<Vec<String>, NoMemory> {
    let mut lines = Vec::new(alloc);
    for fault in faults.iter().take(MOST_FAULTS) {
        if let Some(place) = fault.place() {
            if let Some(line) = row_line(alloc, text, spots, doc, *fault, place)? {
                lines.push(line)?;
            }
        }
    }
    push_rest(alloc, faults.len(), &mut lines)?;
    Ok(lines)
}

/// Returns the line on a fault in this place.
fn row_line(
    alloc: Global,
    text: &str,
    spots: &[Spot],
    doc: &PolicyDoc,
    fault: PolicyFault,
    place: Place,
) -> Result<Option<String>, NoMemory> {
    let Some(named) = doc.accounts.as_slice().get(place.account) else {
        return Ok(None);
    };
    let account = text_of(&named.name);
    let at = place_under(text, spots, &path_of(alloc, account, fault, place.row)?);
    let what = what_of(alloc, doc, named, fault, place.row)?;
    let (name, row) = (fault.name(), place.row);
    Ok(Some(format!(in alloc; "policy {name} {account} {row} at {at}: {what}")?))
}

/// Returns a name as a text. Each name of a policy's text is one.
fn text_of(name: &Bytes) -> &str {
    match str::from_utf8(name.as_slice()) {
        Ok(text) => text,
        Err(_) => "",
    }
}

/// Returns the path of the row of an account that has a fault: of a user its name's, or of an import.
fn path_of(alloc: Global, account: &str, fault: PolicyFault, row: usize) -> Result<Path, NoMemory> {
    let rows = Path::whole(alloc)
        .key(alloc, "accounts")?
        .key(alloc, account)?;
    if let PolicyFault::DuplicateUser(_) = fault {
        let user = rows.key(alloc, "users")?.index(alloc, row)?;
        return Ok(user.key(alloc, "user")?);
    }
    Ok(rows.key(alloc, "imports")?.index(alloc, row)?)
}

/// Returns what is wrong with a row of an account, in words.
fn what_of(
    alloc: Global,
    doc: &PolicyDoc,
    named: &NamedAccount,
    fault: PolicyFault,
    row: usize,
) -> Result<String, NoMemory> {
    let words = match fault {
        PolicyFault::DuplicateUser(_) => "an earlier user has this name",
        PolicyFault::SelfImport(_) => "expected another account, found the importer",
        PolicyFault::PrefixAndTo(_) => "expected one of prefix and to, found both",
        PolicyFault::BadMapping(_) =>
            "expected a template with each wildcard of the subject once, and at most 512 tokens",
        PolicyFault::UnknownAccount(_)
        | PolicyFault::ImportNotExported(_)
        | PolicyFault::NoMemory => {
            return import_words(alloc, doc, named, row);
        }
    };
    Ok(String::from_str(alloc, words)?)
}

/// Returns why an account's import finds no export.
fn import_words(
    alloc: Global,
    doc: &PolicyDoc,
    named: &NamedAccount,
    row: usize,
) -> Result<String, NoMemory> {
    match named.account.imports.as_slice().get(row) {
        None => Ok(String::new(alloc)),
        Some(import) => match doc.accounts.get(&import.account) {
            None => unknown_account(alloc, doc, text_of(&import.account)),
            Some(exporter) => not_exported(alloc, named, import, exporter),
        },
    }
}

/// Returns that there is no account of a name, and the nearest that there is.
fn unknown_account(alloc: Global, doc: &PolicyDoc, name: &str) -> Result<String, NoMemory> {
    let mut names = Vec::new(alloc);
    for named in doc.accounts.as_slice() {
        names.push(text_of(&named.name))?;
    }
    let shown = quoted(alloc, name)?;
    match nearest_to(alloc, name, names.as_slice())? {
        None => Ok(format!(in alloc; "there is no account {shown}")?),
        Some(near) => {
            let near = quoted(alloc, near)?;
            Ok(format!(in alloc; "there is no account {shown}: is {near} meant?")?)
        }
    }
}

/// Returns why no export of an account lets an import in: each that has its subjects is for others, or none has them.
fn not_exported(
    alloc: Global,
    importer: &NamedAccount,
    import: &ImportDoc,
    exporter: &NamedAccount,
) -> Result<String, NoMemory> {
    let exports = exporter.account.exports.as_slice();
    let from = text_of(&exporter.name);
    match exports
        .iter()
        .position(|export| has_subjects(export, import))
    {
        None => {
            let kind = kind_word(import.kind);
            let subject = text_in(import.subject.bytes());
            let shown = quoted(alloc, subject)?;
            Ok(format!(in alloc; "no {kind} that {from} exports covers {shown}")?)
        }
        Some(index) => {
            let to = text_of(&importer.name);
            let meant = meant_by(alloc, exports.get(index), to)?;
            Ok(format!(in alloc; "export {index} of {from} isn't for {to}{meant}")?)
        }
    }
}

fn text_in(bytes: &[u8]) -> &str {
    match str::from_utf8(bytes) {
        Ok(text) => text,
        Err(_) => "",
    }
}

/// Whether an export is of an import's kind and has its subjects.
fn has_subjects(export: &ExportDoc, import: &ImportDoc) -> bool {
    export.kind == import.kind && export.subject.covers(&import.subject)
}

fn kind_word(kind: Kind) -> &'static str {
    match kind {
        Kind::Stream => "stream",
        Kind::Service => "service",
    }
}

/// Returns which name of an export's list may be meant for the importer, if one is near.
fn meant_by(alloc: Global, export: Option<&ExportDoc>, importer: &str) -> Result<String, NoMemory> {
    let names = names_in(alloc, export)?;
    match nearest_to(alloc, importer, names.as_slice())? {
        None => Ok(String::new(alloc)),
        Some(near) => {
            let near = quoted(alloc, near)?;
            let meant = quoted(alloc, importer)?;
            Ok(format!(in alloc; ": it has {near} in its accounts, is {meant} meant?")?)
        }
    }
}

/// Returns the names of those who may import by an export, if it has a list of them.
fn names_in<'e>(alloc: Global, export: Option<&'e ExportDoc>) -> Result<Vec<&'e str>, NoMemory> {
    let mut names = Vec::new(alloc);
    if let Some(export) = export {
        if let Some(accounts) = &export.accounts {
            for name in accounts.as_slice() {
                names.push(text_of(name))?;
            }
        }
    }
    Ok(names)
}
