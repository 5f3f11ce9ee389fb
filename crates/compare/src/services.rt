//! On what terms the requests of imports are answered, and whose routes a reload ends.
use crate::exchanges::{Side, carried_at, is_service};
use crate::rows::{ImportRow, import_at, terms_of};
use crate::{Change, PolicyFile, ServiceTerms};
use base::{Alike, NoMemory};
use mapping::templates::count_tokens;
use policy_doc::ImportDoc;
use policy_doc::exports::Kind;
use std::alloc::Global;

/// Appends the services whose terms change, and those that keep their subjects under another template's text.
pub(crate) fn add_services<'a>(
    alloc: Global,
    changes: &mut Vec<Change<'a>>,
    old: Side<'a, '_>,
    new: Side<'a, '_>,
) -> Result<(), NoMemory> {
    for row in new.1 {
        if is_service(row.import.kind) {
            add_service(alloc, changes, old, (new.0, row))?;
        }
    }
    Ok(())
}

/// Appends what changes of a service.
fn add_service<'a>(
    alloc: Global,
    changes: &mut Vec<Change<'a>>,
    old: Side<'a, '_>,
    new: (&'a PolicyFile, &ImportRow<'a>),
) -> Result<(), NoMemory> {
    let row = new.1;
    let told = match same_import(old.0, row) {
        Some(import) => terms_between(old.0, import, new.0, row),
        None => template_between(alloc, old.1, row)?,
    };
    if let Some((was, now)) = told {
        changes.push(Change::Service {
            importer: row.importer.name.as_slice(),
            index: row.index,
            old: was,
            new: now,
        })?;
    }
    Ok(())
}

/// Returns the import of a policy that is this one: at the same index, or else another.
fn same_import<'a>(file: &'a PolicyFile, row: &ImportRow<'_>) -> Option<&'a ImportDoc> {
    let same = import_at(file, row.importer, row.index);
    if let Some(import) = same.filter(|import| import.is_like(row.import)) {
        return Some(import);
    }
    let named = file.doc().accounts.get(&row.importer.name)?;
    let imports = named.account.imports.as_slice();
    imports.iter().find(|import| import.is_like(row.import))
}

/// Returns the terms of a service under both policies, if they differ.
fn terms_between<'a>(
    old: &PolicyFile,
    import: &ImportDoc,
    new: &PolicyFile,
    row: &ImportRow<'_>,
) -> Option<(ServiceTerms<'a>, ServiceTerms<'a>)> {
    let was = terms_of(old, row.importer, import)?;
    let now = terms_of(new, row.importer, row.import)?;
    if was.is_like(&now) {
        return None;
    }
    Some((ServiceTerms::Response(was), ServiceTerms::Response(now)))
}

/// Returns the templates of a service under both policies, if an old import pairs the same subjects by another text.
fn template_between<'a>(
    alloc: Global,
    olds: &[ImportRow<'a>],
    row: &ImportRow<'a>,
) -> Result<Option<(ServiceTerms<'a>, ServiceTerms<'a>)>, NoMemory> {
    for old in olds {
        if pairs_alike(alloc, old, row)? {
            return Ok(Some((
                ServiceTerms::Template(template_of(old)),
                ServiceTerms::Template(template_of(row)),
            )));
        }
    }
    Ok(None)
}

/// Whether two imports of services pair the same subjects of the same accounts.
fn pairs_alike(
    alloc: Global,
    one: &ImportRow<'_>,
    other: &ImportRow<'_>,
) -> Result<bool, NoMemory> {
    let is_near = one.importer.name == other.importer.name
        && one.import.kind.is_like(&other.import.kind)
        && one.import.account == other.import.account
        && one.import.subject.is_like(&other.import.subject)
        && one.mapping.local().is_like(other.mapping.local());
    if !is_near {
        return Ok(false);
    }
    let tokens = count_tokens(&one.import.subject);
    let first = carried_at(alloc, one, tokens, b"x")?;
    let second = carried_at(alloc, other, tokens, b"x")?;
    match (first, second) {
        (Some(first), Some(second)) => Ok(first.is_like(&second)),
        _ => Ok(false),
    }
}

/// Returns the text of an import's template, if it has one.
fn template_of<'a>(row: &ImportRow<'a>) -> Option<&'a [u8]> {
    Some(row.import.to.as_ref()?.as_slice())
}
