//! The import rows of a policy, with their mappings made.
use crate::PolicyFile;
use base::NoMemory;
use mapping::Mapping;
use policy_doc::exports::{Kind, may_import};
use policy_doc::{ImportDoc, NamedAccount, ResponseTerms};
use std::alloc::Global;

/// An import of an account.
#[derive(Drop)]
pub(crate) struct ImportRow<'a> {
    pub importer: &'a NamedAccount,
    pub index: usize,
    pub import: &'a ImportDoc,
    pub mapping: Mapping,
}

/// Returns the imports of a policy, by the importers' names and then in their order. `NoMemory` where memory could
/// not be had.
pub(crate) fn rows_of<'a>(
    alloc: Global,
    file: &'a PolicyFile,
) -> Result<Vec<ImportRow<'a>>, NoMemory> {
    let mut rows = Vec::new(alloc);
    for named in file.doc().accounts.as_slice() {
        add_rows(alloc, &mut rows, named)?;
    }
    Ok(rows)
}

/// Appends the imports of an account.
fn add_rows<'a>(
    alloc: Global,
    rows: &mut Vec<ImportRow<'a>>,
    importer: &'a NamedAccount,
) -> Result<(), NoMemory> {
    for (index, import) in importer.account.imports.as_slice().iter().enumerate() {
        let mapping = mapping_of(alloc, import)?;
        rows.push(ImportRow {
            importer,
            index,
            import,
            mapping,
        })?;
    }
    Ok(())
}

/// Returns the mapping of an import. In a valid policy each has one.
fn mapping_of(alloc: Global, import: &ImportDoc) -> Result<Mapping, NoMemory> {
    match import.mapping(alloc) {
        Ok(mapping) => Ok(mapping),
        Err(_) => Err(NoMemory),
    }
}

/// Returns the import at an index of an account of a policy, if there is one.
pub(crate) fn import_at<'a>(
    file: &'a PolicyFile,
    importer: &NamedAccount,
    index: usize,
) -> Option<&'a ImportDoc> {
    let named = file.doc().accounts.get(&importer.name)?;
    named.account.imports.as_slice().get(index)
}

/// Returns on what terms the requests of an account's import are answered. In a valid policy an export says so.
pub(crate) fn terms_of(
    file: &PolicyFile,
    importer: &NamedAccount,
    import: &ImportDoc,
) -> Option<ResponseTerms> {
    let exporter = file.doc().accounts.get(&import.account)?;
    let exports = exporter.account.exports.as_slice();
    let place = may_import(exports, &importer.name, Kind::Service, &import.subject)?;
    Some(exports.get(place)?.response)
}
