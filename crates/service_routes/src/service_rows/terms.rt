//! On which terms the requests across a row are answered.
ghost use Rattle.std.specs.Prelude.{◌≡◌};
ghost use Rattle.std.specs.Option.{option_copied};
ghost use Rattle.service_routes.specs.service_rows.Rows.{import_at, no_terms, terms_at, terms_by, terms_for, terms_of};

use bytes::Bytes;
use policy_doc::exports::{ResponseTerms, Row, may_import};
use policy_doc::{ImportDoc, NamedAccount, PolicyDoc};

/// No response comes in time.
const fn no_terms() -> ResponseTerms
    ensures { result ≡ no_terms }
{
    ResponseTerms {
        ttl: 0,
        single: true,
    }
}

/// Returns the import of an account at an index, if it has one.
pub(crate) fn import_at<'d>(
    doc: &'d PolicyDoc,
    importer: &Bytes,
    index: usize,
) -> Option<&'d ImportDoc>
    ensures { option_copied result ≡ import_at doc.now importer.now index }
{
    match doc.accounts.get(importer) {
        None => None,
        Some(named) => named.account.imports.as_slice().get(index),
    }
}

/// Returns the terms of the least export of an account that lets an import in.
fn terms_by(importer: &Bytes, import: &ImportDoc, exporter: &NamedAccount) -> ResponseTerms
    ensures { result ≡ terms_by importer.now import.now exporter.now }
{
    let exports = exporter.account.exports.as_slice();
    match may_import(exports, importer, import.kind, &import.subject) {
        None => no_terms(),
        Some(place) => match exports.get(place) {
            None => no_terms(),
            Some(export) => export.response,
        },
    }
}

/// Returns the terms of the export that lets an import in.
fn terms_for(doc: &PolicyDoc, importer: &Bytes, import: &ImportDoc) -> ResponseTerms
    ensures { result ≡ terms_for doc.now importer.now import.now }
{
    match doc.accounts.get(&import.account) {
        None => no_terms(),
        Some(exporter) => terms_by(importer, import, exporter),
    }
}

/// Returns on which terms the requests across a row are answered: those of its export. In a valid policy each row has one; without
/// one no response comes in time. Accounts are found by halves; the exporter's exports are asked one after the other. It takes no
/// memory.
pub fn terms_of(doc: &PolicyDoc, row: &Row) -> ResponseTerms
    ensures { result ≡ terms_of doc.now row.now }
{
    terms_at(doc, &row.importer, row.index)
}

/// Returns the terms of the row of an account's import at an index.
pub(crate) fn terms_at(doc: &PolicyDoc, importer: &Bytes, index: usize) -> ResponseTerms
    ensures { result ≡ terms_at doc.now importer.now index }
{
    match import_at(doc, importer, index) {
        None => no_terms(),
        Some(import) => terms_for(doc, importer, import),
    }
}
