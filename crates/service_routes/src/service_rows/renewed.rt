//! Which rows another policy has again.
ghost use Rattle.std.specs.Prelude.{◌≡◌, position};
ghost use Rattle.subjects.specs.Equal.{same_subject};
ghost use Rattle.service_routes.specs.service_rows.Rows.{renewed, renewed_for, is_same_service, is_service, same_template};

use crate::service_rows::terms::{import_at, terms_at};
use base::Alike;
use bytes::Bytes;
use policy_doc::exports::{Kind, Row};
use policy_doc::{ImportDoc, PolicyDoc};
use service_exporter::{NewRow, ServiceRows};
use subjects::Pattern;

/// The service rows of a policy, as those of an earlier one are looked up among them. A row is again the least one of the same
/// importer that is of the same exporter and subject, with the same text for `to`.
#[derive(Clone, Copy)]
pub struct RenewedRows<'a> {
    /// The earlier policy.
    pub old: &'a PolicyDoc,
    /// The policy whose rows they are.
    pub new: &'a PolicyDoc,
}

impl<'a> ServiceRows for RenewedRows<'a> {
    ghost renewed = { λ r row. renewed r.old.now r.new.now row };

    fn renewed(&self, row: &Row) -> Option<NewRow> {
        match import_at(self.old, &row.importer, row.index) {
            None => None,
            Some(import) => renewed_for(self.new, &row.importer, import),
        }
    }
}

/// Returns the least row of an importer that is of the same service as an import.
fn renewed_for(doc: &PolicyDoc, importer: &Bytes, import: &ImportDoc) -> Option<NewRow>
    ensures { result ≡ renewed_for doc.now importer.now import.now }
{
    match doc.accounts.get(importer) {
        None => None,
        Some(named) => match same_service(named.account.imports.as_slice(), import) {
            None => None,
            Some(index) => Some(NewRow {
                index,
                terms: terms_at(doc, importer, index),
            }),
        },
    }
}

/// Returns the index of the first of some imports that is of the same service as an import.
fn same_service(imports: &[ImportDoc], import: &ImportDoc) -> Option<usize>
    ensures { result ≡ position (is_same_service import.now) imports.now }
{
    imports
        .iter()
        .position(|other| is_same_service(import, other))
}

/// Returns whether two imports are of the same service: of one exporter and one subject, with the same text for `to`.
fn is_same_service(one: &ImportDoc, other: &ImportDoc) -> bool
    ensures { result ≡ is_same_service one.now other.now }
{
    is_service(one.kind)
        && is_service(other.kind)
        && one.account == other.account
        && is_same_pattern(&one.subject, &other.subject)
        && same_template(&one.to, &other.to)
}

/// Returns whether two patterns are equal.
fn is_same_pattern(one: &Pattern, other: &Pattern) -> bool
    ensures { result ≡ same_subject one.now other.now }
{
    one.is_like(other)
}

/// Returns whether it is a service.
fn is_service(kind: Kind) -> bool
    ensures { result ≡ is_service kind }
{
    match kind {
        Kind::Stream => false,
        Kind::Service => true,
    }
}

/// Returns whether two templates have the same text, or neither is there.
fn same_template(one: &Option<Bytes>, other: &Option<Bytes>) -> bool
    ensures { result ≡ same_template one.now other.now }
{
    match (one, other) {
        (None, None) => true,
        (None, Some(_)) => false,
        (Some(_), None) => false,
        (Some(one), Some(other)) => *one == *other,
    }
}
