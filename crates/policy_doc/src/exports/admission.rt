//! Which export lets an import row in.
ghost use Rattle.std.specs.Prelude.{◌≡◌, position};
ghost use Rattle.std.specs.Bool.{Decides};
ghost use Rattle.policy_doc.specs.exports.Exports.{admits, is_listed, is_open_to, same_kind, Admits};
ghost use Rattle.policy_doc.specs.declared.exports.document.ExportDoc.{ExportDoc};

use crate::exports::{ExportDoc, Kind};
use base::Items;
use bytes::Bytes;
use subjects::Pattern;

/// The least export that is of the kind, that the importer may take, and that has every subject of the pattern;
/// `None` where there is none. A subject that an export has and the pattern hasn't is no matter; one that the pattern
/// has and the export hasn't keeps the import out. It takes no memory.
pub fn may_import(
    exports: &[ExportDoc],
    importer: &Bytes,
    kind: Kind,
    subject: &Pattern,
) -> Option<usize>
    ensures least { result ≡ position (admits importer.now kind subject.now) exports.now }
    ensures meaning { (e : ExportDoc) → Decides (admits importer.now kind subject.now e) (Admits importer.now kind subject.now e) }
{
    // The tokens tell the prover that the subject is a pattern.
    let _ = subject.tokens();
    let least = least_export(exports, importer, kind, subject);
    least
}

fn least_export(
    exports: &[ExportDoc],
    importer: &Bytes,
    kind: Kind,
    subject: &Pattern,
) -> Option<usize>
    ensures { result ≡ position (admits importer.now kind subject.now) exports.now }
{
    exports
        .iter()
        .position(|export| admits(export, importer, kind, subject))
}

/// Whether an export lets an import in.
fn admits(export: &ExportDoc, importer: &Bytes, kind: Kind, subject: &Pattern) -> bool
    ensures { result ≡ admits importer.now kind subject.now export.now }
{
    is_same_kind(export.kind, kind)
        && is_open_to(export, importer)
        && export.subject.covers(subject)
}

fn is_same_kind(one: Kind, other: Kind) -> bool
    ensures { result ≡ same_kind one other }
{
    match (one, other) {
        (Kind::Stream, Kind::Stream) => true,
        (Kind::Stream, Kind::Service) => false,
        (Kind::Service, Kind::Stream) => false,
        (Kind::Service, Kind::Service) => true,
    }
}

/// Whether an account may take an export: it is public, or names the account.
fn is_open_to(export: &ExportDoc, importer: &Bytes) -> bool
    ensures { result ≡ is_open_to importer.now export.now }
{
    match &export.accounts {
        None => true,
        Some(names) => is_listed(names.as_slice(), importer),
    }
}

/// Whether a name is among these.
fn is_listed(names: &[Bytes], importer: &Bytes) -> bool
    ensures { result ≡ is_listed importer.now names.now }
{
    names.iter().any(|name| *importer == *name)
}
