//! The exports and imports of an account.
ghost use Rattle.std.specs.Prelude.{◌≡◌, OnOk, map};
ghost use Rattle.serde_json.specs.View.{view};
ghost use Rattle.policy_walk.specs.Object.{row_of};
ghost use Rattle.policy_text.specs.rows.Exports as exports;
ghost use Rattle.policy_text.specs.rows.Imports as imports;
ghost use Rattle.policy_faults.specs.walk.Rows.{with_export, with_import, with_kindless, with_service_export, with_service_import, with_source, with_stream_export, with_stream_import};

use crate::finding::{Finding, Wanted, push_wrong};
use crate::walk::checker::{Checker, check_under, list_of};
use crate::walk::object::check_object;
use crate::walk::texts::TextKind;
use base::NoMemory;
use policy_doc::exports::Kind;
use policy_text::rows::kind_of;
use policy_walk::Path;
use serde_json::Value;
use std::alloc::Global;

/// Checks an export.
#[derive(Clone, Copy, Debug, PartialEq, Eq)]
pub(crate) struct Export;

impl Checker for Export {
    ghost finds = { λ _. with_export };

    fn check(
        &self,
        alloc: Global,
        path: &Path,
        value: &Value,
        found: &mut Vec<Finding>,
    ) -> Result<(), NoMemory> {
        match kind_of(value) {
            Some(Kind::Stream) => Ok(check_stream_export(alloc, path, value, found)?),
            Some(Kind::Service) => Ok(check_service_export(alloc, path, value, found)?),
            None => Ok(check_export_of_no_kind(alloc, path, value, found)?),
        }
    }
}

/// Appends the faults of an export of no kind.
fn check_export_of_no_kind(
    alloc: Global,
    path: &Path,
    value: &Value,
    found: &mut Vec<Finding>,
) -> Result<(), NoMemory>
    ensures { OnOk result (found.new.items ≡ with_kindless exports.either_rows path.now (view value.now) found.old.items) }
{
    let rows = [
        ("stream", false),
        ("service", false),
        ("accounts", false),
        ("response_type", false),
        ("response_ttl", false),
    ];
    check_kindless(alloc, &rows, path, value, found)?;
    Ok(())
}

/// Appends the faults of an export of a stream.
fn check_stream_export(
    alloc: Global,
    path: &Path,
    value: &Value,
    found: &mut Vec<Finding>,
) -> Result<(), NoMemory>
    ensures { OnOk result (found.new.items ≡ with_stream_export path.now (view value.now) found.old.items) }
{
    let rows = [("stream", true), ("accounts", false)];
    check_object(alloc, &rows, Wanted::Object, path, value, found)?;
    check_under(alloc, &TextKind::Pattern, "stream", path, value, found)?;
    check_under(
        alloc,
        &list_of(TextKind::AccountName),
        "accounts",
        path,
        value,
        found,
    )?;
    Ok(())
}

/// Appends the faults of an export of a service.
fn check_service_export(
    alloc: Global,
    path: &Path,
    value: &Value,
    found: &mut Vec<Finding>,
) -> Result<(), NoMemory>
    ensures { OnOk result (found.new.items ≡ with_service_export path.now (view value.now) found.old.items) }
{
    let rows = [
        ("service", true),
        ("accounts", false),
        ("response_type", false),
        ("response_ttl", false),
    ];
    check_object(alloc, &rows, Wanted::Object, path, value, found)?;
    check_under(alloc, &TextKind::Pattern, "service", path, value, found)?;
    check_under(
        alloc,
        &list_of(TextKind::AccountName),
        "accounts",
        path,
        value,
        found,
    )?;
    check_under(
        alloc,
        &TextKind::ResponseType,
        "response_type",
        path,
        value,
        found,
    )?;
    check_under(
        alloc,
        &TextKind::Duration,
        "response_ttl",
        path,
        value,
        found,
    )?;
    Ok(())
}

/// Appends the faults of a row that has neither of the keys of the two kinds, or both: that it is no object, or each
/// key that neither kind has, and that it is of no kind.
fn check_kindless(
    alloc: Global,
    rows: &[(&str, bool)],
    path: &Path,
    value: &Value,
    found: &mut Vec<Finding>,
) -> Result<(), NoMemory>
    ensures { OnOk result (found.new.items ≡ with_kindless (map row_of rows.now) path.now (view value.now) found.old.items) }
{
    check_object(alloc, rows, Wanted::Object, path, value, found)?;
    if !value.is_object() {
        return Ok(());
    }
    push_wrong(alloc, path, Wanted::Kind, found)?;
    Ok(())
}

/// Checks an import.
#[derive(Clone, Copy, Debug, PartialEq, Eq)]
pub(crate) struct Import;

impl Checker for Import {
    ghost finds = { λ _. with_import };

    fn check(
        &self,
        alloc: Global,
        path: &Path,
        value: &Value,
        found: &mut Vec<Finding>,
    ) -> Result<(), NoMemory> {
        match kind_of(value) {
            Some(Kind::Stream) => Ok(check_stream_import(alloc, path, value, found)?),
            Some(Kind::Service) => Ok(check_service_import(alloc, path, value, found)?),
            None => Ok(check_import_of_no_kind(alloc, path, value, found)?),
        }
    }
}

/// Appends the faults of an import of no kind.
fn check_import_of_no_kind(
    alloc: Global,
    path: &Path,
    value: &Value,
    found: &mut Vec<Finding>,
) -> Result<(), NoMemory>
    ensures { OnOk result (found.new.items ≡ with_kindless imports.either_rows path.now (view value.now) found.old.items) }
{
    let rows = [
        ("stream", false),
        ("service", false),
        ("to", false),
        ("prefix", false),
    ];
    check_kindless(alloc, &rows, path, value, found)?;
    Ok(())
}

/// Appends the faults of an import of a stream.
fn check_stream_import(
    alloc: Global,
    path: &Path,
    value: &Value,
    found: &mut Vec<Finding>,
) -> Result<(), NoMemory>
    ensures { OnOk result (found.new.items ≡ with_stream_import path.now (view value.now) found.old.items) }
{
    let rows = [("stream", true), ("to", false), ("prefix", false)];
    check_object(alloc, &rows, Wanted::Object, path, value, found)?;
    check_under(alloc, &Source, "stream", path, value, found)?;
    check_under(alloc, &TextKind::Any, "to", path, value, found)?;
    check_under(alloc, &TextKind::Subject, "prefix", path, value, found)?;
    Ok(())
}

/// Appends the faults of an import of a service.
fn check_service_import(
    alloc: Global,
    path: &Path,
    value: &Value,
    found: &mut Vec<Finding>,
) -> Result<(), NoMemory>
    ensures { OnOk result (found.new.items ≡ with_service_import path.now (view value.now) found.old.items) }
{
    let rows = [("service", true), ("to", false)];
    check_object(alloc, &rows, Wanted::Object, path, value, found)?;
    check_under(alloc, &Source, "service", path, value, found)?;
    check_under(alloc, &TextKind::Any, "to", path, value, found)?;
    Ok(())
}

/// Checks what an import is of: an account and a pattern of its subjects.
#[derive(Clone, Copy, Debug, PartialEq, Eq)]
struct Source;

impl Checker for Source {
    ghost finds = { λ _. with_source };

    fn check(
        &self,
        alloc: Global,
        path: &Path,
        value: &Value,
        found: &mut Vec<Finding>,
    ) -> Result<(), NoMemory> {
        let rows = [("account", true), ("subject", true)];
        check_object(alloc, &rows, Wanted::Object, path, value, found)?;
        check_under(alloc, &TextKind::AccountName, "account", path, value, found)?;
        check_under(alloc, &TextKind::Pattern, "subject", path, value, found)?;
        Ok(())
    }
}
