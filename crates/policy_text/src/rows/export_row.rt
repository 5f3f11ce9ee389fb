//! The exports of an account.
ghost use Rattle.std.specs.Prelude.{◌≡◌, codes, option_map};
ghost use Rattle.serde_json.specs.Find.{get};
ghost use Rattle.serde_json.specs.View.{view};
ghost use Rattle.policy_walk.specs.Fault.{Gives};
ghost use Rattle.policy_walk.specs.Path.{at_key};
ghost use Rattle.policy_text.specs.rows.Exports.{accounts_under, either_rows, export_at, exports_under, service_at, stream_at};
ghost use Rattle.policy_text.specs.rows.Names.{account_name_at, kindless_at};

use crate::rows::names::{account_name_of, kind_of, kindless_of, pattern_of};
use crate::rows::terms::{response_of, usual_response};
use base::Items;
use bytes::Bytes;
use policy_doc::exports::{ExportDoc, Kind};
use policy_walk::{ConfigFault, Path, Reader, judge, list_of, list_under};
use serde_json::Value;
use std::alloc::Global;

/// Reads an export.
#[derive(Drop)]
struct ExportRow;

impl Reader for ExportRow {
    type Out = ExportDoc;

    ghost reads = { λ _. export_at };

    fn read(&self, alloc: Global, path: &Path, value: &Value) -> Result<ExportDoc, ConfigFault> {
        export_of(alloc, path, value)
    }
}

/// The exports of a list, if it is there. The first fault, as docs/POLICY.md has them in order, where it isn't a list of
/// exports; `NoMemory` where memory could not be had.
pub fn exports_under(
    alloc: Global,
    path: &Path,
    found: Option<&Value>,
) -> Result<Items<ExportDoc>, ConfigFault>
    ensures { Gives (λ x. x) result (exports_under path.now (option_map (λ v. view v.now) found.entry)) }
{
    Ok(list_under(alloc, &ExportRow, path, found)?)
}

/// An export of either kind.
fn export_of(alloc: Global, path: &Path, value: &Value) -> Result<ExportDoc, ConfigFault>
    ensures { Gives (λ x. x) result (export_at path.now (view value.now)) }
{
    match kind_of(value) {
        Some(Kind::Stream) => Ok(stream_of(alloc, path, value)?),
        Some(Kind::Service) => Ok(service_of(alloc, path, value)?),
        None => Ok(neither_of(alloc, path, value)?),
    }
}

/// An export of a stream.
#[tactic(auto, unfolding(crate::specs::rows::Exports::stream_at))]
fn stream_of(alloc: Global, path: &Path, value: &Value) -> Result<ExportDoc, ConfigFault>
    ensures { Gives (λ x. x) result (stream_at path.now (view value.now)) }
{
    judge(alloc, &[("stream", true), ("accounts", false)], path, value)?;
    let subject = pattern_of(alloc, "stream", path, value)?;
    let accounts = accounts_of(alloc, path, value)?;
    Ok(ExportDoc {
        kind: Kind::Stream,
        subject,
        accounts,
        response: usual_response(),
    })
}

/// An export of a service.
#[tactic(auto, unfolding(crate::specs::rows::Exports::service_at))]
fn service_of(alloc: Global, path: &Path, value: &Value) -> Result<ExportDoc, ConfigFault>
    ensures { Gives (λ x. x) result (service_at path.now (view value.now)) }
{
    let rows = [
        ("service", true),
        ("accounts", false),
        ("response_type", false),
        ("response_ttl", false),
    ];
    judge(alloc, &rows, path, value)?;
    let subject = pattern_of(alloc, "service", path, value)?;
    let accounts = accounts_of(alloc, path, value)?;
    let response = response_of(alloc, path, value)?;
    Ok(ExportDoc {
        kind: Kind::Service,
        subject,
        accounts,
        response,
    })
}

/// The fault of a row of neither kind.
fn neither_of(alloc: Global, path: &Path, value: &Value) -> Result<ExportDoc, ConfigFault>
    ensures { Gives (λ x. x) result (kindless_at either_rows path.now (view value.now)) }
{
    let rows = [
        ("stream", false),
        ("service", false),
        ("accounts", false),
        ("response_type", false),
        ("response_ttl", false),
    ];
    kindless_of(alloc, &rows, path, value)
}

/// Reads an account's name.
#[derive(Drop)]
struct AccountName;

impl Reader for AccountName {
    type Out = Bytes;

    ghost reads = { λ _. account_name_at };

    fn read(&self, alloc: Global, path: &Path, value: &Value) -> Result<Bytes, ConfigFault> {
        account_name_of(alloc, path, value)
    }
}

/// The accounts that may import, if there is a list of them.
fn accounts_of(
    alloc: Global,
    path: &Path,
    value: &Value,
) -> Result<Option<Items<Bytes>>, ConfigFault>
    ensures { Gives (λ x. x) result (accounts_under (at_key path.now (codes "accounts")) (get (codes "accounts") (view value.now))) }
{
    let below = path.key(alloc, "accounts")?;
    match value.get("accounts") {
        None => Ok(None),
        Some(names) => Ok(Some(list_of(alloc, &AccountName, &below, names)?)),
    }
}
