//! The imports of an account.
ghost use Rattle.std.specs.Prelude.{◌≡◌, option_map};
ghost use Rattle.serde_json.specs.View.{view};
ghost use Rattle.policy_walk.specs.Fault.{Gives};
ghost use Rattle.policy_text.specs.rows.Imports.{account_at, either_rows, import_at, imports_under, prefix_under, service_at, source_at, source_in, stream_at, subject_from, to_under};
ghost use Rattle.policy_text.specs.rows.Names.{kindless_at};

use crate::rows::names::{account_name_from, kind_of, kindless_of, pattern_of};
use base::Items;
use bytes::Bytes;
use policy_doc::ImportDoc;
use policy_doc::exports::Kind;
use policy_walk::{
    ConfigFault, Path, Reader, judge, list_under, required_of, required_text_of, text_of,
};
use serde_json::Value;
use std::alloc::Global;
use subjects::texts::subject_if;
use subjects::{Pattern, Subject};

/// What an import is of: subjects of an account.
#[derive(Drop)]
struct Source {
    account: Bytes,
    subject: Pattern,
}

/// Reads an import.
#[derive(Drop)]
struct ImportRow;

impl Reader for ImportRow {
    type Out = ImportDoc;

    ghost reads = { λ _. import_at };

    fn read(&self, alloc: Global, path: &Path, value: &Value) -> Result<ImportDoc, ConfigFault> {
        import_of(alloc, path, value)
    }
}

/// The imports of a list, if it is there. The first fault, as docs/POLICY.md has them in order, where it isn't a list of
/// imports; `NoMemory` where memory could not be had.
pub fn imports_under(
    alloc: Global,
    path: &Path,
    found: Option<&Value>,
) -> Result<Items<ImportDoc>, ConfigFault>
    ensures { Gives (λ x. x) result (imports_under path.now (option_map (λ v. view v.now) found.entry)) }
{
    Ok(list_under(alloc, &ImportRow, path, found)?)
}

/// An import of either kind.
fn import_of(alloc: Global, path: &Path, value: &Value) -> Result<ImportDoc, ConfigFault>
    ensures { Gives (λ x. x) result (import_at path.now (view value.now)) }
{
    match kind_of(value) {
        Some(Kind::Stream) => Ok(stream_of(alloc, path, value)?),
        Some(Kind::Service) => Ok(service_of(alloc, path, value)?),
        None => Ok(neither_of(alloc, path, value)?),
    }
}

/// An import of a stream.
#[tactic(auto, unfolding(crate::specs::rows::Imports::stream_at))]
fn stream_of(alloc: Global, path: &Path, value: &Value) -> Result<ImportDoc, ConfigFault>
    ensures { Gives (λ x. x) result (stream_at path.now (view value.now)) }
{
    let rows = [("stream", true), ("to", false), ("prefix", false)];
    judge(alloc, &rows, path, value)?;
    let source = source_in(alloc, "stream", path, value)?;
    let below = path.key(alloc, "to")?;
    let to = to_under(alloc, &below, value.get("to"))?;
    let below = path.key(alloc, "prefix")?;
    let prefix = prefix_under(alloc, &below, value.get("prefix"))?;
    Ok(ImportDoc {
        kind: Kind::Stream,
        account: source.account,
        subject: source.subject,
        to,
        prefix,
    })
}

/// An import of a service.
#[tactic(auto, unfolding(crate::specs::rows::Imports::service_at))]
fn service_of(alloc: Global, path: &Path, value: &Value) -> Result<ImportDoc, ConfigFault>
    ensures { Gives (λ x. x) result (service_at path.now (view value.now)) }
{
    judge(alloc, &[("service", true), ("to", false)], path, value)?;
    let source = source_in(alloc, "service", path, value)?;
    let below = path.key(alloc, "to")?;
    let to = to_under(alloc, &below, value.get("to"))?;
    Ok(ImportDoc {
        kind: Kind::Service,
        account: source.account,
        subject: source.subject,
        to,
        prefix: None,
    })
}

/// The fault of a row of neither kind.
fn neither_of(alloc: Global, path: &Path, value: &Value) -> Result<ImportDoc, ConfigFault>
    ensures { Gives (λ x. x) result (kindless_at either_rows path.now (view value.now)) }
{
    let rows = [
        ("stream", false),
        ("service", false),
        ("to", false),
        ("prefix", false),
    ];
    kindless_of(alloc, &rows, path, value)
}

/// What stands under the key of a row's kind.
#[tactic(auto, unfolding(crate::specs::rows::Imports::source_in))]
fn source_in(alloc: Global, key: &str, path: &Path, value: &Value) -> Result<Source, ConfigFault>
    ensures { Gives (λ x. x) result (source_in key.now path.now (view value.now)) }
{
    let found = required_of(alloc, key, path, value)?;
    let below = path.key(alloc, key)?;
    Ok(source_of(alloc, &below, found)?)
}

/// An account and the pattern of its subjects.
#[tactic(auto, unfolding(crate::specs::rows::Imports::source_at))]
fn source_of(alloc: Global, path: &Path, value: &Value) -> Result<Source, ConfigFault>
    ensures { Gives (λ x. x) result (source_at path.now (view value.now)) }
{
    judge(alloc, &[("account", true), ("subject", true)], path, value)?;
    let account = account_of(alloc, path, value)?;
    let subject = pattern_of(alloc, "subject", path, value)?;
    Ok(Source { account, subject })
}

/// The name under `account`.
#[tactic(auto, unfolding(crate::specs::rows::Imports::account_at))]
fn account_of(alloc: Global, path: &Path, value: &Value) -> Result<Bytes, ConfigFault>
    ensures { Gives (λ x. x) result (account_at path.now (view value.now)) }
{
    let name = required_text_of(alloc, "account", path, value)?;
    let below = path.key(alloc, "account")?;
    Ok(account_name_from(alloc, &below, name.as_bytes())?)
}

/// A template's text, if it is there. It isn't judged here.
fn to_under(alloc: Global, path: &Path, found: Option<&Value>) -> Result<Option<Bytes>, ConfigFault>
    ensures { Gives (λ x. x) result (to_under path.now (option_map (λ v. view v.now) found.entry)) }
{
    match found {
        None => Ok(None),
        Some(value) => {
            let text = text_of(alloc, path, value)?;
            Ok(Some(Bytes::copy_from_slice(alloc, text.as_bytes())?))
        }
    }
}

/// A prefix, if it is there.
fn prefix_under(
    alloc: Global,
    path: &Path,
    found: Option<&Value>,
) -> Result<Option<Subject>, ConfigFault>
    ensures { Gives (λ x. x) result (prefix_under path.now (option_map (λ v. view v.now) found.entry)) }
{
    match found {
        None => Ok(None),
        Some(value) => {
            let text = text_of(alloc, path, value)?;
            Ok(Some(subject_from(alloc, path, text.as_bytes())?))
        }
    }
}

/// The subject of a text. `BadSubject` where it is none.
fn subject_from(alloc: Global, path: &Path, text: &[u8]) -> Result<Subject, ConfigFault>
    ensures { Gives (λ x. x) result (subject_from path.now text.now) }
{
    match subject_if(alloc, text)? {
        Some(subject) => Ok(subject),
        None => Err(ConfigFault::BadSubject(path.copy(alloc)?)),
    }
}
