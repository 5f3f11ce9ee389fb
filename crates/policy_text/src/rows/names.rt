//! What exports and imports have alike: names, patterns under a key, and the kind of a row.
ghost use Rattle.std.specs.Prelude.{◌≡◌, ◌&&◌, is_some, map};
ghost use Rattle.std.specs.List.{list_all};
ghost use Rattle.serde_json.specs.View.{view};
ghost use Rattle.policy_walk.specs.Fault.{Gives};
ghost use Rattle.policy_walk.specs.Object.{row_of};
ghost use Rattle.policy_text.specs.rows.Names.{account_name_at, account_name_from, has_name_length, is_account_byte, is_account_name, kind_by, kind_of, kindless_at, pattern_at};

use bytes::Bytes;
use policy_doc::exports::Kind;
use policy_permissions::pattern_from;
use policy_walk::{ConfigFault, Path, judge, required_text_of, text_of};
use serde_json::Value;
use std::alloc::Global;
use subjects::Pattern;

/// An account's name of a value that has to be a text.
#[tactic(auto, unfolding(crate::specs::rows::Names::account_name_at))]
pub(crate) fn account_name_of(
    alloc: Global,
    path: &Path,
    value: &Value,
) -> Result<Bytes, ConfigFault>
    ensures { Gives (λ x. x) result (account_name_at path.now (view value.now)) }
{
    let text = text_of(alloc, path, value)?;
    Ok(account_name_from(alloc, path, text.as_bytes())?)
}

/// An account's name. `BadName` where it hasn't 1 to 256 bytes, or has a control byte, a space or DEL.
pub fn account_name_from(alloc: Global, path: &Path, name: &[u8]) -> Result<Bytes, ConfigFault>
    ensures { Gives (λ x. x) result (account_name_from path.now name.now) }
{
    if is_account_name(name) {
        Ok(Bytes::copy_from_slice(alloc, name)?)
    } else {
        Err(ConfigFault::BadName(path.copy(alloc)?))
    }
}

/// Whether a text is an account's name: it has 1 to 256 bytes, and none is a control byte, a space or DEL.
pub fn is_account_name(name: &[u8]) -> bool
    ensures { result ≡ is_account_name name.now }
{
    has_name_length(name) && has_account_bytes(name)
}

/// Whether a name of an account or a user has 1 to 256 bytes.
pub fn has_name_length(name: &[u8]) -> bool
    ensures { result ≡ has_name_length name.now }
{
    !name.is_empty() && name.len() <= 256
}

/// Whether each byte may stand in an account's name.
fn has_account_bytes(name: &[u8]) -> bool
    ensures { result ≡ list_all is_account_byte name.now }
{
    name.iter().all(|b| !(*b < 0x21) && !(*b == 0x7f))
}

/// The pattern under a key that has to be there.
#[tactic(auto, unfolding(crate::specs::rows::Names::pattern_at))]
pub(crate) fn pattern_of(
    alloc: Global,
    key: &str,
    path: &Path,
    value: &Value,
) -> Result<Pattern, ConfigFault>
    ensures { Gives (λ x. x) result (pattern_at key.now path.now (view value.now)) }
{
    let text = required_text_of(alloc, key, path, value)?;
    let below = path.key(alloc, key)?;
    Ok(pattern_from(alloc, &below, text.as_bytes())?)
}

/// The kind of a row, by the one of two keys that is there.
pub fn kind_of(value: &Value) -> Option<Kind>
    ensures { result ≡ kind_of (view value.now) }
{
    let has_stream = value.get("stream").is_some();
    let has_service = value.get("service").is_some();
    let kind = kind_by(has_stream, has_service);
    kind
}

/// The kind of a row, by whether it has the key of streams and that of services.
fn kind_by(has_stream: bool, has_service: bool) -> Option<Kind>
    ensures { result ≡ kind_by has_stream has_service }
{
    match (has_stream, has_service) {
        (true, false) => Some(Kind::Stream),
        (false, true) => Some(Kind::Service),
        (true, true) => None,
        (false, false) => None,
    }
}

/// The fault of a row with neither of the keys of the two kinds, or with both: `WrongType`, after an unknown key. The rows
/// are the keys of both kinds.
#[tactic(auto, unfolding(crate::specs::rows::Names::kindless_at))]
pub(crate) fn kindless_of<T>(
    alloc: Global,
    rows: &[(&str, bool)],
    path: &Path,
    value: &Value,
) -> Result<T, ConfigFault>
    ensures { Gives (λ x. x) result (kindless_at (map row_of rows.now) path.now (view value.now)) }
{
    judge(alloc, rows, path, value)?;
    Err(ConfigFault::WrongType(path.copy(alloc)?))
}
