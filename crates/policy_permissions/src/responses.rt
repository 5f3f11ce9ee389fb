//! The terms on which a user may respond.
ghost use Rattle.std.specs.Prelude.{◌≡◌, option_map};
ghost use Rattle.serde_json.specs.View.{view};
ghost use Rattle.policy_walk.specs.Fault.{Gives};
ghost use Rattle.policy_permissions.specs.Permissions.{allow_responses_at, duration_at, duration_from, expires_under, is_bound, max_at, max_under, responses_at, responses_under, terms_at};

use policy_doc::permission_doc::Terms;
use policy_walk::{ConfigFault, Path, judge, read_duration, text_of};
use serde_json::Value;
use std::alloc::Global;

/// The most responses that a bound may name.
const MOST_ANSWERS: u64 = 2_147_483_647;

/// What is under `allow_responses`, if it is there.
#[tactic(auto, unfolding(crate::specs::Permissions::allow_responses_at))]
pub(crate) fn allow_responses_of(
    alloc: Global,
    path: &Path,
    value: &Value,
) -> Result<Option<Terms>, ConfigFault>
    ensures { Gives (λ x. x) result (allow_responses_at path.now (view value.now)) }
{
    let below = path.key(alloc, "allow_responses")?;
    Ok(responses_under(alloc, &below, value.get("allow_responses"))?)
}

/// The terms on which a user may respond, if they are there.
fn responses_under(
    alloc: Global,
    path: &Path,
    found: Option<&Value>,
) -> Result<Option<Terms>, ConfigFault>
    ensures { Gives (λ x. x) result (responses_under path.now (option_map (λ v. view v.now) found.entry)) }
{
    match found {
        None => Ok(None),
        Some(value) => Ok(responses_of(alloc, path, value)?),
    }
}

/// The terms of true, which is one response at any time, of false, which is none, or of an object.
fn responses_of(alloc: Global, path: &Path, value: &Value) -> Result<Option<Terms>, ConfigFault>
    ensures { Gives (λ x. x) result (responses_at path.now (view value.now)) }
{
    match value.as_bool() {
        Some(true) => Ok(Some(Terms {
            max: Some(1),
            expires: None,
        })),
        Some(false) => Ok(None),
        None => Ok(Some(terms_of(alloc, path, value)?)),
    }
}

/// The terms of an object: a bound and a limit, each if it is there.
#[tactic(auto, unfolding(crate::specs::Permissions::terms_at))]
fn terms_of(alloc: Global, path: &Path, value: &Value) -> Result<Terms, ConfigFault>
    ensures { Gives (λ x. x) result (terms_at path.now (view value.now)) }
{
    judge(alloc, &[("max", false), ("expires", false)], path, value)?;
    let below = path.key(alloc, "max")?;
    let max = max_under(alloc, &below, value.get("max"))?;
    let below = path.key(alloc, "expires")?;
    let expires = expires_under(alloc, &below, value.get("expires"))?;
    Ok(Terms { max, expires })
}

/// The bound on responses; without it one may pass.
fn max_under(alloc: Global, path: &Path, found: Option<&Value>) -> Result<Option<u64>, ConfigFault>
    ensures { Gives (λ x. x) result (max_under path.now (option_map (λ v. view v.now) found.entry)) }
{
    match found {
        None => Ok(Some(1)),
        Some(value) => Ok(max_of(alloc, path, value)?),
    }
}

/// The bound of a whole number: -1 is none. `BadMax` where it is another than this and those from 1 to 2,147,483,647.
fn max_of(alloc: Global, path: &Path, value: &Value) -> Result<Option<u64>, ConfigFault>
    ensures { Gives (λ x. x) result (max_at path.now (view value.now)) }
{
    match value.as_u64() {
        Some(max) => {
            if is_bound(max) {
                Ok(Some(max))
            } else {
                Err(ConfigFault::BadMax(path.copy(alloc)?))
            }
        }
        None => match value.as_i64() {
            None => Err(ConfigFault::WrongType(path.copy(alloc)?)),
            Some(max) => {
                if max == -1 {
                    Ok(None)
                } else {
                    Err(ConfigFault::BadMax(path.copy(alloc)?))
                }
            }
        },
    }
}

/// Whether so many responses may be a bound.
pub fn is_bound(max: u64) -> bool
    ensures { result ≡ is_bound max }
{
    1 <= max && max <= MOST_ANSWERS
}

/// The limit of a duration, if it is there.
fn expires_under(
    alloc: Global,
    path: &Path,
    found: Option<&Value>,
) -> Result<Option<u64>, ConfigFault>
    ensures { Gives (λ x. x) result (expires_under path.now (option_map (λ v. view v.now) found.entry)) }
{
    match found {
        None => Ok(None),
        Some(value) => Ok(Some(duration_of(alloc, path, value)?)),
    }
}

/// The milliseconds of a duration. `WrongType` where the value is no text, `BadDuration` where the text is no duration,
/// `NoMemory` where memory could not be had.
#[tactic(auto, unfolding(crate::specs::Permissions::duration_at))]
pub fn duration_of(alloc: Global, path: &Path, value: &Value) -> Result<u64, ConfigFault>
    ensures { Gives (λ x. x) result (duration_at path.now (view value.now)) }
{
    let text = text_of(alloc, path, value)?;
    Ok(duration_from(alloc, path, text.as_bytes())?)
}

/// The milliseconds of a duration's text. `BadDuration` where it is none.
fn duration_from(alloc: Global, path: &Path, text: &[u8]) -> Result<u64, ConfigFault>
    ensures { Gives (λ x. x) result (duration_from path.now text.now) }
{
    match read_duration(text) {
        Some(duration) => Ok(duration),
        None => Err(ConfigFault::BadDuration(path.copy(alloc)?)),
    }
}
