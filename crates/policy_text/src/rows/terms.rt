//! The terms on which a service is answered.
ghost use Rattle.std.specs.Prelude.{◌≡◌, option_map};
ghost use Rattle.serde_json.specs.View.{view};
ghost use Rattle.policy_walk.specs.Fault.{Gives};
ghost use Rattle.policy_text.specs.rows.Exports.{response_at, single_at, single_from, single_under, ttl_under, usual_response};

use policy_doc::exports::ResponseTerms;
use policy_permissions::duration_of;
use policy_walk::{ConfigFault, Path, text_of};
use serde_json::Value;
use std::alloc::Global;

/// For how many milliseconds a response may come where no time is given: two minutes.
const USUAL_TTL: u64 = 120_000;

/// The terms where none are given.
pub(crate) fn usual_response() -> ResponseTerms
    ensures { result ≡ usual_response }
{
    ResponseTerms {
        ttl: USUAL_TTL,
        single: true,
    }
}

/// The terms under `response_type` and `response_ttl`, each if it is there.
#[tactic(auto, unfolding(crate::specs::rows::Exports::response_at))]
pub(crate) fn response_of(
    alloc: Global,
    path: &Path,
    value: &Value,
) -> Result<ResponseTerms, ConfigFault>
    ensures { Gives (λ x. x) result (response_at path.now (view value.now)) }
{
    let below = path.key(alloc, "response_type")?;
    let single = single_under(alloc, &below, value.get("response_type"))?;
    let below = path.key(alloc, "response_ttl")?;
    let ttl = ttl_under(alloc, &below, value.get("response_ttl"))?;
    Ok(ResponseTerms { ttl, single })
}

/// Whether there is one response; without a text that says it there is.
fn single_under(alloc: Global, path: &Path, found: Option<&Value>) -> Result<bool, ConfigFault>
    ensures { Gives (λ x. x) result (single_under path.now (option_map (λ v. view v.now) found.entry)) }
{
    match found {
        None => Ok(true),
        Some(value) => Ok(single_of(alloc, path, value)?),
    }
}

/// Whether there is one response, of a value that has to be a text.
#[tactic(auto, unfolding(crate::specs::rows::Exports::single_at))]
fn single_of(alloc: Global, path: &Path, value: &Value) -> Result<bool, ConfigFault>
    ensures { Gives (λ x. x) result (single_at path.now (view value.now)) }
{
    let text = text_of(alloc, path, value)?;
    Ok(single_from(alloc, path, text.as_bytes())?)
}

/// Whether there is one response, by `single` and `stream`. `WrongType` where the text is another.
fn single_from(alloc: Global, path: &Path, text: &[u8]) -> Result<bool, ConfigFault>
    ensures { Gives (λ x. x) result (single_from path.now text.now) }
{
    if text == b"single".as_slice() {
        Ok(true)
    } else if text == b"stream".as_slice() {
        Ok(false)
    } else {
        Err(ConfigFault::WrongType(path.copy(alloc)?))
    }
}

/// For how many milliseconds a response may come.
fn ttl_under(alloc: Global, path: &Path, found: Option<&Value>) -> Result<u64, ConfigFault>
    ensures { Gives (λ x. x) result (ttl_under path.now (option_map (λ v. view v.now) found.entry)) }
{
    match found {
        None => Ok(USUAL_TTL),
        Some(value) => Ok(duration_of(alloc, path, value)?),
    }
}
