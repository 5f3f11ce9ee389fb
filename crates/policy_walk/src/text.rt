//! Texts and lists of a policy.
ghost use Rattle.serde_json.specs.View.{view, items_view};
ghost use Rattle.policy_walk.specs.Fault.{Gives};
ghost use Rattle.policy_walk.specs.Object.{required_at};
ghost use Rattle.policy_walk.specs.Texts.{items_at, required_text_at, text_at};

use crate::ConfigFault;
use crate::paths::Path;
use serde_json::Value;
use std::alloc::Global;

/// The text of a value that has to be one. `WrongType` where it is none.
pub fn text_of<'v>(alloc: Global, path: &Path, value: &'v Value) -> Result<&'v str, ConfigFault>
    ensures { Gives (λ text. text.now) result (text_at path.now (view value.now)) }
{
    match value.as_str() {
        Some(text) => Ok(text),
        None => Err(ConfigFault::WrongType(path.copy(alloc)?)),
    }
}

/// The values of a list, of a value that has to be one. `WrongType` where it is none.
pub fn items_of<'v>(
    alloc: Global,
    path: &Path,
    value: &'v Value,
) -> Result<&'v [Value], ConfigFault>
    ensures { Gives (λ items. items_view items.now) result (items_at path.now (view value.now)) }
{
    match value.as_array() {
        Some(items) => Ok(items.as_slice()),
        None => Err(ConfigFault::WrongType(path.copy(alloc)?)),
    }
}

/// The value that an object has under a key that must be there. `WrongType` at the key's path where it isn't.
pub fn required_of<'v>(
    alloc: Global,
    key: &str,
    path: &Path,
    value: &'v Value,
) -> Result<&'v Value, ConfigFault>
    ensures { Gives (λ found. view found.now) result (required_at key.now path.now (view value.now)) }
{
    match value.get(key) {
        Some(found) => Ok(found),
        None => Err(ConfigFault::WrongType(path.key(alloc, key)?)),
    }
}

/// The text that an object has under a key that must be there. `WrongType` where nothing is there, or no text.
#[tactic(auto, unfolding(crate::specs::Texts::required_text_at))]
pub fn required_text_of<'v>(
    alloc: Global,
    key: &str,
    path: &Path,
    value: &'v Value,
) -> Result<&'v str, ConfigFault>
    ensures { Gives (λ text. text.now) result (required_text_at key.now path.now (view value.now)) }
{
    let found = required_of(alloc, key, path, value)?;
    let below = path.key(alloc, key)?;
    Ok(text_of(alloc, &below, found)?)
}
