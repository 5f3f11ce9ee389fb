//! What a user may publish or subscribe to.
ghost use Rattle.std.specs.Prelude.{option_map};
ghost use Rattle.serde_json.specs.View.{view};
ghost use Rattle.policy_walk.specs.Fault.{Gives};
ghost use Rattle.policy_permissions.specs.Permissions.{allow_at, direction_at, entries_at, entries_under, entry_at, lists_at, permissions_at, permissions_under, spelled_at, spelled_from};

use crate::entry::{Side, entry_from};
use crate::responses::allow_responses_of;
use base::Items;
use policy_doc::permission_doc::{Direction, PermDoc, PermEntry};
use policy_walk::{ConfigFault, Path, Reader, judge, list_of, text_of};
use serde_json::Value;
use std::alloc::Global;

/// Reads an entry of a list.
#[derive(Drop)]
struct Entries {
    side: Side,
}

impl Reader for Entries {
    type Out = PermEntry;

    ghost reads = { λ entries. entry_at entries.side };

    fn read(&self, alloc: Global, path: &Path, value: &Value) -> Result<PermEntry, ConfigFault> {
        entry_of(alloc, self.side, path, value)
    }
}

/// A user's permissions, if it has any.
pub fn permissions_under(
    alloc: Global,
    path: &Path,
    found: Option<&Value>,
) -> Result<Option<PermDoc>, ConfigFault>
    ensures { Gives (λ x. x) result (permissions_under path.now (option_map (λ v. view v.now) found.entry)) }
{
    match found {
        None => Ok(None),
        Some(value) => Ok(Some(permissions_of(alloc, path, value)?)),
    }
}

/// A user's permissions.
#[tactic(auto, unfolding(crate::specs::Permissions::permissions_at))]
fn permissions_of(alloc: Global, path: &Path, value: &Value) -> Result<PermDoc, ConfigFault>
    ensures { Gives (λ x. x) result (permissions_at path.now (view value.now)) }
{
    let rows = [
        ("publish", false),
        ("pub", false),
        ("subscribe", false),
        ("sub", false),
        ("allow_responses", false),
    ];
    judge(alloc, &rows, path, value)?;
    let publish = spelled_of(alloc, Side::Publish, "publish", "pub", path, value)?;
    let subscribe = spelled_of(alloc, Side::Subscribe, "subscribe", "sub", path, value)?;
    let allow_responses = allow_responses_of(alloc, path, value)?;
    Ok(PermDoc {
        publish,
        subscribe,
        allow_responses,
    })
}

/// The direction under one of two spellings of its key. `WrongType` at the shorter where both are there.
fn spelled_of(
    alloc: Global,
    side: Side,
    long: &str,
    short: &str,
    path: &Path,
    value: &Value,
) -> Result<Direction, ConfigFault>
    ensures { Gives (λ x. x) result (spelled_at side long.now short.now path.now (view value.now)) }
{
    let long_path = path.key(alloc, long)?;
    let short_path = path.key(alloc, short)?;
    Ok(spelled_from(
        alloc,
        side,
        &long_path,
        &short_path,
        value.get(long),
        value.get(short),
    )?)
}

/// The direction of the one of two values that is there.
fn spelled_from(
    alloc: Global,
    side: Side,
    long_path: &Path,
    short_path: &Path,
    long: Option<&Value>,
    short: Option<&Value>,
) -> Result<Direction, ConfigFault>
    ensures { Gives (λ x. x) result (spelled_from side long_path.now short_path.now
        (option_map (λ v. view v.now) long.entry) (option_map (λ v. view v.now) short.entry)) }
{
    match (long, short) {
        (None, None) => Ok(Direction {
            allow: None,
            deny: Items::new(alloc),
        }),
        (Some(value), None) => Ok(direction_of(alloc, side, long_path, value)?),
        (None, Some(value)) => Ok(direction_of(alloc, side, short_path, value)?),
        (Some(_), Some(_)) => Err(ConfigFault::WrongType(short_path.copy(alloc)?)),
    }
}

/// The lists of one direction: `allow` and `deny` of an object, or a text or a list as the allow list.
fn direction_of(
    alloc: Global,
    side: Side,
    path: &Path,
    value: &Value,
) -> Result<Direction, ConfigFault>
    ensures { Gives (λ x. x) result (direction_at side path.now (view value.now)) }
{
    if value.is_object() {
        Ok(lists_of(alloc, side, path, value)?)
    } else {
        Ok(allow_of(alloc, side, path, value)?)
    }
}

/// An allow and a deny list, each if it is there.
#[tactic(auto, unfolding(crate::specs::Permissions::lists_at))]
fn lists_of(alloc: Global, side: Side, path: &Path, value: &Value) -> Result<Direction, ConfigFault>
    ensures { Gives (λ x. x) result (lists_at side path.now (view value.now)) }
{
    judge(alloc, &[("allow", false), ("deny", false)], path, value)?;
    let below = path.key(alloc, "allow")?;
    let allow = entries_under(alloc, side, &below, value.get("allow"))?;
    let below = path.key(alloc, "deny")?;
    match entries_under(alloc, side, &below, value.get("deny"))? {
        None => Ok(Direction {
            allow,
            deny: Items::new(alloc),
        }),
        Some(deny) => Ok(Direction { allow, deny }),
    }
}

/// A text or a list of texts as an allow list.
#[tactic(auto, unfolding(crate::specs::Permissions::allow_at))]
fn allow_of(alloc: Global, side: Side, path: &Path, value: &Value) -> Result<Direction, ConfigFault>
    ensures { Gives (λ x. x) result (allow_at side path.now (view value.now)) }
{
    let entries = entries_of(alloc, side, path, value)?;
    Ok(Direction {
        allow: Some(entries),
        deny: Items::new(alloc),
    })
}

/// The entries of a list, if it is there.
fn entries_under(
    alloc: Global,
    side: Side,
    path: &Path,
    found: Option<&Value>,
) -> Result<Option<Items<PermEntry>>, ConfigFault>
    ensures { Gives (λ x. x) result (entries_under side path.now (option_map (λ v. view v.now) found.entry)) }
{
    match found {
        None => Ok(None),
        Some(value) => Ok(Some(entries_of(alloc, side, path, value)?)),
    }
}

/// The one entry of a text, or those of a list.
#[tactic(auto, unfolding(crate::specs::Permissions::entries_at))]
fn entries_of(
    alloc: Global,
    side: Side,
    path: &Path,
    value: &Value,
) -> Result<Items<PermEntry>, ConfigFault>
    ensures { Gives (λ x. x) result (entries_at side path.now (view value.now)) }
{
    if value.is_string() {
        let entry = entry_of(alloc, side, path, value)?;
        let mut entries = Vec::new(alloc);
        entries.push(entry)?;
        Ok(Items::from_vec(entries))
    } else {
        Ok(list_of(alloc, &Entries { side }, path, value)?)
    }
}

/// The entry of a value that has to be a text.
#[tactic(auto, unfolding(crate::specs::Permissions::entry_at))]
fn entry_of(alloc: Global, side: Side, path: &Path, value: &Value) -> Result<PermEntry, ConfigFault>
    ensures { Gives (λ x. x) result (entry_at side path.now (view value.now)) }
{
    let text = text_of(alloc, path, value)?;
    Ok(entry_from(alloc, side, path, text.as_bytes())?)
}
