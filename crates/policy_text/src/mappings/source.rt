//! The sources of an account's mappings.
ghost use Rattle.std.specs.Prelude.{option_map};
ghost use Rattle.serde_json.specs.View.{members_view, view};
ghost use Rattle.account_mappings.specs.Drawing.{AreOwn, map_of};
ghost use Rattle.policy_walk.specs.Fault.{Gives};
ghost use Rattle.policy_text.specs.mappings.Mappings.{map_at, map_from, mappings_at, mappings_under, maps_from};

use crate::mappings::destination::destinations_of;
use account_mappings::{AccountMap, Destination};
use base::Items;
use policy_permissions::pattern_from;
use policy_walk::{ConfigFault, Path, members_of};
use serde_json::{Map, Value};
use std::alloc::Global;
use subjects::Pattern;

/// The mappings of an object, if it is there, in the order of their sources' bytes. The first fault, in the order of
/// `read_policy`, where it isn't an object of sources; `NoMemory` where memory could not be had.
pub fn mappings_under(
    alloc: Global,
    path: &Path,
    found: Option<&Value>,
) -> Result<Items<AccountMap>, ConfigFault>
    ensures { Gives (λ x. x) result (mappings_under path.now (option_map (λ v. view v.now) found.entry)) }
{
    match found {
        None => Ok(Items::new(alloc)),
        Some(value) => Ok(mappings_of(alloc, path, value)?),
    }
}

/// The mappings of an object.
#[tactic(auto, unfolding(crate::specs::mappings::Mappings::mappings_at))]
fn mappings_of(alloc: Global, path: &Path, value: &Value) -> Result<Items<AccountMap>, ConfigFault>
    ensures { Gives (λ x. x) result (mappings_at path.now (view value.now)) }
{
    let members = members_of(alloc, path, value)?;
    Ok(each_map(alloc, path, members)?)
}

/// The mappings of an object's members, in the order of their keys.
fn each_map(
    alloc: Global,
    path: &Path,
    members: &Map<String, Value>,
) -> Result<Items<AccountMap>, ConfigFault>
    ensures { Gives (λ x. x) result (maps_from path.now (members_view members.now.entries)) }
{
    let mut maps = Vec::new(alloc);
    for (key, value) in members.iter() {
        let below = path.key(alloc, key.as_str())?;
        let map = map_of(alloc, &below, key.as_str(), value)?;
        maps.push(map)?;
    }
    Ok(Items::from_vec(maps))
}

/// A source, which is judged first, with its destinations.
#[tactic(auto, unfolding(crate::specs::mappings::Mappings::map_at))]
fn map_of(alloc: Global, path: &Path, key: &str, value: &Value) -> Result<AccountMap, ConfigFault>
    ensures { Gives (λ x. x) result (map_at path.now key.now (view value.now)) }
{
    let source = pattern_from(alloc, path, key.as_bytes())?;
    let destinations = destinations_of(alloc, &source, path, value)?;
    Ok(map_from(alloc, path, source, destinations)?)
}

/// The source with its destinations. `BadWeight` where their weights add up to more than 100.
fn map_from(
    alloc: Global,
    path: &Path,
    source: Pattern,
    destinations: Items<Destination>,
) -> Result<AccountMap, ConfigFault>
    requires { AreOwn source destinations }
    ensures { Gives (λ x. x) result (map_from path.now (map_of source destinations)) }
{
    match AccountMap::of(source, destinations) {
        Some(map) => Ok(map),
        None => Err(ConfigFault::BadWeight(path.copy(alloc)?)),
    }
}
