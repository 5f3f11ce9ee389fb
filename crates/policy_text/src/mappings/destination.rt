//! The destinations of a source.
ghost use Rattle.std.specs.Prelude.{◌≡◌, ◌∷◌, [], IfOk, None};
ghost use Rattle.serde_json.specs.View.{view};
ghost use Rattle.mapping.specs.one_way.Fault.{one_way_fault};
ghost use Rattle.account_mappings.specs.Drawing.{share_of};
ghost use Rattle.policy_walk.specs.Fault.{Gives};
ghost use Rattle.policy_text.specs.mappings.Mappings.{object_shares, share_at, shares_at, template_at, template_from, text_shares};

use crate::mappings::weight::weight_under;
use account_mappings::Destination;
use account_mappings::weights::Weight;
use base::{Items, NoMemory};
use mapping::one_way::one_way_fault;
use policy_walk::{ConfigFault, Path, Reader, each_of, judge, required_text_of};
use serde_json::Value;
use std::alloc::Global;
use subjects::Pattern;

/// Reads a destination of a source.
#[derive(Drop)]
struct Destinations<'s> {
    source: &'s Pattern,
}

impl<'s> Reader for Destinations<'s> {
    type Out = Destination;

    ghost reads = { λ destinations. share_at destinations.source.now };

    fn read(&self, alloc: Global, path: &Path, value: &Value) -> Result<Destination, ConfigFault> {
        destination_of(alloc, self.source, path, value)
    }
}

/// The destinations of a source: a text, an object, or a list of objects.
pub(crate) fn destinations_of(
    alloc: Global,
    source: &Pattern,
    path: &Path,
    value: &Value,
) -> Result<Items<Destination>, ConfigFault>
    ensures { Gives (λ x. x) result (shares_at source.now path.now (view value.now)) }
{
    match value.as_str() {
        Some(text) => Ok(text_destination(alloc, source, path, text)?),
        None => match value.as_array() {
            Some(values) => Ok(each_of(alloc, &Destinations { source }, path, values.as_slice())?),
            None => Ok(object_destination(alloc, source, path, value)?),
        },
    }
}

/// The one destination of a text, where all messages go.
#[tactic(auto, unfolding(crate::specs::mappings::Mappings::text_shares))]
fn text_destination(
    alloc: Global,
    source: &Pattern,
    path: &Path,
    text: &str,
) -> Result<Items<Destination>, ConfigFault>
    ensures { Gives (λ x. x) result (text_shares source.now path.now text.now) }
{
    let template = template_from(alloc, source, path, text)?;
    let destination = destination_to(alloc, source, template, Weight::whole())?;
    Ok(one(alloc, destination)?)
}

/// The one destination of an object.
#[tactic(auto, unfolding(crate::specs::mappings::Mappings::object_shares))]
fn object_destination(
    alloc: Global,
    source: &Pattern,
    path: &Path,
    value: &Value,
) -> Result<Items<Destination>, ConfigFault>
    ensures { Gives (λ x. x) result (object_shares source.now path.now (view value.now)) }
{
    let destination = destination_of(alloc, source, path, value)?;
    Ok(one(alloc, destination)?)
}

/// The destination of an object.
#[tactic(auto, unfolding(crate::specs::mappings::Mappings::share_at))]
fn destination_of(
    alloc: Global,
    source: &Pattern,
    path: &Path,
    value: &Value,
) -> Result<Destination, ConfigFault>
    ensures { Gives (λ x. x) result (share_at source.now path.now (view value.now)) }
{
    judge(
        alloc,
        &[("destination", true), ("weight", false)],
        path,
        value,
    )?;
    let template = template_of(alloc, source, path, value)?;
    let below = path.key(alloc, "weight")?;
    let weight = weight_under(alloc, &below, value.get("weight"))?;
    Ok(destination_to(alloc, source, template, weight)?)
}

/// The template under `destination`.
#[tactic(auto, unfolding(crate::specs::mappings::Mappings::template_at))]
fn template_of<'v>(
    alloc: Global,
    source: &Pattern,
    path: &Path,
    value: &'v Value,
) -> Result<&'v str, ConfigFault>
    ensures template { Gives (λ text. text.now) result (template_at source.now path.now (view value.now)) }
    ensures fits { IfOk result (λ text. one_way_fault source.now text.now ≡ None) }
{
    let text = required_text_of(alloc, "destination", path, value)?;
    let below = path.key(alloc, "destination")?;
    Ok(template_from(alloc, source, &below, text)?)
}

/// A text that is a template for the subjects of a source. `BadDestination` where it is none.
fn template_from<'v>(
    alloc: Global,
    source: &Pattern,
    path: &Path,
    text: &'v str,
) -> Result<&'v str, ConfigFault>
    ensures template { Gives (λ text. text.now) result (template_from source.now path.now text.now) }
    ensures fits { IfOk result (λ text. one_way_fault source.now text.now ≡ None) }
{
    match one_way_fault(source, text.as_bytes()) {
        None => Ok(text),
        Some(_) => Err(ConfigFault::BadDestination(path.copy(alloc)?)),
    }
}

/// The destination with a template, which has no fault.
fn destination_to(
    alloc: Global,
    source: &Pattern,
    template: &str,
    weight: Weight,
) -> Result<Destination, NoMemory>
    requires { one_way_fault source.now template.now ≡ None }
    ensures { IfOk result (λ made. made ≡ share_of source.now template.now weight) }
{
    match Destination::of(alloc, source, template.as_bytes(), weight) {
        Ok(made) => Ok(made),
        Err(_) => Err(NoMemory),
    }
}

/// The list of one destination.
fn one(alloc: Global, destination: Destination) -> Result<Items<Destination>, NoMemory>
    ensures { IfOk result (λ list. list ≡ destination ∷ []) }
{
    let mut destinations = Vec::new(alloc);
    destinations.push(destination)?;
    Ok(Items::from_vec(destinations))
}
