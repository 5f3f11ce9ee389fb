//! The weight of a destination.
ghost use Rattle.std.specs.Prelude.{◌≡◌, None, option_and_then, option_map};
ghost use Rattle.std.specs.Option.{ok_or};
ghost use Rattle.serde_json.specs.Find.{as_u64};
ghost use Rattle.serde_json.specs.View.{number_view, view};
ghost use Rattle.account_mappings.specs.weights.Weights.{weight_of};
ghost use Rattle.policy_walk.specs.declared.fault.ConfigFault.TheVariants.{BadWeight};
ghost use Rattle.policy_walk.specs.Fault.{Gives};
ghost use Rattle.policy_text.specs.mappings.Mappings.{weight_at, weight_from, weight_under};

use account_mappings::weights::{Weight, weight_written};
use policy_walk::{ConfigFault, Path};
use serde_json::{Number, Value};
use std::alloc::Global;

/// How many of a hundred messages go to a destination; without a weight that is given, all.
pub(crate) fn weight_under(
    alloc: Global,
    path: &Path,
    found: Option<&Value>,
) -> Result<Weight, ConfigFault>
    ensures { Gives (λ x. x) result (weight_under path.now (option_map (λ v. view v.now) found.entry)) }
{
    match found {
        None => Ok(Weight::whole()),
        Some(value) => Ok(weight_of(alloc, path, value)?),
    }
}

/// The weight of a value. `BadWeight` where it is another number or text, and `WrongType` where it is of another kind.
fn weight_of(alloc: Global, path: &Path, value: &Value) -> Result<Weight, ConfigFault>
    ensures { Gives (λ x. x) result (weight_at path.now (view value.now)) }
{
    match value.as_str() {
        Some(text) => Ok(weight_or(alloc, path, weight_written(text.as_bytes()))?),
        None => Ok(weight_from(alloc, path, value.as_number())?),
    }
}

/// The weight of a value that is no text.
fn weight_from(alloc: Global, path: &Path, number: Option<&Number>) -> Result<Weight, ConfigFault>
    ensures { Gives (λ x. x) result (weight_from path.now None (option_map (λ n. number_view n.now) number.entry)) }
{
    match number {
        None => Err(ConfigFault::WrongType(path.copy(alloc)?)),
        Some(number) => Ok(weight_or(alloc, path, whole_weight(number))?),
    }
}

/// The weight of a number, if it is a whole one from 1 to 100.
fn whole_weight(number: &Number) -> Option<Weight>
    ensures { result ≡ option_and_then weight_of (as_u64 (number_view number.now)) }
{
    match number.as_u64() {
        None => None,
        Some(percent) => Weight::of(percent),
    }
}

/// The weight that was found. `BadWeight` where there is none.
fn weight_or(alloc: Global, path: &Path, weight: Option<Weight>) -> Result<Weight, ConfigFault>
    ensures { Gives (λ x. x) result (ok_or weight (BadWeight path.now)) }
{
    match weight {
        None => Err(ConfigFault::BadWeight(path.copy(alloc)?)),
        Some(weight) => Ok(weight),
    }
}
