//! Lists of a policy, whose values are read one by one.
ghost use Rattle.std.specs.Prelude.{◌≡◌, option_map};
ghost use Rattle.serde_json.specs.View.{view, items_view};
ghost use Rattle.policy_walk.specs.Fault.{Gives};
ghost use Rattle.policy_walk.specs.Lists.{each, list_at, list_under};

use crate::ConfigFault;
use crate::paths::Path;
use crate::text::items_of;
use base::Items;
use serde_json::Value;
use std::alloc::Global;

/// How one value of a list is read.
pub trait Reader {
    ghost use Rattle.serde_json.specs.Data.{Data};
    ghost use Rattle.policy_walk.specs.Fault.{Read};
    ghost use Rattle.policy_walk.specs.Path.{Path};

    /// What a value is read as.
    type Out: Drop;

    /// What a value at a path is read as, or its first fault, for clauses.
    ghost reads: { Self → Path → Data → Read Self.Out };

    /// What a value at a path is read as. Its first fault where it has one, `NoMemory` where memory could not be had.
    fn read(&self, alloc: Global, path: &Path, value: &Value) -> Result<Self::Out, ConfigFault>
        ensures { Gives (λ x. x) result (reads self.now path.now (view value.now)) };
}

/// What a list's values are read as, if the list is there; else an empty list. `path` is the list's own; the faults are those of
/// `list_of`.
pub fn list_under<R: Reader>(
    alloc: Global,
    reader: &R,
    path: &Path,
    found: Option<&Value>,
) -> Result<Items<R::Out>, ConfigFault>
    ensures { Gives (λ x. x) result (list_under (R.reads reader.now) path.now (option_map (λ v. view v.now) found.entry)) }
{
    match found {
        None => Ok(Items::new(alloc)),
        Some(value) => Ok(list_of(alloc, reader, path, value)?),
    }
}

/// What a list's values are read as. `WrongType` where the value is no list, else the fault of the first of its values that
/// has one, with the path of where it stands; `NoMemory` where memory could not be had.
#[tactic(auto, unfolding(crate::specs::Lists::list_at))]
pub fn list_of<R: Reader>(
    alloc: Global,
    reader: &R,
    path: &Path,
    value: &Value,
) -> Result<Items<R::Out>, ConfigFault>
    ensures { Gives (λ x. x) result (list_at (R.reads reader.now) path.now (view value.now)) }
{
    let values = items_of(alloc, path, value)?;
    Ok(each_of(alloc, reader, path, values)?)
}

/// What the values of a list are read as, in order. The fault of the first that has one, `NoMemory` where memory could not
/// be had.
pub fn each_of<R: Reader>(
    alloc: Global,
    reader: &R,
    path: &Path,
    values: &[Value],
) -> Result<Items<R::Out>, ConfigFault>
    ensures { Gives (λ x. x) result (each (R.reads reader.now) path.now 0 (items_view values.now)) }
{
    let mut items = Vec::with_capacity(alloc, values.len())?;
    for (index, value) in values.iter().enumerate() {
        let below = path.index(alloc, index)?;
        let item = reader.read(alloc, &below, value)?;
        items.push(item)?;
    }
    Ok(Items::from_vec(items))
}
