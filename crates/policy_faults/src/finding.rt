use base::NoMemory;
use policy_walk::{ConfigFault, Path};
use std::alloc::Global;

/// A fault of a policy's text, and what is wanted in its place.
#[derive(Debug, Drop)]
pub struct Finding {
    pub fault: ConfigFault,
    pub wanted: Wanted,
}

/// What is wanted in a place of a policy's text.
#[derive(Clone, Copy, Debug, PartialEq, Eq)]
pub enum Wanted {
    /// A key of the object's table.
    KnownKey,
    /// A key that has to be there.
    Key,
    Object,
    List,
    Version,
    AccountName,
    UserName,
    Password,
    /// A direction of permissions.
    Direction,
    /// One of the two spellings of a direction.
    Spelling,
    Entries,
    PublishEntry,
    SubscribeEntry,
    Responses,
    Max,
    Duration,
    /// One of `stream` and `service`.
    Kind,
    Pattern,
    Subject,
    Text,
    ResponseType,
    Destinations,
    Template,
    Weight,
    /// Weights of a hundred at most.
    Sum,
}

ghost use Rattle.std.specs.Prelude.{◌≡◌, ◌++◌, ◌∷◌, [], OnOk};
ghost use Rattle.policy_walk.specs.declared.fault.ConfigFault.TheVariants as faults;
ghost use Rattle.policy_faults.specs.Findings.{finding, with_fault};

/// Appends a fault, and what is wanted in its place.
pub(crate) fn push(
    found: &mut Vec<Finding>,
    fault: ConfigFault,
    wanted: Wanted,
) -> Result<(), NoMemory>
    ensures { OnOk result (found.new.items ≡ found.old.items ++ finding fault wanted ∷ []) }
{
    found.push(Finding { fault, wanted })?;
    Ok(())
}

/// Appends that the value at a path is of another kind than is wanted.
pub(crate) fn push_wrong(
    alloc: Global,
    path: &Path,
    wanted: Wanted,
    found: &mut Vec<Finding>,
) -> Result<(), NoMemory>
    ensures { OnOk result (found.new.items ≡ with_fault (faults.WrongType path.now) wanted found.old.items) }
{
    push(found, ConfigFault::WrongType(path.copy(alloc)?), wanted)?;
    Ok(())
}
