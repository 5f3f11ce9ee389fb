//! How a value of a policy is checked, alone, in a list and under a key.
ghost use Rattle.std.specs.Prelude.{◌≡◌, OnOk};
ghost use Rattle.serde_json.specs.View.{items_view, view};
ghost use Rattle.policy_faults.specs.declared.finding.Wanted.TheVariants as wants;
ghost use Rattle.policy_faults.specs.walk.Walk.{with_each, with_list, with_under};

use crate::finding::{Finding, Wanted, push_wrong};
use base::NoMemory;
use policy_walk::Path;
use serde_json::Value;
use std::alloc::Global;

/// How a value is checked.
pub(crate) trait Checker {
    ghost use Rattle.std.specs.Prelude.{◌≡◌, List, OnOk};
    ghost use Rattle.serde_json.specs.Data.{Data};
    ghost use Rattle.serde_json.specs.View.{view};
    ghost use Rattle.policy_walk.specs.Path.{Path};
    ghost use Rattle.policy_faults.specs.declared.finding.Finding.{Finding};

    /// The faults so far with those of a value at a path behind them, for clauses.
    ghost finds: { Self → Path → Data → List Finding → List Finding };

    /// Appends the faults of a value at a path. `NoMemory` where memory could not be had.
    fn check(
        &self,
        alloc: Global,
        path: &Path,
        value: &Value,
        found: &mut Vec<Finding>,
    ) -> Result<(), NoMemory>
        ensures { OnOk result (found.new.items ≡ finds self.now path.now (view value.now) found.old.items) };
}

/// Appends the faults of what stands under a key of an object, if something does.
pub(crate) fn check_under<C: Checker>(
    alloc: Global,
    checker: &C,
    key: &str,
    path: &Path,
    value: &Value,
    found: &mut Vec<Finding>,
) -> Result<(), NoMemory>
    ensures { OnOk result (found.new.items ≡ with_under (C.finds checker.now) key.now path.now (view value.now) found.old.items) }
{
    match value.get(key) {
        None => Ok(()),
        Some(value) => {
            let below = path.key(alloc, key)?;
            checker.check(alloc, &below, value, found)?;
            Ok(())
        }
    }
}

/// Appends the faults of each of these values of a list.
#[tactic(auto, unfolding(crate::specs::walk::Walk::with_each))]
pub(crate) fn check_each<C: Checker>(
    alloc: Global,
    checker: &C,
    path: &Path,
    values: &[Value],
    found: &mut Vec<Finding>,
) -> Result<(), NoMemory>
    ensures { OnOk result (found.new.items ≡ with_each (C.finds checker.now) path.now 0 (items_view values.now) found.old.items) }
{
    for (index, value) in values.iter().enumerate() {
        let below = path.index(alloc, index)?;
        checker.check(alloc, &below, value, found)?;
    }
    Ok(())
}

/// Checks a list, whose values are checked one by one.
#[derive(Drop)]
pub(crate) struct Listed<C> {
    pub values: C,
    /// What is wanted where no list stands.
    pub wanted: Wanted,
}

/// How a list is checked whose values are checked so.
pub(crate) fn list_of<C>(values: C) -> Listed<C>
    ensures { result ≡ record { values = values; wanted = wants.List } }
{
    Listed {
        values,
        wanted: Wanted::List,
    }
}

impl<C: Checker> Checker for Listed<C> {
    ghost finds = { λ listed. with_list (C.finds listed.values) listed.wanted };

    fn check(
        &self,
        alloc: Global,
        path: &Path,
        value: &Value,
        found: &mut Vec<Finding>,
    ) -> Result<(), NoMemory> {
        match value.as_array() {
            Some(values) => Ok(check_each(alloc, &self.values, path, values.as_slice(), found)?),
            None => Ok(push_wrong(alloc, path, self.wanted, found)?),
        }
    }
}
