//! The mappings of an account.
ghost use Rattle.std.specs.Prelude.{◌≡◌, OnOk};
ghost use Rattle.serde_json.specs.View.{items_view, members_view, view};
ghost use Rattle.mapping.specs.one_way.Fault.{one_way_fault};
ghost use Rattle.policy_text.specs.account_config.Mapped.{is_template, weight_at};
ghost use Rattle.policy_faults.specs.walk.Mappings.{exceed, weight_or_whole, with_destination, with_destinations, with_mappings, with_source, with_sources, with_sum, with_template, with_weight};

use crate::finding::{Finding, Wanted, push, push_wrong};
use crate::walk::checker::{Checker, check_each, check_under};
use crate::walk::object::check_object;
use crate::walk::texts::{TextKind, check_named};
use account_mappings::weights::{Weight, weight_written};
use base::NoMemory;
use mapping::one_way::one_way_fault;
use policy_walk::{ConfigFault, Path};
use serde_json::{Map, Value};
use std::alloc::Global;
use subjects::Pattern;
use subjects::texts::pattern_if;

/// Checks an object with destinations under each source.
#[derive(Clone, Copy, Debug, PartialEq, Eq)]
pub(crate) struct Mappings;

impl Checker for Mappings {
    ghost finds = { λ _. with_mappings };

    fn check(
        &self,
        alloc: Global,
        path: &Path,
        value: &Value,
        found: &mut Vec<Finding>,
    ) -> Result<(), NoMemory> {
        match value.as_object() {
            Some(sources) => Ok(check_sources(alloc, path, sources, found)?),
            None => Ok(push_wrong(alloc, path, Wanted::Object, found)?),
        }
    }
}

/// Appends the faults of each source.
#[tactic(auto, unfolding(crate::specs::walk::Mappings::with_sources))]
fn check_sources(
    alloc: Global,
    path: &Path,
    sources: &Map<String, Value>,
    found: &mut Vec<Finding>,
) -> Result<(), NoMemory>
    ensures { OnOk result (found.new.items ≡ with_sources path.now (members_view sources.now.entries) found.old.items) }
{
    for (key, value) in sources.iter() {
        let below = path.key(alloc, key.as_str())?;
        check_source(alloc, key.as_str(), &below, value, found)?;
    }
    Ok(())
}

/// Appends the faults of a source: that it is no pattern, or those of its destinations, and that their weights add up
/// to more than a hundred.
fn check_source(
    alloc: Global,
    key: &str,
    path: &Path,
    value: &Value,
    found: &mut Vec<Finding>,
) -> Result<(), NoMemory>
    ensures { OnOk result (found.new.items ≡ with_source key.now path.now (view value.now) found.old.items) }
{
    match pattern_if(alloc, key.as_bytes())? {
        None => Ok(check_named(alloc, TextKind::Pattern, path, key.as_bytes(), found)?),
        Some(source) => {
            check_destinations(alloc, &source, path, value, found)?;
            check_sum(alloc, path, value, found)?;
            Ok(())
        }
    }
}

/// Appends the faults of the destinations of a source: a template, an object, or a list of objects.
fn check_destinations(
    alloc: Global,
    source: &Pattern,
    path: &Path,
    value: &Value,
    found: &mut Vec<Finding>,
) -> Result<(), NoMemory>
    ensures { OnOk result (found.new.items ≡ with_destinations source.now path.now (view value.now) found.old.items) }
{
    if value.is_string() {
        Template { source }.check(alloc, path, value, found)?;
        return Ok(());
    }
    let destination = Destination { source };
    match value.as_array() {
        Some(values) => Ok(check_each(alloc, &destination, path, values.as_slice(), found)?),
        None => Ok(destination.check(alloc, path, value, found)?),
    }
}

/// Checks a destination that is an object.
#[derive(Clone, Copy, Debug)]
struct Destination<'s> {
    source: &'s Pattern,
}

impl<'s> Checker for Destination<'s> {
    ghost finds = { λ destination. with_destination destination.source.now };

    fn check(
        &self,
        alloc: Global,
        path: &Path,
        value: &Value,
        found: &mut Vec<Finding>,
    ) -> Result<(), NoMemory> {
        let rows = [("destination", true), ("weight", false)];
        let template = Template {
            source: self.source,
        };
        check_object(alloc, &rows, Wanted::Destinations, path, value, found)?;
        check_under(alloc, &template, "destination", path, value, found)?;
        check_under(alloc, &WeightOf, "weight", path, value, found)?;
        Ok(())
    }
}

/// Checks a template for the subjects of a source.
#[derive(Clone, Copy, Debug)]
struct Template<'s> {
    source: &'s Pattern,
}

impl<'s> Checker for Template<'s> {
    ghost finds = { λ template. with_template template.source.now };

    fn check(
        &self,
        alloc: Global,
        path: &Path,
        value: &Value,
        found: &mut Vec<Finding>,
    ) -> Result<(), NoMemory> {
        match value.as_str() {
            None => Ok(push_wrong(alloc, path, Wanted::Template, found)?),
            Some(text) => {
                if is_template(self.source, text.as_bytes()) {
                    return Ok(());
                }
                push(
                    found,
                    ConfigFault::BadDestination(path.copy(alloc)?),
                    Wanted::Template,
                )?;
                Ok(())
            }
        }
    }
}

/// Whether a text is a template for the subjects of a source.
fn is_template(source: &Pattern, text: &[u8]) -> bool
    ensures { result ≡ is_template source.now text.now }
{
    one_way_fault(source, text).is_none()
}

/// Checks a weight.
#[derive(Clone, Copy, Debug, PartialEq, Eq)]
struct WeightOf;

impl Checker for WeightOf {
    ghost finds = { λ _. with_weight };

    fn check(
        &self,
        alloc: Global,
        path: &Path,
        value: &Value,
        found: &mut Vec<Finding>,
    ) -> Result<(), NoMemory> {
        if weight_of(value).is_some() {
            return Ok(());
        }
        if value.is_string() || value.is_number() {
            push(
                found,
                ConfigFault::BadWeight(path.copy(alloc)?),
                Wanted::Weight,
            )?;
            return Ok(());
        }
        push_wrong(alloc, path, Wanted::Weight, found)?;
        Ok(())
    }
}

/// The weight of a value, if it is one.
fn weight_of(value: &Value) -> Option<Weight>
    ensures { result ≡ weight_at (view value.now) }
{
    match value.as_str() {
        Some(text) => weight_written(text.as_bytes()),
        None => match value.as_u64() {
            None => None,
            Some(number) => Weight::of(number),
        },
    }
}

/// Appends that the weights of the destinations of a list add up to more than a hundred, if they do. What is no
/// weight counts nothing.
fn check_sum(
    alloc: Global,
    path: &Path,
    value: &Value,
    found: &mut Vec<Finding>,
) -> Result<(), NoMemory>
    ensures { OnOk result (found.new.items ≡ with_sum path.now (view value.now) found.old.items) }
{
    match value.as_array() {
        None => Ok(()),
        Some(values) => {
            if !exceed(values.as_slice()) {
                return Ok(());
            }
            push(
                found,
                ConfigFault::BadWeight(path.copy(alloc)?),
                Wanted::Sum,
            )?;
            Ok(())
        }
    }
}

/// Whether the weights of some destinations add up to more than a hundred.
#[tactic(auto, unfolding(crate::specs::walk::Mappings::exceed))]
fn exceed(values: &[Value]) -> bool
    ensures { result ≡ exceed 100 (items_view values.now) }
{
    let mut left = 100;
    for value in values {
        let percent = percent_of(value);
        if left < percent {
            return true;
        }
        left -= percent;
    }
    false
}

/// The weight of a destination, 100 without one, and 0 of what is none.
fn percent_of(value: &Value) -> u64
    ensures { result ≡ weight_or_whole (view value.now) }
{
    match value.get("weight") {
        None => 100,
        Some(found) => match weight_of(found) {
            None => 0,
            Some(weight) => weight.percent(),
        },
    }
}
