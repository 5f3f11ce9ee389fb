//! The texts, times and numbers of a policy.
ghost use Rattle.std.specs.Prelude.{◌≡◌, OnOk, option_copied};
ghost use Rattle.serde_json.specs.View.{view};
ghost use Rattle.policy_permissions.specs.Entry.{is_entry_text, is_pattern_text, is_queue_text};
ghost use Rattle.policy_permissions.specs.declared.entry.Side.TheVariants as side;
ghost use Rattle.policy_text.specs.account_config.Standing.{is_response_type};
ghost use Rattle.policy_faults.specs.walk.Texts.{fault_named, is_allowed, wanted_by, with_bound, with_max, with_named, with_text, with_version};

use crate::finding::{Finding, Wanted, push, push_wrong};
use crate::walk::checker::Checker;
use base::NoMemory;
use policy_permissions::{entry_parts, is_bound};
use policy_text::account_config::is_hashed;
use policy_text::rows::{has_name_length, is_account_name};
use policy_walk::{ConfigFault, Path, read_duration};
use serde_json::Value;
use std::alloc::Global;
use subjects::{SubjectRef, pattern_fault};

/// Checks a text of a kind.
#[derive(Clone, Copy, Debug, PartialEq, Eq)]
pub(crate) enum TextKind {
    AccountName,
    UserName,
    Password,
    PublishEntry,
    SubscribeEntry,
    Pattern,
    Subject,
    Any,
    Duration,
    ResponseType,
}

impl TextKind {
    ghost use Rattle.std.specs.Prelude.{◌≡◌};
    ghost use Rattle.policy_faults.specs.walk.Texts.{fault_named, is_allowed, wanted_by};

    /// Whether a text is of the kind.
    fn is_allowed(self, text: &[u8]) -> bool
        ensures { result ≡ is_allowed self text.now }
    {
        match self {
            TextKind::AccountName => is_account_name(text),
            TextKind::UserName => has_name_length(text),
            TextKind::Password => !is_hashed(text),
            TextKind::PublishEntry => is_pattern(text),
            TextKind::SubscribeEntry => is_subscribe_entry(text),
            TextKind::Pattern => is_pattern(text),
            TextKind::Subject => SubjectRef::of(text).is_some(),
            TextKind::Any => true,
            TextKind::Duration => read_duration(text).is_some(),
            TextKind::ResponseType => is_response_type(text),
        }
    }

    /// The fault of a text that isn't.
    fn fault(self, path: Path) -> ConfigFault
        ensures { result ≡ fault_named self path }
    {
        match self {
            TextKind::AccountName => ConfigFault::BadName(path),
            TextKind::UserName => ConfigFault::BadName(path),
            TextKind::Password => ConfigFault::HashedPassword(path),
            TextKind::PublishEntry => ConfigFault::BadSubject(path),
            TextKind::SubscribeEntry => ConfigFault::BadSubject(path),
            TextKind::Pattern => ConfigFault::BadSubject(path),
            TextKind::Subject => ConfigFault::BadSubject(path),
            TextKind::Any => ConfigFault::WrongType(path),
            TextKind::Duration => ConfigFault::BadDuration(path),
            TextKind::ResponseType => ConfigFault::WrongType(path),
        }
    }

    /// What is wanted in its place.
    fn wanted(self) -> Wanted
        ensures { result ≡ wanted_by self }
    {
        match self {
            TextKind::AccountName => Wanted::AccountName,
            TextKind::UserName => Wanted::UserName,
            TextKind::Password => Wanted::Password,
            TextKind::PublishEntry => Wanted::PublishEntry,
            TextKind::SubscribeEntry => Wanted::SubscribeEntry,
            TextKind::Pattern => Wanted::Pattern,
            TextKind::Subject => Wanted::Subject,
            TextKind::Any => Wanted::Text,
            TextKind::Duration => Wanted::Duration,
            TextKind::ResponseType => Wanted::ResponseType,
        }
    }
}

/// Appends the fault of a text at a path that isn't of the kind.
pub(crate) fn check_named(
    alloc: Global,
    kind: TextKind,
    path: &Path,
    text: &[u8],
    found: &mut Vec<Finding>,
) -> Result<(), NoMemory>
    ensures { OnOk result (found.new.items ≡ with_named kind path.now text.now found.old.items) }
{
    if kind.is_allowed(text) {
        return Ok(());
    }
    push(found, kind.fault(path.copy(alloc)?), kind.wanted())?;
    Ok(())
}

impl Checker for TextKind {
    ghost finds = { λ kind. with_text kind };

    fn check(
        &self,
        alloc: Global,
        path: &Path,
        value: &Value,
        found: &mut Vec<Finding>,
    ) -> Result<(), NoMemory> {
        match value.as_str() {
            Some(text) => Ok(check_named(alloc, *self, path, text.as_bytes(), found)?),
            None => Ok(push_wrong(alloc, path, self.wanted(), found)?),
        }
    }
}

/// Checks a bound on answers.
#[derive(Clone, Copy, Debug, PartialEq, Eq)]
pub(crate) struct Max;

impl Checker for Max {
    ghost finds = { λ _. with_max };

    fn check(
        &self,
        alloc: Global,
        path: &Path,
        value: &Value,
        found: &mut Vec<Finding>,
    ) -> Result<(), NoMemory> {
        match value.as_u64() {
            Some(number) => Ok(check_bound(alloc, is_bound(number), path, found)?),
            None => match value.as_i64() {
                Some(number) => Ok(check_bound(alloc, number == -1, path, found)?),
                None => Ok(push_wrong(alloc, path, Wanted::Max, found)?),
            },
        }
    }
}

/// Appends the fault of a whole number that is no bound.
fn check_bound(
    alloc: Global,
    is_one: bool,
    path: &Path,
    found: &mut Vec<Finding>,
) -> Result<(), NoMemory>
    ensures { OnOk result (found.new.items ≡ with_bound is_one path.now found.old.items) }
{
    if is_one {
        return Ok(());
    }
    push(found, ConfigFault::BadMax(path.copy(alloc)?), Wanted::Max)?;
    Ok(())
}

/// Checks the number of a version.
#[derive(Clone, Copy, Debug, PartialEq, Eq)]
pub(crate) struct VersionNumber;

impl Checker for VersionNumber {
    ghost finds = { λ _. with_version };

    fn check(
        &self,
        alloc: Global,
        path: &Path,
        value: &Value,
        found: &mut Vec<Finding>,
    ) -> Result<(), NoMemory> {
        match value.as_u64() {
            Some(1) => Ok(()),
            Some(2) => Ok(()),
            _ => Ok(push_wrong(alloc, path, Wanted::Version, found)?),
        }
    }
}

/// Whether a text says that there is one response, or a stream of them.
fn is_response_type(text: &[u8]) -> bool
    ensures { result ≡ is_response_type text.now }
{
    text == b"single".as_slice() || text == b"stream".as_slice()
}

/// Whether a text is a pattern.
pub(crate) fn is_pattern(text: &[u8]) -> bool
    ensures { result ≡ is_pattern_text text.now }
{
    pattern_fault(text).is_none()
}

/// Whether a text is a pattern, or a pattern, spaces and a pattern for queues.
fn is_subscribe_entry(text: &[u8]) -> bool
    ensures { result ≡ is_entry_text side.Subscribe text.now }
{
    let (subject, queue) = entry_parts(text);
    is_pattern(subject) && is_queue(queue)
}

/// Whether a queue part, if there is one, is a pattern.
fn is_queue(text: Option<&[u8]>) -> bool
    ensures { result ≡ is_queue_text (option_copied text.entry) }
{
    match text {
        None => true,
        Some(text) => is_pattern(text),
    }
}
