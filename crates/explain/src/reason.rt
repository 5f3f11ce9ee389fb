//! Verdicts with their reasons.
ghost use Rattle.std.specs.Prelude.{◌≡◌, ◌++◌, [], IfOk, None, OnOk};
ghost use Rattle.std.specs.Option.{option_copied, option_map};
ghost use Rattle.std.specs.List.{slice_get};
ghost use Rattle.explain.specs.Reason.{allow_entry, delivery_reason, is_looked_at, lacks_pattern, lacks_subject, named_entry, publish_reason, refusing_list, subscribe_reason, uncovered_by, uncovered_with};
ghost use Rattle.policy_doc.specs.permission_doc.Entries.{entry_text};
ghost use Rattle.subjects.specs.Subject.{text_of};
ghost use Rattle.subjects.specs.Outside.{outside};

use crate::{Explanation, Uncovered};
use base::{Items, NoMemory};
use permissions::{By, Compiled, Verdict};
use policy_doc::permission_doc::{Direction, PermEntry};
use std::alloc::Global;
use subjects::{Pattern, Subject};

/// Returns the verdict on a publish with its reason.
pub(crate) fn publish_reason(
    alloc: Global,
    lists: &Compiled,
    subject: &Subject,
) -> Result<Explanation, NoMemory>
    ensures { IfOk result (λ reason. reason ≡ publish_reason lists.now subject.now) }
{
    let verdict = lists.publish(&subject.lend());
    match lists.permissions() {
        None => Ok(unrestricted(alloc, verdict)),
        Some(permissions) => {
            let rules = &permissions.publish;
            let entry = named_text(alloc, rules, verdict)?;
            let outside = match allow_list(rules, verdict) {
                None => Items::new(alloc),
                Some(entries) => all_lacking(alloc, entries, subject)?,
            };
            Ok(Explanation {
                verdict,
                entry,
                outside,
            })
        }
    }
}

/// Returns the verdict on a subscription with its reason.
pub(crate) fn subscribe_reason(
    alloc: Global,
    lists: &Compiled,
    pattern: &Pattern,
    queue: Option<&Subject>,
) -> Result<Explanation, NoMemory>
    ensures { IfOk result (λ reason. reason ≡ subscribe_reason lists.now pattern.now (option_copied queue.entry)) }
{
    let verdict = lists.subscribe(pattern, queue);
    match lists.permissions() {
        None => Ok(unrestricted(alloc, verdict)),
        Some(permissions) => {
            let rules = &permissions.subscribe;
            let entry = named_text(alloc, rules, verdict)?;
            let outside = match allow_list(rules, verdict) {
                None => Items::new(alloc),
                Some(entries) => those_lacking(alloc, entries, pattern, queue)?,
            };
            Ok(Explanation {
                verdict,
                entry,
                outside,
            })
        }
    }
}

/// Returns the verdict on a delivery with its reason.
pub(crate) fn delivery_reason(
    alloc: Global,
    lists: &Compiled,
    subject: &Subject,
    queue: Option<&Subject>,
) -> Result<Explanation, NoMemory>
    ensures { IfOk result (λ reason. reason ≡ delivery_reason lists.now subject.now (option_copied queue.entry)) }
{
    let verdict = lists.admits(&subject.lend(), queue);
    match lists.permissions() {
        None => Ok(unrestricted(alloc, verdict)),
        Some(permissions) => Ok(Explanation {
            verdict,
            entry: named_text(alloc, &permissions.subscribe, verdict)?,
            outside: Items::new(alloc),
        }),
    }
}

/// Returns the reason of a verdict where no list decides.
fn unrestricted(alloc: Global, verdict: Verdict) -> Explanation
    ensures verdict { result.verdict ≡ verdict }
    ensures entry { result.entry ≡ None }
    ensures outside { result.outside ≡ [] }
{
    Explanation {
        verdict,
        entry: None,
        outside: Items::new(alloc),
    }
}

/// Returns the allow list, where it allows nothing of what was asked.
fn allow_list(rules: &Direction, verdict: Verdict) -> Option<&[PermEntry]>
    ensures { option_copied result ≡ refusing_list rules.now verdict }
{
    match verdict {
        Verdict::NoAllow => match &rules.allow {
            None => None,
            Some(entries) => Some(entries.as_slice()),
        },
        Verdict::Allowed(_) => None,
        Verdict::DeniedBy(_) => None,
        Verdict::NoQueueAllow(_) => None,
    }
}

/// Returns the text of the entry that a verdict names, if it names one.
fn named_text(
    alloc: Global,
    rules: &Direction,
    verdict: Verdict,
) -> Result<Option<Items<u8>>, NoMemory>
    ensures { IfOk result (λ text. text ≡ option_map entry_text (named_entry rules.now verdict)) }
{
    match named_entry(rules, verdict) {
        None => Ok(None),
        Some(entry) => Ok(Some(text_of(alloc, entry)?)),
    }
}

/// Returns the entry that a verdict names, if it names one.
fn named_entry(rules: &Direction, verdict: Verdict) -> Option<&PermEntry>
    ensures { option_copied result ≡ named_entry rules.now verdict }
{
    match verdict {
        Verdict::Allowed(by) => match by {
            By::All => None,
            By::Index(index) => allow_entry(rules, index),
            By::Grant => None,
        },
        Verdict::DeniedBy(index) => rules.deny.as_slice().get(index),
        Verdict::NoAllow => None,
        Verdict::NoQueueAllow(index) => allow_entry(rules, index),
    }
}

/// Returns the allow entry at an index, if there is one.
fn allow_entry(rules: &Direction, index: usize) -> Option<&PermEntry>
    ensures { option_copied result ≡ allow_entry rules.now index }
{
    match &rules.allow {
        None => None,
        Some(entries) => entries.as_slice().get(index),
    }
}

/// Returns an entry's text.
fn text_of(alloc: Global, entry: &PermEntry) -> Result<Items<u8>, NoMemory>
    ensures { IfOk result (λ text. text ≡ entry_text entry.now) }
{
    let mut text = Vec::new(alloc);
    entry.write_to(&mut text)?;
    Ok(Items::from_vec(text))
}

/// Returns all of these entries, each with the subject.
fn all_lacking(
    alloc: Global,
    entries: &[PermEntry],
    subject: &Subject,
) -> Result<Items<Uncovered>, NoMemory>
    ensures { IfOk result (λ all. all ≡ uncovered_by (lacks_subject subject.now) entries.now) }
{
    let mut all = Vec::new(alloc);
    for (index, entry) in entries.iter().enumerate() {
        let subject = Vec::from_slice(alloc, subject.bytes())?;
        push_uncovered(alloc, &mut all, index, entry, Some(subject))?;
    }
    Ok(Items::from_vec(all))
}

/// Returns those of these entries that were looked at, each with a subject of the pattern that it hasn't: all for a
/// subscription with a queue, else the plain ones.
fn those_lacking(
    alloc: Global,
    entries: &[PermEntry],
    pattern: &Pattern,
    queue: Option<&Subject>,
) -> Result<Items<Uncovered>, NoMemory>
    ensures { IfOk result (λ all. all ≡ uncovered_by (lacks_pattern pattern.now (option_copied queue.entry)) entries.now) }
{
    let mut all = Vec::new(alloc);
    for (index, entry) in entries.iter().enumerate() {
        let subject = lacking_subject(alloc, entry, pattern, queue)?;
        push_uncovered(alloc, &mut all, index, entry, subject)?;
    }
    Ok(Items::from_vec(all))
}

/// Returns a subject of a pattern that an entry hasn't, if the entry was looked at and hasn't all.
fn lacking_subject(
    alloc: Global,
    entry: &PermEntry,
    pattern: &Pattern,
    queue: Option<&Subject>,
) -> Result<Option<Vec<u8>>, NoMemory>
    ensures { IfOk result (λ found. option_map (λ text. text.items) found ≡ lacks_pattern pattern.now (option_copied queue.entry) entry.now) }
{
    if !is_looked_at(entry, queue) {
        return Ok(None);
    }
    let found = entry.subject.outside(alloc, pattern)?;
    Ok(found)
}

/// Whether an allow entry is looked at for a subscription.
fn is_looked_at(entry: &PermEntry, queue: Option<&Subject>) -> bool
    ensures { result ≡ is_looked_at (option_copied queue.entry) entry.now }
{
    queue.is_some() || entry.queue.is_none()
}

/// Appends an entry with a subject that it hasn't, if there is one.
fn push_uncovered(
    alloc: Global,
    all: &mut Vec<Uncovered>,
    index: usize,
    entry: &PermEntry,
    subject: Option<Vec<u8>>,
) -> Result<(), NoMemory>
    ensures { OnOk result (all.new.items ≡ all.old.items ++ uncovered_with index entry.now (option_map (λ text. text.items) subject)) }
{
    match subject {
        None => Ok(()),
        Some(subject) => {
            all.push(Uncovered {
                index,
                entry: text_of(alloc, entry)?,
                subject: Items::from_vec(subject),
            })?;
            Ok(())
        }
    }
}
