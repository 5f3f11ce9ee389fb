ghost use Rattle.std.specs.Prelude.{◌≡◌, ◌&&◌, [], length, position};
ghost use Rattle.std.specs.List.{slice_index_or};
ghost use Rattle.std.specs.Option.{option_copied};
ghost use Rattle.subjects.specs.Subject.{in_set};
ghost use Rattle.policy_doc.specs.permission_doc.Entries.{entry_of};
ghost use Rattle.permissions.specs.Lists.{Entry, names, is_for};
ghost use Rattle.permissions.specs.Looked.{is_looked_at, has_whole};
ghost use Rattle.permissions.specs.Indexes.{AreIndexesOf, IsIndexOf};
ghost use Rattle.permissions.specs.Verdicts.{publish_by, by_entry_with, subscribe_by, allow_verdict, by_plain_entry, unless_denied};
ghost use Rattle.permissions.specs.declared.verdict.By.TheVariants.{All as AllowsAll};
ghost use Rattle.permissions.specs.declared.verdict.Verdict.TheVariants.{Allowed};

use crate::indexed::Indexes;
use crate::subject_set::SubjectSet;
use crate::{By, Verdict};
use policy_doc::permission_doc::{Direction, PermEntry};
use subjects::pattern_groups::{PatternIndex, Patterns};
use subjects::{Pattern, Subject, SubjectRef};

/// Which entries of a list are looked at, by their queue parts.
#[derive(Clone, Copy, Debug)]
pub(crate) enum Among {
    /// All of them.
    All,
    /// Those without a queue part.
    Plain,
    /// Those with a queue part.
    Queued,
    /// Those whose queue part has the queue.
    Named,
    /// Those without a queue part, and those whose queue part has the queue.
    PlainAndNamed,
}

/// The verdict of a direction's lists on a publish.
#[inline(always)]
pub(crate) fn on_publish(rules: &Direction, indexes: &Indexes, subject: &SubjectRef<'_>) -> Verdict
    requires { AreIndexesOf rules.now indexes.now }
    ensures { result ≡ publish_by rules.now subject.now }
{
    match first_with(rules.deny.as_slice(), &indexes.deny, subject) {
        Some(index) => Verdict::DeniedBy(index),
        None => match &rules.allow {
            None => Verdict::Allowed(By::All),
            Some(entries) => by_entry(entries.as_slice(), &indexes.allow, subject),
        },
    }
}

/// The verdict of an allow list on a publish.
fn by_entry(entries: &[PermEntry], index: &PatternIndex, subject: &SubjectRef<'_>) -> Verdict
    requires { IsIndexOf entries.now index.now }
    ensures { result ≡ by_entry_with subject.now entries.now }
{
    match first_with(entries, index, subject) {
        Some(index) => Verdict::Allowed(By::Index(index)),
        None => Verdict::NoAllow,
    }
}

/// The verdict of a direction's lists on a subscription.
pub(crate) fn on_subscribe(
    rules: &Direction,
    indexes: &Indexes,
    pattern: &Pattern,
    queue: Option<&Subject>,
) -> Verdict
    requires { AreIndexesOf rules.now indexes.now }
    ensures { result ≡ subscribe_by rules.now pattern.now (option_copied queue.entry) }
{
    let deny = rules.deny.as_slice();
    match first_entry(deny, &indexes.deny, Among::PlainAndNamed, queue, pattern) {
        Some(least) => Verdict::DeniedBy(least),
        None => match &rules.allow {
            None => Verdict::Allowed(By::All),
            Some(entries) => allow_verdict(entries.as_slice(), &indexes.allow, pattern, queue),
        },
    }
}

/// The verdict of an allow list on a subscription.
fn allow_verdict(
    entries: &[PermEntry],
    index: &PatternIndex,
    pattern: &Pattern,
    queue: Option<&Subject>,
) -> Verdict
    requires { IsIndexOf entries.now index.now }
    ensures { result ≡ allow_verdict pattern.now (option_copied queue.entry) entries.now }
{
    match queue {
        None => by_plain_entry(entries, index, pattern),
        Some(name) => match first_entry(entries, index, Among::Queued, queue, pattern) {
            None => by_plain_entry(entries, index, pattern),
            Some(least) => match first_entry(entries, index, Among::Named, Some(name), pattern) {
                Some(index) => Verdict::Allowed(By::Index(index)),
                None => Verdict::NoQueueAllow(least),
            },
        },
    }
}

/// The verdict of an allow list's plain entries.
fn by_plain_entry(entries: &[PermEntry], index: &PatternIndex, pattern: &Pattern) -> Verdict
    requires { IsIndexOf entries.now index.now }
    ensures { result ≡ by_plain_entry pattern.now entries.now }
{
    match first_entry(entries, index, Among::Plain, None, pattern) {
        Some(index) => Verdict::Allowed(By::Index(index)),
        None => Verdict::NoAllow,
    }
}

/// The verdict of a direction's deny list on a delivery.
pub(crate) fn on_delivery(
    rules: &Direction,
    indexes: &Indexes,
    subject: &SubjectRef<'_>,
    queue: Option<&Subject>,
) -> Verdict
    requires { AreIndexesOf rules.now indexes.now }
    ensures { result ≡ unless_denied (position (λ (e : Entry). is_for (option_copied queue.entry) e && in_set e.subject subject.now) rules.now.deny) (Allowed AllowsAll) }
{
    let deny = rules.deny.as_slice();
    match first_entry(deny, &indexes.deny, Among::PlainAndNamed, queue, subject) {
        Some(denied) => Verdict::DeniedBy(denied),
        None => Verdict::Allowed(By::All),
    }
}

/// The index of the first entry that has the whole of what is asked, whatever its queue part.
fn first_with<A: SubjectSet>(
    entries: &[PermEntry],
    index: &PatternIndex,
    asked: &A,
) -> Option<usize>
    requires { IsIndexOf entries.now index.now }
    ensures { result ≡ position (λ (e : Entry). A.is_within e.subject asked.now) entries.now }
{
    first_entry(entries, index, Among::All, None, asked)
}

/// Entries, which of them are looked at, and what they are asked.
#[derive(Drop)]
struct Asked<'a, A> {
    entries: &'a [PermEntry],
    among: Among,
    queue: Option<&'a Subject>,
    asked: &'a A,
}

impl<'a, A: SubjectSet> Patterns for Asked<'a, A> {
    ghost count = { λ a. length a.entries.now };

    ghost passes = { λ a i. has_whole A.is_within a.among (option_copied a.queue) a.asked.now (slice_index_or a.entries.now i (entry_of [])) };

    #[inline(always)]
    fn passes(&self, index: usize) -> bool {
        has_whole(&self.entries[index], self.among, self.queue, self.asked)
    }
}

/// The index of the first entry that is looked at and has the whole of what is asked. Only those are asked that
/// have its literal tokens.
#[inline(always)]
#[tactic(auto, using(crate::proofs::Found::as_many, crate::proofs::Found::passes_by_hash, crate::proofs::Least::least_position))]
fn first_entry<A: SubjectSet>(
    entries: &[PermEntry],
    index: &PatternIndex,
    among: Among,
    queue: Option<&Subject>,
    asked: &A,
) -> Option<usize>
    requires { IsIndexOf entries.now index.now }
    ensures { result ≡ position (has_whole A.is_within among (option_copied queue.entry) asked.now) entries.now }
{
    let text = asked.text();
    let all = Asked {
        entries,
        among,
        queue,
        asked,
    };
    let least = index.least(text, &all);
    least
}

/// Whether an entry is looked at and has the whole of what is asked.
#[inline(always)]
fn has_whole<A: SubjectSet>(
    entry: &PermEntry,
    among: Among,
    queue: Option<&Subject>,
    asked: &A,
) -> bool
    ensures { result ≡ has_whole A.is_within among (option_copied queue.entry) asked.now entry.now }
{
    is_looked_at(among, entry, queue) && asked.is_in(&entry.subject)
}

/// Whether an entry is looked at, by its queue part.
fn is_looked_at(among: Among, entry: &PermEntry, queue: Option<&Subject>) -> bool
    ensures { result ≡ is_looked_at among (option_copied queue.entry) entry.now }
{
    match among {
        Among::All => true,
        Among::Plain => entry.queue.is_none(),
        Among::Queued => entry.queue.is_some(),
        Among::Named => has_queue(entry, queue),
        Among::PlainAndNamed => is_for(entry, queue),
    }
}

/// Whether an entry is for a subscription with that queue name, or with none: it is plain, or its queue part has the queue.
pub fn is_for(entry: &PermEntry, queue: Option<&Subject>) -> bool
    ensures { result ≡ is_for (option_copied queue.entry) entry.now }
{
    entry.queue.is_none() || has_queue(entry, queue)
}

/// Whether an entry's queue part has the queue.
fn has_queue(entry: &PermEntry, queue: Option<&Subject>) -> bool
    ensures { result ≡ names (option_copied queue.entry) entry.now }
{
    match (&entry.queue, queue) {
        (Some(part), Some(name)) => part.matches(&name.lend()),
        (Some(_), None) => false,
        (None, _) => false,
    }
}
