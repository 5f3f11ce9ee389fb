//! Which entries of lists are reasons, and of which queues.
ghost use Rattle.std.specs.Prelude.{◌≡◌, ◌++◌, ◌∷◌, [], cond, map, IfOk, OnOk};
ghost use Rattle.std.specs.List.{filter};
ghost use Rattle.message_changes.specs.Reasons.{part_or, queue_in, reason_view, takes, view_in};

use crate::MessageKind;
use base::NoMemory;
use pattern_sets::Reason;
use policy_doc::permission_doc::PermEntry;
use std::alloc::Global;
use subjects::Pattern;

/// Which entries are taken, and as reasons of which queues.
#[derive(Clone, Copy, Debug)]
pub(crate) enum Form {
    /// Those that are looked at, where a queue is asked about with their queue parts.
    Whole(MessageKind),
    /// Those that are looked at, as reasons of each queue.
    Subjects(MessageKind),
    /// Those for queues, with their queue parts.
    Queued,
    /// Those for queues, as reasons of each queue.
    QueuedSubjects,
}

impl Form {
    ghost use Rattle.std.specs.Prelude.{◌≡◌};
    ghost use Rattle.message_changes.specs.Reasons.{queue_in, takes};

    /// Whether an entry is taken.
    pub(crate) fn takes(self, entry: &PermEntry) -> bool
        ensures { result ≡ takes self entry.now }
    {
        match self {
            Form::Whole(kind) => kind.looks_at(entry),
            Form::Subjects(kind) => kind.looks_at(entry),
            Form::Queued => entry.queue.is_some(),
            Form::QueuedSubjects => entry.queue.is_some(),
        }
    }

    /// Returns the pattern of the queues that an entry is a reason of.
    fn queue<'a>(self, entry: &'a PermEntry, any: &'a Pattern) -> &'a Pattern
        ensures { result.now ≡ queue_in self any.now entry.now }
    {
        match self {
            Form::Whole(kind) => {
                if kind.has_queue() {
                    part_or(entry, any)
                } else {
                    any
                }
            }
            Form::Subjects(_) => any,
            Form::Queued => part_or(entry, any),
            Form::QueuedSubjects => any,
        }
    }

    /// Returns an entry as a reason.
    pub(crate) fn reason<'a>(self, entry: &'a PermEntry, any: &'a Pattern) -> Reason<'a>
        ensures { reason_view result ≡ view_in self any.now entry.now }
    {
        Reason {
            subject: &entry.subject,
            queue: self.queue(entry, any),
        }
    }
}

/// Returns an entry's queue part, or the pattern of each queue.
fn part_or<'a>(entry: &'a PermEntry, any: &'a Pattern) -> &'a Pattern
    ensures { result.now ≡ part_or any.now entry.now.queue }
{
    match &entry.queue {
        None => any,
        Some(queue) => queue,
    }
}

/// Returns the reasons of the entries that are taken.
pub(crate) fn reasons_of<'a>(
    alloc: Global,
    form: Form,
    entries: &'a [PermEntry],
    any: &'a Pattern,
) -> Result<Vec<Reason<'a>>, NoMemory>
    ensures { IfOk result (λ all. map reason_view all.items ≡ map (view_in form any.now) (filter (takes form) entries.now)) }
{
    let mut all = Vec::new(alloc);
    for entry in entries {
        add_if_taken(&mut all, form, entry, any)?;
    }
    Ok(all)
}

/// Appends an entry as a reason, if it is taken.
fn add_if_taken<'a>(
    all: &mut Vec<Reason<'a>>,
    form: Form,
    entry: &'a PermEntry,
    any: &'a Pattern,
) -> Result<(), NoMemory>
    ensures { OnOk result (map reason_view all.new.items ≡ map reason_view all.old.items ++ cond (takes form entry.now) (view_in form any.now entry.now ∷ []) []) }
{
    if !form.takes(entry) {
        return Ok(());
    }
    let reason = form.reason(entry, any);
    all.push(reason)?;
    Ok(())
}
