ghost use Rattle.std.specs.Prelude.{◌≡◌};
ghost use Rattle.permissions.specs.deny_marks.Marks.{has_at, is_marked, kept, marks_in};

use crate::{Compiled, is_for};
use policy_doc::permission_doc::PermEntry;
use subjects::{Pattern, Subject, SubjectRef};

/// How many deny entries a user may have for its subscriptions to be marked. To look through more at each SUB takes longer than
/// the searches in the lists that it saves.
pub(crate) const SHORT: usize = 8;

/// Which deny entries of its user's may refuse a subscription a message.
#[derive(Clone, Copy, Debug)]
pub enum Marks {
    /// No entry is marked: none may refuse it a message if its user has at most 8; of more the lists are asked.
    Unmarked,
    /// The one of this index.
    One(usize),
    /// More than one. The lists are asked: to test two entries takes longer than a search.
    Several,
}

/// Returns the deny entries for subscriptions.
#[inline(always)]
pub(crate) fn deny_of(rules: &Compiled) -> &[PermEntry]
    ensures { result.now ≡ rules.now.subscribe.deny }
{
    match rules.permissions() {
        None => &[],
        Some(permissions) => permissions.subscribe.deny.as_slice(),
    }
}

/// Returns whether an entry is for a subscription, and has a subject of its pattern.
fn is_marked(entry: &PermEntry, pattern: &Pattern, queue: &Option<Subject>) -> bool
    ensures { result ≡ is_marked pattern.now queue.now entry.now }
{
    is_for(entry, queue.as_ref()) && entry.subject.overlaps(pattern)
}

/// Returns the marks of a subscription among some entries.
fn marks_in(entries: &[PermEntry], pattern: &Pattern, queue: &Option<Subject>) -> Marks
    ensures { result ≡ kept (marks_in (is_marked pattern.now queue.now) entries.now) }
{
    let mut marks = Marks::Unmarked;
    for (index, entry) in entries.iter().enumerate() {
        marks = marks.with_if(is_marked(entry, pattern, queue), index);
    }
    marks
}

/// Returns whether the entry of an index has a subject.
#[inline(always)]
fn has_at(entries: &[PermEntry], index: usize, subject: &SubjectRef<'_>) -> bool
    ensures { result ≡ has_at entries.now subject.now index }
{
    match entries.get(index) {
        None => false,
        Some(entry) => entry.subject.matches(subject),
    }
}

impl Marks {
    ghost use Rattle.std.specs.Prelude.{◌≡◌};
    ghost use Rattle.permissions.specs.deny_marks.Marks.{marks_for, lets_through, with_index};

    /// Returns the marks of a subscription to a pattern, with a queue or without one, whose user has these rules. If the user has
    /// more than 8 deny entries, there are none.
    pub fn of(rules: &Compiled, pattern: &Pattern, queue: &Option<Subject>) -> Marks
        ensures { result ≡ marks_for rules.now pattern.now queue.now }
    {
        let deny = deny_of(rules);
        if deny.len() > SHORT {
            return Marks::Unmarked;
        }
        marks_in(deny, pattern, queue)
    }

    /// Returns these marks, with one more entry if that is marked.
    #[inline(always)]
    fn with_if(self, is_marked: bool, index: usize) -> Marks
        ensures { result ≡ with_index self is_marked index }
    {
        if !is_marked {
            return self;
        }
        match self {
            Marks::Unmarked => Marks::One(index),
            Marks::One(_) => Marks::Several,
            Marks::Several => Marks::Several,
        }
    }

    /// Returns whether these marks let a message through to a subscription whose user has at most 8 deny entries.
    #[inline(always)]
    pub(crate) fn lets_through(
        self,
        rules: &Compiled,
        subject: &SubjectRef<'_>,
        queue: &Option<Subject>,
    ) -> bool
        ensures { result ≡ lets_through self rules.now subject.now queue.now }
    {
        match self {
            Marks::Unmarked => true,
            Marks::One(index) => !has_at(deny_of(rules), index, subject),
            Marks::Several => rules.admits(subject, queue.as_ref()).is_allowed(),
        }
    }
}
