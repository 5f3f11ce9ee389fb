use crate::Compiled;
use crate::deny_marks::Marks;
use crate::deny_marks::marks::{SHORT, deny_of};
use base::NoMemory;
use indexmap::IndexMap;
use std::alloc::Global;
use std::marker::Model;
use subjects::{Subject, SubjectRef};

/// Which subscriptions stand.
pub trait Stands {
    ghost use Rattle.std.specs.Prelude.{◌≡◌, ℕ, List, length};
    ghost use Rattle.permissions.specs.deny_marks.Table.{is_among};

    /// The ids of those that stand, for clauses.
    ghost ids: { Self → List ℕ };

    /// Returns whether the subscription of an id stands.
    fn stands(&self, id: u64) -> bool
        ensures { result ≡ is_among (ids self.now) id };

    /// Returns how many stand.
    fn count(&self) -> usize
        ensures { result ≡ length (ids self.now) };
}

/// The marks of subscriptions, by their ids. A subscription without marks has no entry, so where nobody is denied anything
/// there are none. A clause sees the entries.
///
/// Those of a subscription that has gone may stand here: no id comes again, so nobody asks for them. `trim` bounds how many
/// there are.
#[derive(Drop)]
pub struct DenyMarks {
    by_id: IndexMap<u64, Marks>,
}

impl Model for DenyMarks {
    ghost use Rattle.std.specs.Prelude.{List, ℕ};
    ghost use Rattle.permissions.specs.declared.deny_marks.marks.Marks.{Marks};

    ghost Value = { List (ℕ × Marks) };

    ghost view = { λ d. d.by_id.entries };
}

/// Keeps the marks of subscriptions that stand. These are no more than stand, since each has another id.
fn keep_standing<S: Stands>(by_id: &mut IndexMap<u64, Marks>, standing: &S)
    ensures kept { by_id.new.entries ≡ filter (λ (e : ℕ × Marks). is_among (S.ids standing.now) e.0) by_id.old.entries }
    ensures bounded { length by_id.new.entries ≤ length (S.ids standing.now) }
{
    by_id.retain(|id, _| standing.stands(*id));
}

impl DenyMarks {
    ghost use Rattle.std.specs.Prelude.{◌≡◌, ◌≤◌, ◌==◌, ◌+◌, ◌*◌, ℕ, [], true, OnOk, OnErr, length, if◌then◌else◌};
    ghost use Rattle.permissions.specs.Verdicts.{delivery_verdict, is_allowed};
    ghost use Rattle.permissions.specs.deny_marks.Marks.{admits_by, AreFor};
    ghost use Rattle.permissions.specs.deny_marks.Table.{marks_at, is_among};

    /// Returns a table without marks. It takes no memory.
    pub fn new(alloc: Global) -> DenyMarks
        ensures { result ≡ [] }
    {
        DenyMarks {
            by_id: IndexMap::new(alloc),
        }
    }

    /// Returns the marks of a subscription.
    #[inline(always)]
    pub fn at(&self, id: u64) -> Marks
        ensures { result ≡ marks_at self.now id }
    {
        match self.by_id.get(&id) {
            None => Marks::Unmarked,
            Some(marks) => *marks,
        }
    }

    /// Returns whether a message is let through to a subscription, by its marks. If they are its marks and it has the subject, it is
    /// what `Compiled::admits` decides.
    #[inline(always)]
    #[tactic(auto, using(crate::proofs::deny_marks::Judged::marks_judge))]
    pub fn admits(
        &self,
        id: u64,
        rules: &Compiled,
        subject: &SubjectRef<'_>,
        queue: &Option<Subject>,
    ) -> bool
        ensures marks { result ≡ admits_by (marks_at self.now id) rules.now subject.now queue.now }
        ensures lists { AreFor rules.now subject.now queue.now (marks_at self.now id) → result ≡ is_allowed (delivery_verdict rules.now subject.now queue.now) }
    {
        let lets = self.lets_through(id, rules, subject, queue);
        lets
    }

    /// Returns what `admits` does. A user without deny entries is let through without a look at the marks; of more than 8 entries the
    /// lists are asked.
    #[inline(always)]
    fn lets_through(
        &self,
        id: u64,
        rules: &Compiled,
        subject: &SubjectRef<'_>,
        queue: &Option<Subject>,
    ) -> bool
        ensures { result ≡ admits_by (marks_at self.now id) rules.now subject.now queue.now }
    {
        let deny = deny_of(rules);
        if deny.is_empty() {
            return true;
        }
        if deny.len() > SHORT {
            return rules.admits(subject, queue.as_ref()).is_allowed();
        }
        self.at(id).lets_through(rules, subject, queue)
    }

    /// Puts the marks of a subscription in the place of what stands under its id: one entry more at most. Where memory could not
    /// be had, nothing has changed.
    pub fn put(&mut self, id: u64, marks: Marks) -> Result<(), NoMemory>
        ensures ok { OnOk result ((other : ℕ) → marks_at self.new other ≡ (if id == other then marks else marks_at self.old other)) }
        ensures err { OnErr result (self.new ≡ self.old) }
        ensures bounded { length self.new ≤ length self.old + 1 }
    {
        if matches!(marks, Marks::Unmarked) {
            self.by_id.swap_remove(&id);
            return Ok(());
        }
        self.by_id.insert(id, marks)?;
        Ok(())
    }

    /// Drops the marks of subscriptions that have gone, where there are more than twice as many marks as subscriptions that
    /// stand: so a walk over them comes once in many. After it there are at most twice as many marks as stand, and one.
    pub fn trim<S: Stands>(&mut self, standing: &S)
        ensures kept { (id : ℕ) → is_among (S.ids standing.now) id ≡ true → marks_at self.new id ≡ marks_at self.old id }
        ensures bounded { length self.new ≤ 2 * length (S.ids standing.now) + 1 }
    {
        let enough = self.by_id.len() / 2;
        if standing.count() < enough {
            keep_standing(&mut self.by_id, standing);
        }
    }
}

ghost use Rattle.std.specs.Prelude.{◌≡◌, ◌≤◌, ℕ, filter, length};
ghost use Rattle.permissions.specs.deny_marks.Table.{is_among};
ghost use Rattle.permissions.specs.declared.deny_marks.marks.Marks.{Marks};
