use crate::{GrantEnd, Grants, PlainGrant};
use base::{Items, NoMemory};
use policy_doc::permission_doc::Terms;
use std::alloc::Global;
use std::hash::RandomState;
use std::marker::Model;
use subjects::{Subject, SubjectRef};

/// The grants of a user that may never have any: there is no table before its first need. A clause sees the table's
/// grants, if there is one.
#[derive(Drop)]
pub struct Replies {
    table: Option<Box<Grants>>,
}

/// What is noted where a request is handed over: its reply subject, and an empty table for whoever has none.
#[derive(Drop)]
pub struct Note {
    /// The reply subject.
    pub subject: Subject,
    /// The table, which is dropped where there is one already.
    pub table: Replies,
}

impl Model for Replies {
    ghost use Rattle.std.specs.Prelude.{List, Option, Box};
    ghost use Rattle.std.specs.Option.{option_map};
    ghost use Rattle.std.specs.declared.alloc.Global.{Global};
    ghost use Rattle.reply_grants.specs.Grants.{Grant};

    ghost Value = { Option (List Grant) };

    ghost view = { λ r. option_map (λ (b : Box (List Grant) Global). b.value) r.table };
}

impl Replies {
    ghost use Rattle.std.specs.Prelude.{◌≡◌, [], None, Some, IfOk, is_some, true};
    ghost use Rattle.reply_grants.specs.Replies.{grants_of, noted, responded_in, ended_in, judged};
    ghost use Rattle.reply_grants.specs.Grants.{has_live};

    /// No table.
    pub fn none() -> Replies
        ensures { result ≡ None }
    {
        Replies { table: None }
    }

    /// An empty table, with room for as many grants as may stand. `NoMemory` where the room could not be had.
    pub fn with_room(alloc: Global, keys: RandomState) -> Result<Replies, NoMemory>
        ensures { IfOk result (λ replies. replies ≡ Some []) }
    {
        let grants = Grants::with_room(alloc, keys)?;
        let table = Box::new(alloc, grants)?;
        Ok(Replies { table: Some(table) })
    }

    /// Whether there is a table.
    pub fn has_table(&self) -> bool
        ensures { result ≡ is_some self.now }
    {
        self.table.is_some()
    }

    /// Notes a grant, in the note's table where there is none. It takes no memory.
    pub fn note(&mut self, note: Note, now: u64)
        ensures { self.new ≡ noted note now self.old }
    {
        let Note { subject, table } = note;
        if self.table.is_none() {
            self.table = table.table;
        }
        match &mut self.table {
            None => {}
            Some(grants) => grants.note(subject, now),
        }
    }

    /// Whether a grant for the subject is live under these terms. Without terms none is.
    pub fn live(&self, subject: &SubjectRef<'_>, now: u64, terms: Option<Terms>) -> bool
        ensures { result ≡ has_live subject.now now terms (grants_of self.now) }
    {
        match &self.table {
            None => false,
            Some(grants) => grants.live(subject, now, terms),
        }
    }

    /// Returns why the subject's grant answers no more, where that is known; `None` where one is live.
    pub fn end_of(
        &self,
        subject: &SubjectRef<'_>,
        now: u64,
        terms: Option<Terms>,
    ) -> Option<GrantEnd>
        ensures { has_live subject.now now terms (grants_of self.now) ≡ true → result ≡ None }
    {
        match &self.table {
            None => None,
            Some(grants) => grants.end_of(subject, now, terms),
        }
    }

    /// Counts a response on the subject's grant, if it has one.
    pub fn spend(&mut self, subject: &SubjectRef<'_>)
        ensures { self.new ≡ responded_in subject.now self.old }
    {
        match &mut self.table {
            None => {}
            Some(grants) => grants.spend(subject),
        }
    }

    /// Drops the subject's grant, if it has one, where as many responses have passed on it as these terms allow.
    pub fn end(&mut self, subject: &SubjectRef<'_>, terms: Option<Terms>)
        ensures { self.new ≡ ended_in subject.now terms self.old }
    {
        match &mut self.table {
            None => {}
            Some(grants) => grants.end(subject, terms),
        }
    }

    /// Other terms come into force: the grants stay that are live both under those before and under these. Without
    /// terms the table goes.
    pub fn judge(&mut self, now: u64, before: Option<Terms>, terms: Option<Terms>)
        ensures { self.new ≡ judged now before terms self.old }
    {
        match terms {
            None => self.table = None,
            Some(terms) => match &mut self.table {
                None => {}
                Some(grants) => keep_live(grants, now, before, Some(terms)),
            },
        }
    }

    /// The table's grants as they are, oldest first, to be kept. `NoMemory` where memory could not be had.
    pub fn plain(&self, alloc: Global) -> Result<Option<Items<PlainGrant>>, NoMemory>
        ensures { IfOk result (λ plain. plain ≡ self.now) }
    {
        match &self.table {
            None => Ok(None),
            Some(grants) => {
                let all = grants.plain(alloc)?;
                Ok(Some(all))
            }
        }
    }
}

ghost use Rattle.std.specs.Prelude.{◌≡◌};
ghost use Rattle.reply_grants.specs.Replies.{both_live};

/// Drops the grants that aren't live both under the terms before and under these.
fn keep_live(grants: &mut Grants, now: u64, before: Option<Terms>, terms: Option<Terms>)
    ensures { grants.new ≡ both_live now before terms grants.old }
{
    grants.prune(now, before);
    grants.prune(now, terms);
}
