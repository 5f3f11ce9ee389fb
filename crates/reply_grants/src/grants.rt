use crate::ended::{GrantEnd, end_of};
use crate::grant_table::{
    GrantTable, Granted, MOST, drop_dead, drop_one, dropped, is_live, put, spend,
};
use crate::plain::{PlainGrant, plain_grants};
use base::{Items, NoMemory};
use indexmap::IndexMap;
use policy_doc::permission_doc::Terms;
use std::alloc::Global;
use std::hash::RandomState;
use std::marker::Model;
use subjects::{Subject, SubjectRef};

/// The reply subjects on which a user may respond, at most 1,024. A clause sees the grants from the oldest to the youngest.
pub struct Grants {
    table: GrantTable,
    /// How many of them, the oldest, were dropped.
    gone: usize,
}

impl Drop for Grants {
    #[inline(always)]
    fn drop(self) {
        let Self { table: _, gone: _ } = self;
    }
}

impl Model for Grants {
    ghost use Rattle.std.specs.Prelude.{List, length};
    ghost use Rattle.indexmap.specs.IndexMap.{spare};
    ghost use Rattle.reply_grants.specs.Grants.{Grant};
    ghost use Rattle.reply_grants.specs.Window.{IsKept, window};

    ghost Value = { List Grant };

    ghost view = { λ g. window g.gone g.table.entries };

    ghost invariant = { λ g. IsKept 1024 g.gone (length g.table.entries) (spare g.table) };
}

impl Grants {
    ghost use Rattle.std.specs.Prelude.{◌≡◌, ◌≤◌, [], IfOk, None, true, length, filter};
    ghost use Rattle.reply_grants.specs.Grants.{has_live, after_note, after_response, after_end};
    ghost use Rattle.reply_grants.specs.Grants as grants;

    /// No grants, with room for as many as may stand: nothing takes memory from here on. Others choose the reply
    /// subjects, so they are hashed under keys that others can't know. `NoMemory` where the room could not be had.
    pub fn with_room(alloc: Global, keys: RandomState) -> Result<Grants, NoMemory>
        ensures { IfOk result (λ all. all ≡ []) }
    {
        Ok(Grants {
            table: IndexMap::with_capacity_and_hasher(alloc, 2 * MOST, keys)?,
            gone: 0,
        })
    }

    /// Tells what holds of all: at most 1,024 stand. It does nothing when it runs.
    pub fn prove_invariant(&self)
        ensures { length self.now ≤ 1024 }
    {
        let _ = &self.table;
    }

    /// Notes a grant for a reply subject, the youngest of all, in the place of the one that it has. Where 1,024 others
    /// stand the oldest is dropped.
    pub fn note(&mut self, subject: Subject, now: u64)
        ensures { self.new ≡ after_note subject now self.old }
    {
        let gone = put(&mut self.table, self.gone, subject, Granted::new(now));
        self.gone = dropped(gone, self.table.len());
    }

    /// Whether a grant for the subject is live under these terms. Without terms none is.
    pub fn live(&self, subject: &SubjectRef<'_>, now: u64, terms: Option<Terms>) -> bool
        ensures { result ≡ has_live subject.now now terms self.now }
    {
        is_live(&self.table, self.gone, subject, now, terms)
    }

    /// Returns why the subject's grant answers no more, where that is known; `None` where one is live.
    pub fn end_of(
        &self,
        subject: &SubjectRef<'_>,
        now: u64,
        terms: Option<Terms>,
    ) -> Option<GrantEnd>
        ensures { has_live subject.now now terms self.now ≡ true → result ≡ None }
    {
        if self.live(subject, now, terms) {
            return None;
        }
        match terms {
            None => None,
            Some(terms) => end_of(&self.table, subject, now, terms),
        }
    }

    /// Counts a response on the subject's grant, if it has one.
    pub fn spend(&mut self, subject: &SubjectRef<'_>)
        ensures { self.new ≡ after_response subject.now self.old }
    {
        spend(&mut self.table, subject);
    }

    /// Drops the subject's grant, if it has one, where as many responses have passed on it as these terms allow, however
    /// old it is.
    pub fn end(&mut self, subject: &SubjectRef<'_>, terms: Option<Terms>)
        ensures { self.new ≡ after_end subject.now terms self.old }
    {
        if !self.live(subject, 0, terms) {
            self.gone = drop_one(&mut self.table, self.gone, subject);
        }
    }

    /// Drops the grants that aren't live under these terms.
    pub fn prune(&mut self, now: u64, terms: Option<Terms>)
        ensures { self.new ≡ filter (grants.is_live now terms) self.old }
    {
        self.gone = drop_dead(&mut self.table, self.gone, now, terms);
    }

    /// The grants as they are, oldest first, to be kept. `NoMemory` where memory could not be had.
    pub fn plain(&self, alloc: Global) -> Result<Items<PlainGrant>, NoMemory>
        ensures { IfOk result (λ all. all ≡ self.now) }
    {
        let all = plain_grants(alloc, &self.table, self.gone)?;
        Ok(all)
    }
}
