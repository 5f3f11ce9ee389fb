//! One route, and the import row by which its request came.
ghost use Rattle.std.specs.Prelude.{◌≡◌, IfOk};

use base::{Alike, Copying, NoMemory};
use bytes::Bytes;
use policy_doc::exports::{ResponseTerms, Row};
use std::alloc::Global;
use subjects::{Subject, SubjectRef};

/// The place of an import row in another policy, and the terms of its export there.
#[derive(Clone, Copy, Debug, PartialEq, Eq)]
pub struct NewRow {
    /// The row's index among the imports of its account.
    pub index: usize,
    /// The terms of its export.
    pub terms: ResponseTerms,
}

/// The service import rows of a policy, as those of an earlier policy are looked up among them.
pub trait ServiceRows {
    ghost use Rattle.std.specs.Prelude.{◌≡◌, Option};
    ghost use Rattle.service_exporter.specs.declared.route.NewRow.{NewRow};
    ghost use Rattle.policy_doc.specs.declared.exports.document.Row.{Row};

    /// The least row that is equal to a row of the earlier policy.
    ghost renewed: { Self → Row → Option NewRow };

    /// The least row that is equal to a row of the earlier policy, if there is one: with the same importer, exporter,
    /// subject and `to`.
    fn renewed(&self, row: &Row) -> Option<NewRow>
        ensures { result ≡ renewed self.now row.now };
}

/// What an exporter's response needs of the request that it answers. It keeps nothing of what the request was read from.
#[derive(Debug, Drop)]
pub struct Route {
    /// The word in its subject.
    pub(crate) word: u64,
    /// The import row by which the request came.
    pub(crate) row: Row,
    reply: Subject,
    /// The moment of the request, in milliseconds.
    noted: u64,
    /// On what terms it is answered.
    pub(crate) terms: ResponseTerms,
}

impl Route {
    ghost use Rattle.std.specs.Prelude.{◌≤◌, ℕ, true};
    ghost use Rattle.service_exporter.specs.Routes.{lives, on_row};
    ghost use Rattle.std.specs.Option.{option_map};

    /// The route of a request that crosses a row at a moment, with this word in its subject. The request's reply is copied.
    /// `NoMemory` where memory could not be had.
    pub fn new(
        alloc: Global,
        word: u64,
        row: Row,
        reply: &SubjectRef<'_>,
        now: u64,
        terms: ResponseTerms,
    ) -> Result<Route, NoMemory>
        ensures { IfOk result (λ route. route ≡ record { word = word; row = row; reply = reply.now; noted = now; terms = terms }) }
    {
        let reply = own_subject(alloc, reply)?;
        Ok(Route {
            word,
            row,
            reply,
            noted: now,
            terms,
        })
    }

    /// The account that asked: the row's importer.
    pub fn requester(&self) -> &Bytes
        ensures { result.now ≡ self.now.row.importer }
    {
        &self.row.importer
    }

    /// The reply of the request, where the requester waits for responses.
    pub fn reply(&self) -> &Subject
        ensures { result.now ≡ self.now.reply }
    {
        &self.reply
    }

    /// The route on its row in another policy, on that row's terms, or none where the policy hasn't got the row.
    pub(crate) fn keep(self, renewed: Option<NewRow>) -> Option<Route>
        ensures { result ≡ option_map (on_row self) renewed }
    {
        match renewed {
            None => None,
            Some(new) => {
                let Route {
                    word,
                    row,
                    reply,
                    noted,
                    terms: _,
                } = self;
                Some(Route {
                    word,
                    row: Row {
                        importer: row.importer,
                        index: new.index,
                    },
                    reply,
                    noted,
                    terms: new.terms,
                })
            }
        }
    }

    /// Whether it lives at a moment: its age is at most what its terms give it. It has no age before it was noted.
    pub fn lives(&self, now: u64) -> bool
        ensures { result ≡ lives now self.now }
    {
        now.saturating_sub(self.noted) <= self.terms.ttl
    }

    /// A moment up to which it lives: its last one, or the last that 64 bits have.
    pub(crate) fn end(&self) -> u64
        ensures { (t : ℕ) → t ≤ result → lives t self.now ≡ true }
    {
        self.noted.saturating_add(self.terms.ttl)
    }
}

impl Copying for Route {
    fn copy(&self, alloc: Global) -> Result<Route, NoMemory> {
        let importer = self.row.importer.clone()?;
        let reply = self.reply.copy(alloc)?;
        Ok(Route {
            word: self.word,
            row: Row {
                importer,
                index: self.row.index,
            },
            reply,
            noted: self.noted,
            terms: self.terms,
        })
    }
}

impl Alike for Route {
    fn is_like(&self, other: &Route) -> bool {
        self.word == other.word
            && self.noted == other.noted
            && self.terms.is_like(&other.terms)
            && self.row.is_like(&other.row)
            && self.reply.is_like(&other.reply)
    }
}

/// The same subject, in memory of its own.
fn own_subject(alloc: Global, subject: &SubjectRef<'_>) -> Result<Subject, NoMemory>
    ensures { IfOk result (λ own. own ≡ subject.now) }
{
    let _known = subject.tokens();
    let text = Vec::from_slice(alloc, subject.bytes())?;
    let own = Subject::from_valid(alloc, text)?;
    Ok(own)
}
