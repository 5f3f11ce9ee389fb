//! What an operator writes down of an export, and how an import row is named.
ghost use Rattle.std.specs.Prelude.{◌≡◌, IfOk};

use base::{Alike, Copying, Items, NoMemory};
use bytes::Bytes;
use std::alloc::Global;
use subjects::Pattern;

/// What goes from one account to another.
#[derive(Clone, Copy, Debug, PartialEq, Eq)]
pub enum Kind {
    /// Messages of the exporter, to whoever imports them.
    Stream,
    /// Requests to the exporter, and its responses to whoever asked.
    Service,
}

/// On what terms an exported service is answered.
#[derive(Clone, Copy, Debug, PartialEq, Eq)]
pub struct ResponseTerms {
    /// For how many milliseconds a response may come (`response_ttl`).
    pub ttl: u64,
    /// Whether the first response is the last (`response_type`).
    pub single: bool,
}

/// An import row.
#[derive(Debug, Drop)]
pub struct Row {
    /// The name of the importing account.
    pub importer: Bytes,
    /// The row's index among the imports of that account.
    pub index: usize,
}

/// What an account offers to other accounts: the subjects of a pattern.
#[derive(Debug)]
pub struct ExportDoc {
    /// Whether it is a stream or a service.
    pub kind: Kind,
    /// The pattern whose subjects are offered.
    pub subject: Pattern,
    /// The names of the accounts that may import it. Without the list every account may. An account that it names
    /// need not exist.
    pub accounts: Option<Items<Bytes>>,
    /// On what terms a service is answered. Those of a stream aren't looked at.
    pub response: ResponseTerms,
}

impl Drop for ExportDoc {
    fn drop(self) {
        let Self {
            kind: _,
            subject: _,
            accounts: _,
            response: _,
        } = self;
    }
}

impl Copying for ExportDoc {
    fn copy(&self, alloc: Global) -> Result<ExportDoc, NoMemory> {
        let accounts = match &self.accounts {
            Some(names) => Some(copy_names(alloc, names)?),
            None => None,
        };
        Ok(ExportDoc {
            kind: self.kind,
            subject: self.subject.copy(alloc)?,
            accounts,
            response: self.response,
        })
    }
}

/// The same names again.
fn copy_names(alloc: Global, names: &Items<Bytes>) -> Result<Items<Bytes>, NoMemory>
    ensures { IfOk result (λ copy. copy ≡ names.now) }
{
    let mut copies = Vec::with_capacity(alloc, names.len())?;
    for name in names.as_slice() {
        copies.push(name.clone()?)?;
    }
    Ok(Items::from_vec(copies))
}

impl Alike for Kind {
    fn is_like(&self, other: &Kind) -> bool {
        match (self, other) {
            (Kind::Stream, Kind::Stream) => true,
            (Kind::Stream, Kind::Service) => false,
            (Kind::Service, Kind::Stream) => false,
            (Kind::Service, Kind::Service) => true,
        }
    }
}

impl Alike for ResponseTerms {
    fn is_like(&self, other: &ResponseTerms) -> bool {
        self.ttl.is_like(&other.ttl) && self.single == other.single
    }
}

impl Alike for Row {
    fn is_like(&self, other: &Row) -> bool {
        self.importer.is_like(&other.importer) && self.index == other.index
    }
}

impl Alike for ExportDoc {
    fn is_like(&self, other: &ExportDoc) -> bool {
        self.kind.is_like(&other.kind)
            && self.subject.is_like(&other.subject)
            && self.accounts.is_like(&other.accounts)
            && self.response.is_like(&other.response)
    }
}
