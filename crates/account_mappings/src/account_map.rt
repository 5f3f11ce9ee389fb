ghost use Rattle.std.specs.Prelude.{◌≡◌, nat_lt};
ghost use Rattle.std.specs.List.{list_any, sum_by};
ghost use Rattle.std.specs.Str.{bytes_eq};
ghost use Rattle.account_mappings.specs.Drawing.{Share, weight_of};

use crate::Destination;
use crate::choosing::{chosen, draw_of};
use base::{Alike, Copying, Items, NoMemory};
use std::alloc::Global;
use std::marker::Model;
use subjects::{Pattern, SubjectRef};

/// A source, whose subjects are sent on under others, and its destinations. Their weights add up to 100 at most; what is left
/// of 100 is the rest, which isn't mapped, or is dropped where some destination's text is the source's. A clause sees the
/// source and the destinations.
#[derive(Debug)]
pub struct AccountMap {
    source: Pattern,
    destinations: Items<Destination>,
}

impl Drop for AccountMap {
    fn drop(self) {
        let Self {
            source: _,
            destinations: _,
        } = self;
    }
}

impl Model for AccountMap {
    ghost use Rattle.account_mappings.specs.Drawing.{IsSourceMap, SourceMap, map_of};

    ghost Value = { SourceMap };

    ghost view = { λ m. map_of m.source m.destinations };

    ghost invariant = { λ m. IsSourceMap (map_of m.source m.destinations) };
}

impl AccountMap {
    ghost use Rattle.std.specs.Prelude.{◌≡◌, ◌≤◌};
    ghost use Rattle.std.specs.List.{sum_by};
    ghost use Rattle.subjects.specs.Subject.{in_set};
    ghost use Rattle.account_mappings.specs.Drawing.{AreOwn, chosen, draw_of, is_dropped, map_if, map_of, weight_of, weights_of};

    /// The source with its destinations, which were made for it. `None` where their weights add up to more than 100.
    pub fn of(source: Pattern, destinations: Items<Destination>) -> Option<AccountMap>
        requires { AreOwn source destinations }
        ensures { result ≡ map_if (map_of source destinations) }
    {
        if exceed(destinations.as_slice()) {
            return None;
        }
        Some(AccountMap {
            source,
            destinations,
        })
    }

    /// The source: the pattern of the subjects that are sent on.
    pub fn source(&self) -> &Pattern
        ensures { result.now ≡ self.now.source }
    {
        &self.source
    }

    /// The destinations in order.
    pub fn destinations(&self) -> &[Destination]
        ensures destinations { result.now ≡ self.now.shares }
        ensures most { sum_by weight_of self.now.shares ≤ 100 }
    {
        self.destinations.as_slice()
    }

    /// Whether the source has a subject.
    pub fn has(&self, subject: &SubjectRef<'_>) -> bool
        ensures { result ≡ in_set self.now.source subject.now }
    {
        self.source.matches(subject)
    }

    /// The index of the destination that a word draws by its upper half: the first at which the weights so far add up to more
    /// than the draw. `None` where the draw falls in the rest.
    pub fn chosen(&self, word: u64) -> Option<usize>
        ensures { result ≡ chosen (draw_of word) (weights_of self.now.shares) }
    {
        chosen(self.destinations.as_slice(), draw_of(word))
    }

    /// Whether what no destination takes is dropped: some destination's text is the source's.
    pub fn is_dropped(&self) -> bool
        ensures { result ≡ is_dropped self.now }
    {
        have_text(self.destinations.as_slice(), self.source.bytes())
    }
}

impl Copying for AccountMap {
    fn copy(&self, alloc: Global) -> Result<AccountMap, NoMemory> {
        Ok(AccountMap {
            source: self.source.copy(alloc)?,
            destinations: self.destinations.copy(alloc)?,
        })
    }
}

impl Alike for AccountMap {
    fn is_like(&self, other: &AccountMap) -> bool {
        self.source.is_like(&other.source) && self.destinations.is_like(&other.destinations)
    }
}

/// Whether the weights add up to more than 100.
fn exceed(destinations: &[Destination]) -> bool
    ensures { result ≡ nat_lt 100 (sum_by weight_of destinations.now) }
{
    let mut total = 0;
    for destination in destinations {
        total += destination.percent();
        if total > 100 {
            return true;
        }
    }
    false
}

/// Whether one of these has the text.
fn have_text(destinations: &[Destination], text: &[u8]) -> bool
    ensures { result ≡ list_any (λ (share : Share). bytes_eq share.text text.now) destinations.now }
{
    destinations.iter().any(|d| d.text() == text)
}
